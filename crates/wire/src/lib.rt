//! What both ends of a session say to each other: frames on a stream of bytes, requests and replies as values, their bytes and
//! their lines.
//!
//! `RequestForm` and `ReplyForm` are what a payload says; `request_of_payload`, `reply_of_payload` and `request_of_line` read them,
//! `frame_head`, `frame_front` and `line_head` write them. `RequestForm::judge` says what a request asks of the map, or why it is
//! refused, and `ReplyForm::of_answer` how an answer is told. `Decoder` takes frames out of a stream; `Counted` are its ends.
#![tactic(auto)]

mod answer;
mod counted;
mod decode;
mod decoder;
mod encoder;
mod error;
mod faulty;
mod field;
mod frame;
pub mod head;
mod item;
mod judge;
pub mod laws;
mod line_decoder;
mod line_frame;
mod output;
mod payload_line;
mod refusal;
mod reply;
mod request;
mod stream;
mod text_source;
mod version;
pub mod word;

pub use counted::Counted;
pub use decode::{DecodeError, decode_stream};
pub use decoder::Decoder;
pub use encoder::{EncodeError, Encoder};
pub use error::FrontError;
pub use faulty::{FaultyReader, FaultyWriter};
pub use field::{FIELD_BYTES, Field, expect_bytes, sequence_bytes};
pub use frame::{LENGTH_BYTES, MAX_PAYLOAD, first_frame, length_field, put_frame};
pub use head::{HEAD_BYTES, Head};
pub use item::{ITEM_HEAD_BYTES, is_after, put_request, read_item};
pub use judge::{Judged, read_name, read_request};
pub use line_decoder::LineDecoder;
pub use map_core::{canonical_text, item_front};
pub use output::{tell, tell_flushed, write_both, write_flushed, write_whole};
pub use payload_line::{PayloadError, put_line_of};
pub use refusal::Refusal;
pub use reply::payload::{FRONT_BYTES, ReplyFront, counts_front, found_front, reply_of_payload};
pub use reply::{Detail, ReplyForm, is_error_code};
pub use request::RequestForm;
pub use request::line::request_of_line;
pub use request::payload::request_of_payload;
pub use stream::{StreamError, encode_stream};
pub use text_source::{TextError, TextSource};
pub use version::Version;
