//! The fields of payloads, as requests and replies spell them.
ghost use Rattle.std.specs.Prelude.{◌≡◌, ◌≤◌, length};
ghost use Rattle.arrayvec.specs.ArrayVec.{array_vec_len};
ghost use Rattle.wire.specs.Fields.{sequence_bytes as bytes_of_sequence, expect_bytes as bytes_of_expect};

use arrayvec::ArrayVec;
use map_core::Expect;

/// The most bytes of a field: a byte, and a number of 8 bytes.
pub const FIELD_BYTES: usize = 9;

/// A field of a payload.
pub type Field = ArrayVec<u8, FIELD_BYTES>;

/// A field of these bytes.
pub(crate) fn field_of(bytes: &[u8]) -> Field
    requires { length bytes.now ≤ 9 }
    ensures { result.items ≡ bytes.now }
{
    let mut field = ArrayVec::new();
    let _fits = field.try_extend_from_slice(bytes);
    field
}

/// 0, or 1 and the sequence.
pub fn sequence_bytes(sequence: Option<u64>) -> Field
    ensures value { result.items ≡ bytes_of_sequence sequence }
    ensures few { array_vec_len result ≤ 9 }
{
    match sequence {
        Some(sequence) => {
            let mut field = field_of(&[1]);
            let _fits = field.try_extend_from_slice(&sequence.to_be_bytes());
            field
        }
        None => field_of(&[0]),
    }
}

/// How a reply or a request spells an expectation: a byte, and with a sequence its 8 bytes.
pub fn expect_bytes(expect: Expect) -> Field
    ensures value { result.items ≡ bytes_of_expect expect }
    ensures few { array_vec_len result ≤ 9 }
{
    match expect {
        Expect::Absent => sequence_bytes(None),
        Expect::Sequence(sequence) => sequence_bytes(Some(sequence)),
        Expect::Unnumbered => field_of(&[2]),
    }
}
