//! The room for a reply.
ghost use Rattle.std.specs.Prelude.{◌≡◌, length, IfOk, IfErr};
ghost use Rattle.wire.specs.Frame.{IsPayload, frame};
ghost use Rattle.wire.specs.Output.{end_of};
ghost use Rattle.client.specs.Reading.{NoFrame};
ghost use Rattle.client.specs.Private.Reads.{ReadsWhole, StopsReading};

use crate::ClientError;
use crate::reading::read_frame;
use std::alloc::{AllocError, Global};
use std::io::Read;
use std::marker::Model;
use wire::{Counted, MAX_PAYLOAD};

/// Room for the longest payload, 1,049,000 bytes.
#[derive(Drop)]
pub(crate) struct ReplyRoom {
    bytes: Vec<u8>,
}

impl Model for ReplyRoom {
    ghost use Rattle.std.specs.Prelude.{◌≡◌, ℕ, List, length};

    ghost Value = { List ℕ };

    ghost view = { λ room. room.bytes.items };

    ghost invariant = { λ room. length room.bytes.items ≡ 1049000 };
}

impl ReplyRoom {
    pub(crate) fn new(alloc: Global) -> Result<ReplyRoom, AllocError> {
        let bytes = vec![in alloc; 0; MAX_PAYLOAD]?;
        Ok(ReplyRoom { bytes })
    }

    /// Reads one frame, and no byte beyond it, and lends its payload.
    pub(crate) fn read<R: Read>(&mut self, reader: &mut Counted<R>) -> Result<&[u8], ClientError>
        ensures ok { IfOk result (λ payload. IsPayload payload.now
            × ReadsWhole (end_of R.remaining reader.old) (end_of R.remaining reader.new) (frame payload.now)) }
        ensures err { IfErr result (λ why. StopsReading NoFrame why (end_of R.remaining reader.old) (end_of R.remaining reader.new)) }
    {
        let size = read_frame(reader, &mut self.bytes)?;
        Ok(&self.bytes[..size])
    }
}
