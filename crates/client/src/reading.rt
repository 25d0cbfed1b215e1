//! Reading one frame, and no byte beyond it.
ghost use Rattle.std.specs.Prelude.{◌≡◌, ℕ, List, length, take, OnOk, IfOk, IfErr};
ghost use Rattle.std.specs.Io.KnownBytes.{Consumes};
ghost use Rattle.wire.specs.Counted.{end_in, faults_in};
ghost use Rattle.wire.specs.Frame.{IsPayload, frame};
ghost use Rattle.client.specs.Reading.{CountsFault, NoFrame};
ghost use Rattle.client.specs.Private.Reads.{ReadsWhole, StopsReading, StopsShort};
ghost use Rattle.wire.specs.Output.{end_of};

use crate::ClientError;
use std::io::Read;
use wire::{Counted, LENGTH_BYTES, MAX_PAYLOAD, length_field};

/// Reads until the buffer is full.
fn fill<R: Read>(reader: &mut Counted<R>, buffer: &mut [u8]) -> Result<(), ClientError>
    ensures len { length buffer.new ≡ length buffer.old }
    ensures ok { OnOk result (ReadsWhole (end_of R.remaining reader.old) (end_of R.remaining reader.new) buffer.new) }
    ensures err { IfErr result (λ why. StopsReading (StopsShort (length buffer.old)) why (end_of R.remaining reader.old) (end_of R.remaining reader.new)) }
{
    let mut filled = 0;
    while filled < buffer.len() {
        match reader.read(&mut buffer[filled..]) {
            Ok(0) => return Err(ClientError::Truncated),
            Ok(count) => filled += count,
            Err(_) => return Err(ClientError::ReadFault),
        }
    }
    Ok(())
}

/// Reads one frame, and no byte beyond it, into the front of the buffer, and says how many bytes its payload has.
pub fn read_frame<R: Read>(reader: &mut Counted<R>, buffer: &mut [u8]) -> Result<usize, ClientError>
    requires room { length buffer.old ≡ 1049000 }
    ensures len { length buffer.new ≡ length buffer.old }
    ensures ok { IfOk result (λ size. (length (take size buffer.new) ≡ size) × IsPayload (take size buffer.new)
        × Consumes (R.remaining (end_in reader.old)) (R.remaining (end_in reader.new)) (frame (take size buffer.new))) }
    ensures quiet { OnOk result (faults_in reader.new ≡ faults_in reader.old) }
    ensures err { IfErr result (λ why. (read : List ℕ)
        × Consumes (R.remaining (end_in reader.old)) (R.remaining (end_in reader.new)) read
        × NoFrame why read (R.remaining (end_in reader.new))) }
    ensures counted { IfErr result (λ why. CountsFault why (faults_in reader.old) (faults_in reader.new)) }
{
    let mut field = [0; LENGTH_BYTES];
    fill(reader, &mut field)?;
    let size = length_field(&field);
    if size == 0 || size > MAX_PAYLOAD {
        return Err(ClientError::BadLength);
    }
    fill(reader, &mut buffer[..size])?;
    Ok(size)
}
