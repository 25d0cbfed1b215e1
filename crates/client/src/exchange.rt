//! Asking one request.
ghost use Rattle.std.specs.Prelude.{◌≡◌, Err, OnOk, IfOk, IfErr};
ghost use Rattle.std.specs.Io.KnownBytes.{Appends, Consumes};
ghost use Rattle.wire.specs.Counted.{end_in, faults_in, next_count};
ghost use Rattle.wire.specs.Frame.{IsPayload, frame as frame_of};
ghost use Rattle.wire.specs.Output.{WritesFront};
ghost use Rattle.client.specs.declared.client_error.ClientError.TheVariants.{ReadFault, WriteFault};
ghost use Rattle.client.specs.Asking.{greeting, greeted, IsUnanswered, NotGreeted};
ghost use Rattle.client.specs.declared.fault.AskFault.TheVariants.{Server};
ghost use Rattle.client.specs.Private.Steps.{FailsAsking};

use crate::reply::is_version;
use crate::reply_room::ReplyRoom;
use crate::{ClientError, ServerStreams};
use std::io::{Read, Write};
use wire::{Counted, Version, write_flushed};

/// Sends all of the bytes, and sees that the writer keeps nothing back.
fn send<W: Write>(to: &mut Counted<W>, bytes: &[u8]) -> Result<(), ClientError>
    ensures ok { OnOk result (Appends (W.contents (end_in to.old)) (W.contents (end_in to.new)) bytes.now) }
    ensures quiet { OnOk result (faults_in to.new ≡ faults_in to.old) }
    ensures fault { IfErr result (λ error. (error ≡ WriteFault) × (faults_in to.new ≡ next_count (faults_in to.old))) }
    ensures front { WritesFront (W.contents (end_in to.old)) (W.contents (end_in to.new)) bytes.now }
{
    match write_flushed(to, bytes) {
        Ok(()) => Ok(()),
        Err(_) => Err(ClientError::WriteFault),
    }
}

/// Sends a request, reads one reply, and lends its payload.
pub(crate) fn ask_once<'a, R: Read, W: Write>(
    server: &mut ServerStreams<R, W>,
    request: &[u8],
    room: &'a mut ReplyRoom,
) -> Result<&'a [u8], ClientError>
    ensures tells { IfOk result (λ payload. IsPayload payload.now
        × Consumes (R.remaining (end_in server.old.from)) (R.remaining (end_in server.new.from)) (frame_of payload.now)) }
    ensures asks { OnOk result (Appends (W.contents (end_in server.old.to)) (W.contents (end_in server.new.to)) request.now) }
    ensures quiet_from { OnOk result (faults_in server.new.from ≡ faults_in server.old.from) }
    ensures quiet_to { OnOk result (faults_in server.new.to ≡ faults_in server.old.to) }
    ensures err { IfErr result (λ error. FailsAsking request.now (IsUnanswered error)
        (R.remaining (end_in server.old.from)) (R.remaining (end_in server.new.from)) (W.contents (end_in server.old.to)) (W.contents (end_in server.new.to))) }
    ensures read_fault { result ≡ Err ReadFault → faults_in server.new.from ≡ next_count (faults_in server.old.from) }
    ensures write_fault { result ≡ Err WriteFault → faults_in server.new.to ≡ next_count (faults_in server.old.to) }
{
    send(&mut server.to, request)?;
    let payload = room.read(&mut server.from)?;
    Ok(payload)
}

/// Sets version 3 of the session, in which all requests can be asked.
pub(crate) fn greet<R: Read, W: Write>(
    server: &mut ServerStreams<R, W>,
    room: &mut ReplyRoom,
) -> Result<(), ClientError>
    ensures tells { OnOk result (Consumes (R.remaining (end_in server.old.from)) (R.remaining (end_in server.new.from)) greeted) }
    ensures asks { OnOk result (Appends (W.contents (end_in server.old.to)) (W.contents (end_in server.new.to)) greeting) }
    ensures quiet_from { OnOk result (faults_in server.new.from ≡ faults_in server.old.from) }
    ensures quiet_to { OnOk result (faults_in server.new.to ≡ faults_in server.old.to) }
    ensures err { IfErr result (λ error. FailsAsking greeting (NotGreeted (Server error))
        (R.remaining (end_in server.old.from)) (R.remaining (end_in server.new.from)) (W.contents (end_in server.old.to)) (W.contents (end_in server.new.to))) }
    ensures read_fault { result ≡ Err ReadFault → faults_in server.new.from ≡ next_count (faults_in server.old.from) }
    ensures write_fault { result ≡ Err WriteFault → faults_in server.new.to ≡ next_count (faults_in server.old.to) }
{
    let payload = ask_once(server, &[0, 0, 0, 2, b'V', 3], room)?;
    if is_version(payload, Version::Three) {
        Ok(())
    } else {
        Err(ClientError::BadReply)
    }
}
