//! Asking one line.
ghost use Rattle.std.specs.Prelude.{◌≢◌, [], IfOk, IfErr};
ghost use Rattle.wire.specs.Counted.{end_in};
ghost use Rattle.client.specs.Private.Steps.{AsksFirst, AsksOne, BreaksOne, Blames, faults_of};

use crate::asking::Asking;
use crate::exchange::ask_once;
use crate::fault::AskFault;
use crate::reply::{due_to, is_asked_again};
use crate::reply_room::ReplyRoom;
use crate::showing::{Shown, show, show_others};
use crate::{ClientError, ServerStreams};
use std::io::{Read, Write};
use wire::{Counted, FrontError, reply_of_payload};

/// Asks a request, again after each transient reply, at most so often, and shows the first reply of what is told.
fn ask_until_told<R: Read, W: Write, O: Write>(
    how: Asking,
    request: &[u8],
    server: &mut ServerStreams<R, W>,
    room: &mut ReplyRoom,
    out: &mut Counted<O>,
) -> Result<Shown, AskFault>
    requires { request.now ≢ [] }
    ensures ok { IfOk result (λ first. AsksFirst how request.now first.refused first.bundles (R.remaining (end_in server.old.from)) (R.remaining (end_in server.new.from))
        (W.contents (end_in server.old.to)) (W.contents (end_in server.new.to)) (O.contents (end_in out.old)) (O.contents (end_in out.new))) }
    ensures err { IfErr result (λ fault. BreaksOne how fault request.now (R.remaining (end_in server.old.from)) (R.remaining (end_in server.new.from))
        (W.contents (end_in server.old.to)) (W.contents (end_in server.new.to)) (O.contents (end_in out.old)) (O.contents (end_in out.new))) }
    ensures faults { Blames ⊥ result (faults_of server.old out.old) (faults_of server.new out.new) }
{
    let mut left = how.retries;
    loop {
        let payload = ask_once(server, request, room)?;
        let Some(reply) = reply_of_payload(payload) else {
            return Err(AskFault::Server(ClientError::BadReply));
        };
        if !is_asked_again(left, &reply) {
            return show(how.form, due_to(request), &reply, payload, out);
        }
        left -= 1;
    }
}

/// Asks what a line became, and shows all that is told. Says whether it was refused. A comment became nothing, and asks nothing.
pub(crate) fn ask_line<R: Read, W: Write, O: Write>(
    how: Asking,
    request: &[u8],
    server: &mut ServerStreams<R, W>,
    room: &mut ReplyRoom,
    out: &mut Counted<O>,
) -> Result<bool, AskFault>
    ensures ok { IfOk result (λ refused. AsksOne how request.now refused (R.remaining (end_in server.old.from)) (R.remaining (end_in server.new.from))
        (W.contents (end_in server.old.to)) (W.contents (end_in server.new.to)) (O.contents (end_in out.old)) (O.contents (end_in out.new))) }
    ensures err { IfErr result (λ fault. BreaksOne how fault request.now (R.remaining (end_in server.old.from)) (R.remaining (end_in server.new.from))
        (W.contents (end_in server.old.to)) (W.contents (end_in server.new.to)) (O.contents (end_in out.old)) (O.contents (end_in out.new))) }
    ensures faults { Blames ⊥ result (faults_of server.old out.old) (faults_of server.new out.new) }
{
    if request.is_empty() {
        return Ok(false);
    }
    let first = ask_until_told(how, request, server, room, out)?;
    show_others(how.form, first.bundles, server, room, out)?;
    match out.flush() {
        Ok(()) => Ok(first.refused),
        Err(_) => Err(AskFault::Front(FrontError::WriteFault)),
    }
}
