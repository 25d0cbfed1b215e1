//! Showing replies.
ghost use Rattle.std.specs.Prelude.{◌≡◌, ◌++◌, Err, OnOk, IfOk, IfErr};
ghost use Rattle.std.specs.Io.KnownBytes.{Appends};
ghost use Rattle.wire.specs.Counted.{end_in, faults_in, next_count};
ghost use Rattle.wire.specs.Frame.{IsPayload, frame as frame_of};
ghost use Rattle.wire.specs.Output.{WritesFront};
ghost use Rattle.wire.specs.declared.error.FrontError.TheVariants.{WriteFault};
ghost use Rattle.wire.specs.ReplyForm.{HasPayload, IsLined, payload_of, reply as said};
ghost use Rattle.client.specs.Replies.{CanBeShown, IsTold, shown};
ghost use Rattle.client.specs.Private.Steps.{Shows, NotShown, ShowsOthers, BreaksOthers, Blames, faults_of};
ghost use Rattle.client.specs.declared.asking.Form.TheVariants.{Texts};
ghost use Rattle.client.specs.declared.fault.AskFault.TheVariants.{Front};

use crate::asking::Form;
use crate::fault::AskFault;
use crate::reply::{Due, bundles_after, comes_at, is_refusal, is_text};
use crate::reply_room::ReplyRoom;
use crate::{ClientError, ServerStreams};
use std::io::{Read, Write};
use wire::{Counted, ReplyForm, reply_of_payload, write_both, write_whole};

/// What a reply that was shown says to the client.
#[derive(Clone, Copy)]
pub(crate) struct Shown {
    pub refused: bool,
    /// So many bundles follow.
    pub bundles: u64,
}

/// Shows a reply, if it may come there.
pub(crate) fn show<O: Write>(
    form: Form,
    due: Due,
    reply: &ReplyForm<'_>,
    payload: &[u8],
    out: &mut Counted<O>,
) -> Result<Shown, AskFault>
    requires payload { payload.now ≡ payload_of (said reply.now) }
    requires good { IsPayload payload.now }
    requires has { HasPayload (said reply.now) }
    ensures ok { IfOk result (λ told. Shows form due (said reply.now) told.refused told.bundles (O.contents (end_in out.old)) (O.contents (end_in out.new))) }
    ensures quiet { OnOk result (faults_in out.new ≡ faults_in out.old) }
    ensures err { IfErr result (λ fault. NotShown form (said reply.now) (IsTold form due (said reply.now)) fault (O.contents (end_in out.old)) (O.contents (end_in out.new))) }
    ensures counted { result ≡ Err (Front WriteFault) → faults_in out.new ≡ next_count (faults_in out.old) }
{
    if !comes_at(due, reply, payload) {
        return Err(AskFault::Server(ClientError::BadReply));
    }
    write_reply(form, reply, payload, out)?;
    Ok(Shown {
        refused: is_refusal(reply),
        bundles: bundles_after(reply),
    })
}

/// Writes the line or the frame of a reply. If it has no line, nothing is written.
fn write_reply<O: Write>(
    form: Form,
    reply: &ReplyForm<'_>,
    payload: &[u8],
    out: &mut Counted<O>,
) -> Result<(), AskFault>
    requires payload { payload.now ≡ payload_of (said reply.now) }
    requires good { IsPayload payload.now }
    ensures ok { OnOk result (CanBeShown form (said reply.now) × Appends (O.contents (end_in out.old)) (O.contents (end_in out.new)) (shown form (said reply.now))) }
    ensures quiet { OnOk result (faults_in out.new ≡ faults_in out.old) }
    ensures err { IfErr result (λ fault. NotShown form (said reply.now) (CanBeShown form (said reply.now)) fault (O.contents (end_in out.old)) (O.contents (end_in out.new))) }
    ensures counted { result ≡ Err (Front WriteFault) → faults_in out.new ≡ next_count (faults_in out.old) }
{
    match form {
        Form::Lines => match reply.line_head() {
            Some(head) => write_parts(head.as_slice(), reply.text(), b"\n", out),
            None => Err(AskFault::Server(ClientError::BadReply)),
        },
        Form::Texts => write_text(reply, out),
        Form::Frames => write_frame(payload, out),
    }
}

/// Writes the bundle that was asked for or the counts, or the line of another reply.
fn write_text<O: Write>(reply: &ReplyForm<'_>, out: &mut Counted<O>) -> Result<(), AskFault>
    ensures ok { OnOk result (IsLined (said reply.now) × Appends (O.contents (end_in out.old)) (O.contents (end_in out.new)) (shown Texts (said reply.now))) }
    ensures quiet { OnOk result (faults_in out.new ≡ faults_in out.old) }
    ensures err { IfErr result (λ fault. NotShown Texts (said reply.now) (IsLined (said reply.now)) fault (O.contents (end_in out.old)) (O.contents (end_in out.new))) }
    ensures counted { result ≡ Err (Front WriteFault) → faults_in out.new ≡ next_count (faults_in out.old) }
{
    let Some(head) = reply.line_head() else {
        return Err(AskFault::Server(ClientError::BadReply));
    };
    if is_text(reply) {
        write_parts(b"", reply.text(), b"\n", out)
    } else {
        write_parts(head.as_slice(), reply.text(), b"\n", out)
    }
}

#[tactic(auto, unfolding(wire::specs::Frame::frame))]
fn write_frame<O: Write>(payload: &[u8], out: &mut Counted<O>) -> Result<(), AskFault>
    requires good { IsPayload payload.now }
    ensures ok { OnOk result (Appends (O.contents (end_in out.old)) (O.contents (end_in out.new)) (frame_of payload.now)) }
    ensures quiet { OnOk result (faults_in out.new ≡ faults_in out.old) }
    ensures fault { IfErr result (λ fault. (fault ≡ Front WriteFault) × (faults_in out.new ≡ next_count (faults_in out.old))) }
    ensures front { WritesFront (O.contents (end_in out.old)) (O.contents (end_in out.new)) (frame_of payload.now) }
{
    let size = payload.len() as u32;
    write_both(out, &size.to_be_bytes(), payload)?;
    Ok(())
}

/// Writes the three one after another.
fn write_parts<O: Write>(
    head: &[u8],
    text: &[u8],
    end: &[u8],
    out: &mut Counted<O>,
) -> Result<(), AskFault>
    ensures ok { OnOk result (Appends (O.contents (end_in out.old)) (O.contents (end_in out.new)) ((head.now ++ text.now) ++ end.now)) }
    ensures quiet { OnOk result (faults_in out.new ≡ faults_in out.old) }
    ensures fault { IfErr result (λ fault. (fault ≡ Front WriteFault) × (faults_in out.new ≡ next_count (faults_in out.old))) }
    ensures front { WritesFront (O.contents (end_in out.old)) (O.contents (end_in out.new)) ((head.now ++ text.now) ++ end.now) }
{
    write_both(out, head, text)?;
    write_whole(out, end)?;
    Ok(())
}

/// Reads so many bundles and shows each as it comes.
pub(crate) fn show_others<R: Read, W: Write, O: Write>(
    form: Form,
    count: u64,
    server: &mut ServerStreams<R, W>,
    room: &mut ReplyRoom,
    out: &mut Counted<O>,
) -> Result<(), AskFault>
    ensures ok { OnOk result (ShowsOthers form count
        (R.remaining (end_in server.old.from)) (R.remaining (end_in server.new.from)) (O.contents (end_in out.old)) (O.contents (end_in out.new))) }
    ensures err { IfErr result (λ fault. BreaksOthers form fault count
        (R.remaining (end_in server.old.from)) (R.remaining (end_in server.new.from)) (O.contents (end_in out.old)) (O.contents (end_in out.new))) }
    ensures same_to { server.new.to ≡ server.old.to }
    ensures faults { Blames ⊥ result (faults_of server.old out.old) (faults_of server.new out.new) }
{
    for _place in 0..count {
        let payload = room.read(&mut server.from)?;
        let Some(reply) = reply_of_payload(payload) else {
            return Err(AskFault::Server(ClientError::BadReply));
        };
        show(form, Due::OneOfAll, &reply, payload, out)?;
    }
    Ok(())
}
