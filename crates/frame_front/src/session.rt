//! Sessions: requests come in, replies go out.
ghost use Rattle.std.specs.Prelude.{◌≡◌, ◌≤◌, ℕ, List, [], Err, Some, OnOk};
ghost use Rattle.std.specs.Io.KnownBytes.{Appends};
ghost use Rattle.wire.specs.Counted.{MakesReads, end_in, faults_in, next_count, reads_of};
ghost use Rattle.frame_front.specs.Live.{waiting};
ghost use Rattle.frame_front.specs.Private.Round.{Round};
ghost use Rattle.frame_front.specs.Transcript.{Transcript};
ghost use Rattle.frame_front.specs.PlainSession.{PlainTranscript};
ghost use Rattle.map_core.specs.PlainMap.{PlainMap};

use crate::LiveSession;
use crate::answered::Wants;
use crate::live::Step;
use map_core::Ask;
use spiffe_doc::DocumentReader;
use std::alloc::Global;
use std::io::{Read, Write};
use wire::{Counted, FrontError};

/// The most bytes of one read.
const PIECE_BYTES: usize = 4096;

/// Answers each whole frame that the session keeps, in order, and says how many. The replies are gathered, and stand written
/// at the end. One that says that whoever was asked gave an error does not wait: it is written at once, so that the replies
/// that wait have all changed the map as they say.
fn answer_all<W: Write, A: Ask>(
    live: &mut LiveSession,
    documents: &mut DocumentReader,
    ask: &mut A,
    writer: &mut Counted<W>,
) -> Result<u64, FrontError>
    requires nothing_waits { waiting live.old ≡ [] }
    ensures round { (written : List ℕ) × Appends (W.contents (end_in writer.old)) (W.contents (end_in writer.new)) written
        × Round A.answers result live.old.kept live.new.kept (live.old.terms, ask.old) (live.new.terms, ask.new) written }
    ensures all_sent { OnOk result (waiting live.new ≡ []) }
    ensures quiet { OnOk result (faults_in writer.new ≡ faults_in writer.old) }
    ensures fault { result ≡ Err FrontError.WriteFault → faults_in writer.new ≡ next_count (faults_in writer.old) }
{
    // With it the input that is kept is known to be short.
    let _room = live.room();
    let mut count = 0;
    loop {
        match live.step(documents, ask) {
            Step::Answered(false) => count += 1,
            Step::Answered(true) => {
                live.write(writer)?;
                count += 1;
            }
            Step::Stops(next) => {
                live.write(writer)?;
                match next {
                    Ok(Wants::Write) => {}
                    Ok(Wants::Read) => return Ok(count),
                    Err(fault) => return Err(fault),
                }
            }
        }
    }
}

/// Reads pieces, and answers each whole frame, in order, before the next read.
fn take_turns<R: Read, W: Write, A: Ask>(
    alloc: Global,
    reader: &mut Counted<R>,
    writer: &mut Counted<W>,
    ask: &mut A,
    turns: u64,
) -> Result<u64, FrontError>
    requires few { turns ≤ 1000000000 }
    ensures transcript { Transcript A.answers result turns
        (R.remaining (end_in reader.old)) (R.remaining (end_in reader.new))
        (W.contents (end_in writer.old)) (W.contents (end_in writer.new)) ask.old ask.new }
    ensures reads { MakesReads turns (result ≡ Err FrontError.TurnsUsed) (reads_of reader.old) (reads_of reader.new) }
    ensures read_fault { result ≡ Err FrontError.ReadFault → faults_in reader.new ≡ next_count (faults_in reader.old) }
    ensures write_fault { result ≡ Err FrontError.WriteFault → faults_in writer.new ≡ next_count (faults_in writer.old) }
{
    let _begun = reader.reads();
    let Ok(mut live) = LiveSession::new(alloc, false) else {
        return Err(FrontError::Memory);
    };
    // Taken before the first read, so that nothing grows for a short reply after a change.
    if let Err(_) = live.take_room() {
        return Err(FrontError::Memory);
    }
    let mut documents = DocumentReader::new(alloc);
    let mut piece = [0; PIECE_BYTES];
    let mut answered = 0;
    for turn in 0..turns {
        let count = match reader.read(&mut piece) {
            Ok(count) => count,
            Err(_) => return Err(FrontError::ReadFault),
        };
        if count == 0 {
            live.end()?;
            return Ok(answered);
        }
        let (fresh, _) = piece.split_at(count);
        if let Err(_) = live.feed(fresh) {
            return Err(FrontError::Memory);
        }
        answered += answer_all(&mut live, &mut documents, ask, writer)?;
    }
    Err(FrontError::TurnsUsed)
}

/// Serves a session: reads pieces, and answers each whole frame, in order, before the next read. It
/// gives the number of frames answered at the end of the input.
pub fn serve<R: Read, W: Write, A: Ask>(
    alloc: Global,
    reader: &mut Counted<R>,
    writer: &mut Counted<W>,
    ask: &mut A,
    turns: u64,
) -> Result<u64, FrontError>
    requires few { turns ≤ 1000000000 }

    // Over any map that can be asked.
    ensures transcript { Transcript A.answers result turns
        (R.remaining (end_in reader.old)) (R.remaining (end_in reader.new))
        (W.contents (end_in writer.old)) (W.contents (end_in writer.new)) ask.old ask.new }

    // Over a map that shows a plain map.
    ensures plain { (m : PlainMap) → A.shows ask.old ≡ Some m
        → (n : PlainMap) × (A.shows ask.new ≡ Some n) × PlainTranscript A.answers result turns
        (R.remaining (end_in reader.old)) (R.remaining (end_in reader.new))
        (W.contents (end_in writer.old)) (W.contents (end_in writer.new)) m n }

    // A turn is one call of `read`.
    ensures reads { MakesReads turns (result ≡ Err FrontError.TurnsUsed) (reads_of reader.old) (reads_of reader.new) }
    ensures read_fault { result ≡ Err FrontError.ReadFault → faults_in reader.new ≡ next_count (faults_in reader.old) }
    ensures write_fault { result ≡ Err FrontError.WriteFault → faults_in writer.new ≡ next_count (faults_in writer.old) }
{
    take_turns(alloc, reader, writer, ask, turns)
}
