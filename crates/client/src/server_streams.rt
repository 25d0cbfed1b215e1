//! The streams of a server, and asking it a stream of lines.
ghost use Rattle.std.specs.Prelude.{◌≡◌, Err, OnOk};
ghost use Rattle.wire.specs.Counted.{end_in, faults_in, next_count};
ghost use Rattle.wire.specs.declared.error.FrontError.TheVariants.{ReadFault, WriteFault};
ghost use Rattle.client.specs.declared.client_error.ClientError.{ClientError};
ghost use Rattle.client.specs.declared.client_error.ClientError.TheVariants as server_fault;
ghost use Rattle.client.specs.Asking.{AsksStream, ends};
ghost use Rattle.client.specs.Private.Steps.{ReadsMore};
ghost use Rattle.client.specs.declared.fault.AskFault.TheVariants.{Front, Server};

use crate::asking::Asking;
use crate::exchange::greet;
use crate::fault::AskFault;
use crate::line::ask_line;
use crate::reply_room::ReplyRoom;
use std::alloc::Global;
use std::io::{Read, Write};
use wire::{Counted, Encoder, FrontError, TextSource};

/// The most bytes of one read of the lines.
const PIECE_BYTES: usize = 4096;

/// The streams by which a server is asked.
#[derive(Drop)]
pub struct ServerStreams<R, W> {
    /// The replies of the server.
    pub from: Counted<R>,
    /// The requests to the server.
    pub to: Counted<W>,
}

impl<R: Read, W: Write> ServerStreams<R, W> {
    /// Asks the lines one after another, with the texts that they name, and shows the replies to each before the next is asked. Version
    /// 2 of the session is set first, which conditional sets need, and the reply to that is not shown. True if some reply that was shown
    /// is a refusal.
    ///
    /// At the first line that is bad, or at the first exchange that fails, it ends; what was shown stands. It takes room for the
    /// longest reply, and keeps one line and one request.
    pub fn ask_stream<T: TextSource, L: Read, O: Write>(
        &mut self,
        alloc: Global,
        how: Asking,
        texts: &T,
        lines: &mut Counted<L>,
        out: &mut Counted<O>,
    ) -> Result<bool, AskFault>
        ensures asks { AsksStream (T.gives texts.now) how result
            (ends (L.remaining (end_in lines.old)) (R.remaining (end_in self.old.from)) (W.contents (end_in self.old.to)) (O.contents (end_in out.old)))
            (ends (L.remaining (end_in lines.new)) (R.remaining (end_in self.new.from)) (W.contents (end_in self.new.to)) (O.contents (end_in out.new))) }
        ensures quiet_lines { OnOk result (faults_in lines.new ≡ faults_in lines.old) }
        ensures quiet_from { OnOk result (faults_in self.new.from ≡ faults_in self.old.from) }
        ensures quiet_to { OnOk result (faults_in self.new.to ≡ faults_in self.old.to) }
        ensures quiet_out { OnOk result (faults_in out.new ≡ faults_in out.old) }
        ensures read_fault { result ≡ Err (Front ReadFault) → faults_in lines.new ≡ next_count (faults_in lines.old) }
        ensures write_fault { result ≡ Err (Front WriteFault) → faults_in out.new ≡ next_count (faults_in out.old) }
        ensures server_read_fault { result ≡ Err (Server server_fault.ReadFault) → faults_in self.new.from ≡ next_count (faults_in self.old.from) }
        ensures server_write_fault { result ≡ Err (Server server_fault.WriteFault) → faults_in self.new.to ≡ next_count (faults_in self.old.to) }
    {
        let mut room = ReplyRoom::new(alloc)?;
        let mut encoder = Encoder::new(alloc)?;
        let mut request = Vec::new(alloc);
        greet(self, &mut room)?;
        let mut refused = false;
        for _turn in 0..u64::MAX {
            if encoder.encode_next(alloc, texts, &mut request)? {
                let one = ask_line(how, request.as_slice(), self, &mut room, out)?;
                refused |= one;
                request.clear();
                continue;
            }
            if !read_more(lines, &mut encoder)? {
                encoder.finish(alloc, texts, &mut request)?;
                let last = ask_line(how, request.as_slice(), self, &mut room, out)?;
                return Ok(refused | last);
            }
        }
        Err(AskFault::Front(FrontError::TurnsUsed))
    }
}

/// Reads a piece of the lines. False if they are at their end.
fn read_more<L: Read>(lines: &mut Counted<L>, encoder: &mut Encoder) -> Result<bool, AskFault>
    ensures reads { ReadsMore result encoder.old encoder.new (L.remaining (end_in lines.old)) (L.remaining (end_in lines.new)) }
    ensures quiet { OnOk result (faults_in lines.new ≡ faults_in lines.old) }
    ensures read_fault { result ≡ Err (Front ReadFault) → faults_in lines.new ≡ next_count (faults_in lines.old) }
    ensures write_fault { result ≡ Err (Front WriteFault) → ⊥ }
    ensures other_fault { (why : ClientError) → result ≡ Err (Server why) → ⊥ }
{
    let mut piece = [0; PIECE_BYTES];
    let count = match lines.read(&mut piece) {
        Ok(count) => count,
        Err(_) => return Err(AskFault::Front(FrontError::ReadFault)),
    };
    if count == 0 {
        return Ok(false);
    }
    let (fresh, _) = piece.split_at(count);
    encoder.feed(fresh)?;
    Ok(true)
}
