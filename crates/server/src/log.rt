//! The log of a server: a line for each change of a bundle, for each that was refused by 31 or 36, for those that a session at a
//! port for reads only refused in a turn, and for each end of a session. It also counts what it is told.
ghost use Rattle.std.specs.Prelude.{◌≡◌, IfSome, OnOk, Some, option_and_then, option_map};
ghost use Rattle.std.specs.Bool.{OnTrue};
ghost use Rattle.std.specs.Io.KnownBytes.{Appends};
ghost use Rattle.wire.specs.Output.{WritesFront};
ghost use Rattle.server.specs.LogLine.{before_word, change_line, end_line, end_words, how_word, peer_words, refusal_line, refusal_words, state_word, turned_away_line, who_words};
ghost use Rattle.workers.specs.Log.{change_view};

use crate::counts::{Count, Counts};
use crate::server_log::ServerLog;
use arrayvec::ArrayVec;
use command_line::LogScope;
use map_core::{Expect, MapRefusal};
use shard_store::Tally;
use spiffe_doc::Memory;
use std::alloc::{AllocError, Global};
use std::io;
use std::io::Write;
use std::time::Clock;
use workers::{ChangeRefusal, Changed, Client, How, Log, RefusedChange, SessionFault};

/// The most bytes of a line. The longest has a name of 255 bytes and four numbers of 20 digits.
const LINE_BYTES: usize = 384;

type Line = ArrayVec<u8, LINE_BYTES>;

/// Lines on an end that all workers share, such as standard error. Each line is one write, so that lines of two workers
/// don't mix. A line that is not taken is left out; over an end that never waits the log never stands in the way of a reply. So
/// is a refusal or an end of a session if too many have come within a second. How many were left out is told by a line of its
/// own, after the next one that is taken.
///
/// What it is told is counted, too, whether it is on or not.
pub struct LineLog<'c, C, N> {
    counts: &'c Counts,
    clock: &'c C,
    end: N,
    scope: LogScope,
    /// How many lines of changes the end did not take whole. Only by such a count a contract tells a line that was refused from
    /// one that was never written.
    left_out: u64,
}

impl<'c, C, N> LineLog<'c, C, N> {
    /// A log on this end, from which no line was left out yet. Changes are told to it only if its scope has them. The clock
    /// tells how long it has counted.
    pub fn new(counts: &'c Counts, clock: &'c C, end: N, scope: LogScope) -> LineLog<'c, C, N>
        ensures end { result.end ≡ end }
        ensures scope { result.scope ≡ scope }
        ensures left_out { result.left_out ≡ 0 }
    {
        LineLog {
            counts,
            clock,
            end,
            scope,
            left_out: 0,
        }
    }
}

impl<C: Clock, N: Write + Copy + Drop> LineLog<'_, C, N> {
    /// Tells how many lines were left out, if some were and that was not told.
    pub fn tell_left_out(&self) {
        let count = self.counts.limit().take_left_out();
        if count == 0 {
            return;
        }
        let mut all = self.end;
        if !offer_left_out(&mut all, count) {
            self.counts.limit().leave_out(count);
        }
    }

    /// Whether a refusal or an end of a session may be told now. One that may not be counts as left out.
    fn admits(&self) -> bool {
        let second = self.counts.seconds(self.clock);
        let admits = self.counts.limit().admits(second);
        if !admits {
            self.counts.limit().leave_out(1);
        }
        admits
    }

    /// Writes a line that is told whether the log is on or not. One that is not taken is not counted.
    fn notify(&self, line: &Line) {
        let mut all = self.end;
        let _is_taken = offer(&mut all, line);
    }

    /// Writes the line of a refusal or of an end of a session, and then how many lines were left out before.
    fn tell(&self, line: &Line) {
        let mut all = self.end;
        if offer(&mut all, line) {
            self.tell_left_out();
        } else {
            self.counts.limit().leave_out(1);
        }
    }
}

impl<'c, C, N: Copy> Copy for LineLog<'c, C, N> {}

impl<'c, C, N: Copy> Clone for LineLog<'c, C, N> {
    ghost use Rattle.std.specs.Prelude.{◌≡◌, ⊤};

    ghost is_clone = { λ x y. y ≡ x };

    ghost is_infallible = { λ _. ⊤ };

    fn clone(&self) -> Result<Self, AllocError> {
        Ok(LineLog {
            counts: self.counts,
            clock: self.clock,
            end: self.end,
            scope: self.scope,
            left_out: self.left_out,
        })
    }
}

fn write_state<W: Write>(line: &mut W, state: Expect) -> io::Result<()>
    ensures { OnOk result (Appends (W.contents line.old) (W.contents line.new) (state_word state)) }
{
    match state {
        Expect::Absent => write!(line, "absent"),
        Expect::Unnumbered => write!(line, "unnumbered"),
        Expect::Sequence(sequence) => write!(line, "{sequence}"),
    }
}

fn write_before<W: Write>(line: &mut W, before: Option<Expect>) -> io::Result<()>
    ensures { OnOk result (Appends (W.contents line.old) (W.contents line.new) (before_word before)) }
{
    match before {
        Some(state) => write_state(line, state),
        None => write!(line, "unknown"),
    }
}

fn word_of(how: How) -> &'static str
    ensures { result.now ≡ how_word how }
{
    match how {
        How::Set => "set",
        How::Appended => "appended",
        How::Removed => "removed",
    }
}

/// Writes of which worker a line tells, and of which of its clients, if it tells of one.
fn write_who<W: Write>(line: &mut W, worker: u64, client: Option<u64>) -> io::Result<()>
    ensures { OnOk result (Appends (W.contents line.old) (W.contents line.new) (who_words worker client)) }
{
    match client {
        Some(client) => write!(line, "worker {worker} client {client} "),
        None => write!(line, "worker {worker} "),
    }
}

fn write_change<W: Write>(
    line: &mut W,
    worker: u64,
    client: u64,
    change: &Changed<'_>,
) -> io::Result<()>
    ensures { OnOk result (Appends (W.contents line.old) (W.contents line.new) (change_line worker client (change_view change.now))) }
{
    let how = word_of(change.how);
    write_who(line, worker, Some(client))?;
    write!(line, "{how} {} ", change.domain)?;
    write_before(line, change.before)?;
    write!(line, " to ")?;
    write_state(line, change.after)?;
    writeln!(line)
}

/// Writes the number of a refusal, and what it tells.
fn write_refusal<W: Write>(line: &mut W, refusal: ChangeRefusal) -> io::Result<()>
    ensures { OnOk result (Appends (W.contents line.old) (W.contents line.new) (refusal_words refusal)) }
{
    match refusal {
        ChangeRefusal::Map(MapRefusal::Stale(sequence)) => write!(line, "31 {sequence}"),
        ChangeRefusal::Map(MapRefusal::NotExpected(found)) => {
            write!(line, "36 ")?;
            write_state(line, found)
        }
        ChangeRefusal::Map(other) => write!(line, "{}", other.number()),
        ChangeRefusal::ReadOnly => write!(line, "56"),
    }
}

fn write_refused<W: Write>(
    line: &mut W,
    worker: u64,
    client: u64,
    refused: &RefusedChange<'_>,
) -> io::Result<()>
    ensures { OnOk result (Appends (W.contents line.old) (W.contents line.new) (refusal_line worker client refused.now.domain.now refused.now.refusal)) }
{
    write_who(line, worker, Some(client))?;
    write!(line, "refused {} ", refused.domain)?;
    write_refusal(line, refused.refusal)?;
    writeln!(line)
}

fn write_end_words<W: Write>(line: &mut W, end: &Result<u64, SessionFault>) -> io::Result<()>
    ensures { OnOk result (Appends (W.contents line.old) (W.contents line.new) (end_words end.now)) }
{
    match end {
        Ok(count) => write!(line, "session ended after {count} replies"),
        Err(fault) => write!(line, "session fault {}", fault.number()),
    }
}

/// Writes the port of a client, if it has one, and ends the line.
fn write_peer<W: Write>(line: &mut W, peer: Option<u16>) -> io::Result<()>
    ensures { OnOk result (Appends (W.contents line.old) (W.contents line.new) (peer_words peer)) }
{
    match peer {
        Some(port) => writeln!(line, " from {port}"),
        None => writeln!(line),
    }
}

/// The number of a client and its port, if one came.
fn parts_of(client: Option<Client>) -> (Option<u64>, Option<u16>)
    ensures number { result.0 ≡ option_map (λ c. c.number) client }
    ensures peer { result.1 ≡ option_and_then (λ c. c.peer) client }
{
    match client {
        Some(client) => (Some(client.number), client.peer),
        None => (None, None),
    }
}

fn write_end<W: Write>(
    line: &mut W,
    worker: u64,
    end: &Result<u64, SessionFault>,
    client: Option<Client>,
) -> io::Result<()>
    ensures { OnOk result (Appends (W.contents line.old) (W.contents line.new) (end_line worker end.now client)) }
{
    let (number, peer) = parts_of(client);
    write_who(line, worker, number)?;
    write_end_words(line, end)?;
    write_peer(line, peer)
}

/// The line of a change, if it has room.
fn text_of_change(worker: u64, client: u64, change: &Changed<'_>) -> Option<Line>
    ensures { IfSome result (λ line. line.items ≡ change_line worker client (change_view change.now)) }
{
    let mut line = Line::new();
    match write_change(&mut line, worker, client, change) {
        Ok(()) => Some(line),
        Err(_) => None,
    }
}

/// The line of a refusal, if it has room.
fn text_of_refused(worker: u64, client: u64, refused: &RefusedChange<'_>) -> Option<Line>
    ensures { IfSome result (λ line. line.items ≡ refusal_line worker client refused.now.domain.now refused.now.refusal) }
{
    let mut line = Line::new();
    match write_refused(&mut line, worker, client, refused) {
        Ok(()) => Some(line),
        Err(_) => None,
    }
}

/// The line of an end of a session, if it has room.
fn text_of_end(worker: u64, end: &Result<u64, SessionFault>, client: Option<Client>) -> Option<Line>
    ensures { IfSome result (λ line. line.items ≡ end_line worker end.now client) }
{
    let mut line = Line::new();
    match write_end(&mut line, worker, end, client) {
        Ok(()) => Some(line),
        Err(_) => None,
    }
}

fn write_turned_away<W: Write>(line: &mut W, worker: u64, client: u64, count: u64) -> io::Result<()>
    ensures { OnOk result (Appends (W.contents line.old) (W.contents line.new) (turned_away_line worker client count)) }
{
    write_who(line, worker, Some(client))?;
    write!(line, "refused {count} changes 56")?;
    writeln!(line)
}

/// The line of changes that were turned away, if it has room.
fn text_of_turned_away(worker: u64, client: u64, count: u64) -> Option<Line>
    ensures { IfSome result (λ line. line.items ≡ turned_away_line worker client count) }
{
    let mut line = Line::new();
    match write_turned_away(&mut line, worker, client, count) {
        Ok(()) => Some(line),
        Err(_) => None,
    }
}

/// Writes a line, in one write. Answers whether all of it was taken.
fn offer<N: Write>(end: &mut N, line: &Line) -> bool
    ensures whole { OnTrue result (Appends (N.contents end.old) (N.contents end.new) line.now.items) }
    ensures front { WritesFront (N.contents end.old) (N.contents end.new) line.now.items }
{
    match end.write(line.as_slice()) {
        Ok(count) => count == line.len(),
        Err(_) => false,
    }
}

/// Writes how many lines were left out, in one write. Answers whether all of it was taken.
fn offer_left_out<N: Write>(end: &mut N, count: u64) -> bool {
    let mut line = Line::new();
    match writeln!(line, "log {count} lines left out") {
        Ok(()) => offer(end, &line),
        Err(_) => false,
    }
}

/// Writes the line of a change, in one write. Answers whether all of it was taken.
fn offer_change<N: Write>(end: &mut N, worker: u64, client: u64, change: &Changed<'_>) -> bool
    ensures whole { OnTrue result (Appends (N.contents end.old) (N.contents end.new) (change_line worker client (change_view change.now))) }
    ensures front { WritesFront (N.contents end.old) (N.contents end.new) (change_line worker client (change_view change.now)) }
{
    match text_of_change(worker, client, change) {
        Some(line) => offer(end, &line),
        None => false,
    }
}

impl<C: Clock, N: Write + Copy + Drop> Log for LineLog<'_, C, N> {
    ghost use Rattle.server.specs.Log.{TellsChange};
    ghost use Rattle.command_line.specs.Serving.{has_changes};

    ghost wants = { λ log. has_changes log.scope };

    ghost tells = { λ old worker change new. TellsChange N.contents worker change old new };

    fn is_on(&self) -> bool {
        self.scope.has_changes()
    }

    fn changed(&mut self, worker: u64, change: &Changed<'_>) {
        let client = self.counts.numbering().served_by(worker);
        if offer_change(&mut self.end, worker, client, change) {
            self.tell_left_out();
        } else {
            self.left_out = self.left_out.saturating_add(1);
            self.counts.limit().leave_out(1);
        }
    }

    fn began(&self, worker: u64) -> u64 {
        self.counts.add(worker, Count::ConnectionsOpen, 1);
        self.counts.add(worker, Count::ConnectionsOpened, 1);
        self.counts.numbering().next()
    }

    fn serves(&self, worker: u64, client: Client) {
        self.counts.numbering().serve(worker, client.number);
    }

    fn ended(&self, worker: u64, end: &Result<u64, SessionFault>, client: Option<Client>) {
        // No session ends if none came.
        if !matches!(end, Err(SessionFault::Listen)) {
            self.counts.take_one(worker, Count::ConnectionsOpen);
        }
        if self.scope != LogScope::All || !self.admits() {
            return;
        }
        if let Some(line) = text_of_end(worker, end, client) {
            self.tell(&line);
        }
    }

    fn refused(&self, worker: u64, refused: &RefusedChange<'_>) {
        if !self.scope.has_changes() || !self.admits() {
            return;
        }
        let client = self.counts.numbering().served_by(worker);
        if let Some(line) = text_of_refused(worker, client, refused) {
            self.tell(&line);
        }
    }

    fn turned_away(&self, worker: u64, count: u64) {
        if !self.scope.has_changes() || !self.admits() {
            return;
        }
        let client = self.counts.numbering().served_by(worker);
        if let Some(line) = text_of_turned_away(worker, client, count) {
            self.tell(&line);
        }
    }

    fn read(&self, worker: u64, bytes: usize) {
        self.counts.add(worker, Count::BytesRead, bytes as u64);
    }

    fn written(&self, worker: u64, bytes: usize) {
        self.counts.add(worker, Count::BytesWritten, bytes as u64);
    }

    fn answered(&self, worker: u64, letter: u8, code: u8) {
        self.counts.add(worker, Count::Requests(letter), 1);
        self.counts.add(worker, Count::of_reply(letter, code), 1);
    }

    fn asked_again(&self, worker: u64, times: u64) {
        self.counts.add(worker, Count::AskedAgain, times);
    }

    fn tallied(&self, worker: u64, tally: Tally) {
        self.counts.tallied(worker, tally);
    }

    fn counts(&self, alloc: Global) -> Result<Vec<u8>, Memory> {
        self.counts.line(alloc, self.clock)
    }
}

impl<C: Clock, N: Write + Copy + Drop> ServerLog for LineLog<'_, C, N> {
    fn ends_after(&self, clients: u64) {
        let mut line = Line::new();
        let all = if clients == 1 { "client" } else { "clients" };
        let text = writeln!(
            line,
            "serving {clients} {all}, then it ends; --connections unlimited stays"
        );
        if text.is_ok() {
            self.notify(&line);
        }
    }

    fn takes_no_more(&self, open: u64) {
        let second = self.counts.seconds(self.clock);
        if !self.counts.limit().admits_alarm(second) {
            return;
        }
        let mut line = Line::new();
        let text = writeln!(
            line,
            "no more connections: the limit of open files (ulimit -n) is reached; {open} are open"
        );
        if text.is_ok() {
            self.notify(&line);
        }
    }
}
