//! Serving many connections beside each other.
ghost use Rattle.std.specs.Prelude.{if◌then◌else◌, ◌≡◌, ◌≢◌, ◌≤◌, ◌++◌, ℕ, [], ◌∷◌, Bool, true, false, Option, None, Some, Err, IfOk, OnOk, IfSome, IfNone, IsSome};
ghost use Rattle.std.specs.List.{AllByRecursion};
ghost use Rattle.slab.specs.Slab.{get};
ghost use Rattle.workers.specs.Ended.{kept_of, Notes};
ghost use Rattle.workers.specs.Connection.{Owes, Turn, age_after, opened, silent_after, told, turn_rounds};
ghost use Rattle.workers.specs.AtPort.{PortAnswer};
ghost use Rattle.workers.specs.Arrivals.{Brings, HasTicked, IsStop, IsToStop, news_in};
ghost use Rattle.workers.specs.Places.{Place, AllTick, Fails, Follows, HasNoReplies, HoldsNone, HoldsReply, IsHeard, IsLast, IsOldest, IsYoungest, Judges, OthersStay, ServedAll, ServesFirst, TriesWrite, closing_of, front_end, ticked, told_by, without};
ghost use Rattle.workers.specs.Private.Serving.{AreOpen, Asks, IsTurn, IsYounger, Serves, work_of};

use crate::arrivals::{Arrival, Arrivals};
use crate::at_port::{AtPort, BehindPort};
use crate::limits::Patience;
use crate::metered::Metered;
use crate::worker::Worker;
use crate::{Client, Connection, Log, ROOM_BYTES, SessionEnds, SessionFault, Stream, TurnEnd};
use slab::Slab;
use spiffe_doc::DocumentReader;
use std::alloc::{AllocError, Global};
use std::collections::VecDeque;
use std::marker::Model;
use wire::FrontError;

/// A connection at its place.
#[derive(Drop)]
struct OpenConnection<E: Stream + Drop> {
    connection: Connection<E>,
    reads_only: bool,
    /// How many ticks have passed since its client got on last.
    silent: u64,
    /// How many ticks have passed since a frame of it was answered last.
    age: u64,
    /// Its client, as the log knows it.
    client: Client,
}

/// The connections of a worker, and what they share.
#[derive(Drop)]
struct Served<E: Stream + Drop> {
    open: Slab<OpenConnection<E>>,
    /// The places of connections that wait for a turn, in this order: those that are new, and those that have had their share
    /// of one and may have more to do. Each stands there once.
    waiting: VecDeque<usize>,
    documents: DocumentReader,
    /// What is read goes there first.
    room: [u8; ROOM_BYTES],
    ends: SessionEnds,
}

impl<E: Stream + Drop> Model for OpenConnection<E> {
    ghost use Rattle.workers.specs.Places.{Place};

    ghost Value = { Place };

    ghost view = { λ p. record { connection = p.connection; reads_only = p.reads_only; silent = p.silent; age = p.age } };
}

impl<E: Stream + Drop> OpenConnection<E> {
    /// Gives the connection a turn. Its client is silent no more if it got on: if it took some bytes of the replies that waited
    /// for it, or else, if a frame of it was answered or it had begun none. So it does not help a client that takes no replies to
    /// send a byte now and then, nor one that sends a frame. If a frame was answered, the last reply is new.
    fn turn<A: BehindPort>(
        &mut self,
        documents: &mut DocumentReader,
        room: &mut [u8; ROOM_BYTES],
        ask: &mut AtPort<A>,
        is_closing: bool,
    ) -> TurnEnd
        ensures turn { Turn turn_rounds (PortAnswer A.answers self.old.reads_only) result (told is_closing self.old.connection) self.new.connection ask.old.ask ask.new.ask }
        ensures reads_only { self.new.reads_only ≡ self.old.reads_only }
        ensures silent { self.new.silent ≡ silent_after self.old.connection self.new.connection self.old.silent }
        ensures age { self.new.age ≡ age_after self.old.connection self.new.connection self.old.age }
    {
        ask.reads_only = self.reads_only;
        let connection = &mut self.connection;
        let (had_replies, had_begun) = (connection.has_replies(), connection.has_begun());
        let (answered, written) = (connection.answered(), connection.written());
        let turned_away = connection.turned_away();
        let after = connection.turn(documents, room, ask, is_closing);
        ask.tell_turned_away(turned_away, connection.turned_away());
        let has_answered = connection.answered() != answered;
        let has_got_on = if had_replies {
            connection.written() != written
        } else {
            !had_begun || has_answered
        };
        self.silent = ticks_after(has_got_on, self.silent);
        self.age = ticks_after(has_answered, self.age);
        after
    }
}

/// A count of ticks after a turn: it begins anew, or is as it was.
fn ticks_after(begins_anew: bool, ticks: u64) -> u64
    ensures { result ≡ if begins_anew then 0 else ticks }
{
    if begins_anew { 0 } else { ticks }
}

/// The connection at a place waits for no turn any more.
fn wait_no_more(waiting: &mut VecDeque<usize>, place: usize)
    ensures { waiting.new.items ≡ without place waiting.old.items }
{
    waiting.retain(|other| *other != place);
}

impl<E: Stream + Drop> Served<E> {
    /// No client is connected yet.
    fn new(alloc: Global) -> Served<E>
        ensures open { result.open.slots ≡ [] }
        ensures waiting { result.waiting.items ≡ [] }
        ensures ends { result.ends ≡ kept_of [] }
    {
        Served {
            open: Slab::new(alloc),
            waiting: VecDeque::new(alloc),
            documents: DocumentReader::new(alloc),
            room: [0; ROOM_BYTES],
            ends: SessionEnds::new(alloc),
        }
    }

    /// Takes a client at the next free place. It waits for its first turn.
    fn take<L: Log>(
        &mut self,
        end: E,
        reads_only: bool,
        worker: &Worker<'_, L>,
    ) -> Result<(), AllocError>
        ensures free { OnOk result (get self.old.open self.old.open.vacant_key ≡ None) }
        ensures taken { OnOk result (get self.new.open self.old.open.vacant_key ≡ Some (record { connection = opened reads_only worker.now.limits.turns (E.may end) (E.left end) (E.held end); reads_only = reads_only; silent = 0; age = 0 })) }
        ensures others { OnOk result (OthersStay self.old.open.vacant_key (get self.old.open) (get self.new.open)) }
        ensures waits { OnOk result (self.new.waiting.items ≡ self.old.waiting.items ++ self.old.open.vacant_key ∷ []) }
        ensures ends { self.new.ends ≡ self.old.ends }
    {
        let client = Client {
            number: worker.log.began(worker.number),
            peer: end.peer(),
        };
        let placed = OpenConnection {
            connection: Connection::new(worker.alloc, end, reads_only, worker.limits.turns)?,
            reads_only,
            silent: 0,
            age: 0,
            client,
        };
        let place = self.open.insert(placed)?;
        self.waiting.push_back(place)?;
        Ok(())
    }

    /// Takes the connection at a place out, if one is there. It waits for no turn any more.
    fn remove(&mut self, place: usize)
        ensures left { get self.new.open place ≡ None }
        ensures others { OthersStay place (get self.old.open) (get self.new.open) }
        ensures waits { self.new.waiting.items ≡ without place self.old.waiting.items }
        ensures ends { self.new.ends ≡ self.old.ends }
    {
        drop(self.open.try_remove(place));
        wait_no_more(&mut self.waiting, place);
    }

    /// The client at a place, if one is there.
    fn client(&self, place: usize) -> Option<Client> {
        Some(self.open.get(place)?.client)
    }

    /// Leaves the connection at a place, and notes how its session ended.
    fn close<L: Log>(
        &mut self,
        place: usize,
        end: Result<u64, FrontError>,
        worker: &Worker<'_, L>,
    ) -> Result<(), AllocError>
        ensures left { get self.new.open place ≡ None }
        ensures others { OthersStay place (get self.old.open) (get self.new.open) }
        ensures waits { self.new.waiting.items ≡ without place self.old.waiting.items }
        ensures noted { OnOk result (Notes (front_end end ∷ []) self.old.ends self.new.ends) }
    {
        let ended = match end {
            Ok(count) => Ok(count),
            Err(error) => Err(SessionFault::Front(error)),
        };
        let client = self.client(place);
        worker.log.ended(worker.number, &ended, client);
        self.remove(place);
        self.ends.note(&ended)?;
        Ok(())
    }

    /// Gives the connection at a place a turn, if one is there. If it has more to do then, it waits behind the others; if its
    /// session is over, it is left.
    fn serve<A: BehindPort, L: Log>(
        &mut self,
        place: usize,
        is_closing: bool,
        ask: &mut AtPort<A>,
        worker: &Worker<'_, L>,
    ) -> Result<(), AllocError>
        ensures { OnOk result ((ready : Option Bool) → closing_of ready ≡ is_closing → Serves A.answers worker.now.limits (IsTurn place ready (get self.old.open place)) (work_of self.old) (work_of self.new) ask.old.ask ask.new.ask) }
    {
        let Some(placed) = self.open.get_mut(place) else {
            return Ok(());
        };
        worker.log.serves(worker.number, placed.client);
        let after = placed.turn(&mut self.documents, &mut self.room, ask, is_closing);
        wait_no_more(&mut self.waiting, place);
        match after {
            TurnEnd::Waits => Ok(()),
            TurnEnd::Again => Ok(self.waiting.push_back(place)?),
            TurnEnd::Over(end) => self.close(place, end, worker),
        }
    }

    /// A tick has passed at a place. The memory of its connection that no byte needs is given back.
    fn tick_at(&mut self, place: usize)
        ensures ticked { get self.new.open place ≡ ticked (get self.old.open place) }
        ensures others { OthersStay place (get self.old.open) (get self.new.open) }
        ensures waiting { self.new.waiting ≡ self.old.waiting }
        ensures ends { self.new.ends ≡ self.old.ends }
    {
        if let Some(placed) = self.open.get_mut(place) {
            placed.connection.rest();
            placed.silent = placed.silent.saturating_add(1);
            placed.age = placed.age.saturating_add(1);
        }
    }

    /// A tick has passed. The answer is below which place all connections stand.
    fn tick(&mut self) -> usize
        ensures ticked { AllTick (get self.old.open) (get self.new.open) }
        ensures beyond { (place : ℕ) → result ≤ place → get self.old.open place ≡ None }
        ensures waiting { self.new.waiting ≡ self.old.waiting }
        ensures ends { self.new.ends ≡ self.old.ends }
    {
        let places = self.open.capacity();
        let mut place = 0;
        while place < places {
            self.tick_at(place);
            place += 1;
        }
        places
    }

    /// Whether replies wait at a place.
    fn has_replies(&self, place: usize) -> bool
        ensures some { result ≡ true → IsSome (get self.now.open place) }
        ensures none { result ≡ false → HasNoReplies (get self.now.open place) }
    {
        match self.open.get(place) {
            Some(placed) => placed.connection.has_replies(),
            None => false,
        }
    }

    /// Tries a write at a place, if replies wait there: the connection has a turn. That its stream takes bytes again is told only
    /// once it takes many.
    fn try_write<A: BehindPort, L: Log>(
        &mut self,
        place: usize,
        ask: &mut AtPort<A>,
        worker: &Worker<'_, L>,
    ) -> Result<(), AllocError>
        ensures { OnOk result (Serves A.answers worker.now.limits (TriesWrite place) (work_of self.old) (work_of self.new) ask.old.ask ask.new.ask) }
    {
        if self.has_replies(place) {
            self.serve(place, false, ask, worker)
        } else {
            Ok(())
        }
    }

    /// Why the client at a place is to be given up for its silence: it owes the rest of a frame, or that it takes replies, and has
    /// been silent for so many ticks.
    fn is_silent(&self, place: usize, most: u64) -> Option<FrontError>
        ensures some { IfSome result (λ error. (p : Place) × (get self.now.open place ≡ Some p) × Owes (Some error) p.connection × (most ≤ p.silent)) }
        ensures none { IfNone result (IsHeard most (get self.now.open place)) }
    {
        let placed = self.open.get(place)?;
        let owed = placed.connection.owes()?;
        if placed.silent < most {
            return None;
        }
        Some(owed)
    }

    /// How old the reply is that is held at a place, if one is: a part of it is not stored yet.
    fn age_held(&self, place: usize) -> Option<u64>
        ensures some { IfSome result (λ age. HoldsReply age (get self.now.open place)) }
        ensures none { IfNone result (HoldsNone (get self.now.open place)) }
    {
        let placed = self.open.get(place)?;
        if !placed.connection.has_more() {
            return None;
        }
        Some(placed.age)
    }

    /// The age of the youngest reply that is held, of those that are at least so old; or the most, if none is younger than that.
    fn youngest(&self, least: u64, most: u64) -> u64
        ensures { IsYoungest (get self.now.open) least most result }
    {
        let places = self.open.capacity();
        let mut age = most;
        let mut place = 0;
        while place < places {
            age = self.younger(place, least, age);
            place += 1;
        }
        age
    }

    /// The same of one place more, if so far it is `before`.
    fn younger(&self, place: usize, least: u64, before: u64) -> u64
        ensures { IsYounger (get self.now.open place) least before result }
    {
        let Some(age) = self.age_held(place) else {
            return before;
        };
        if age < least {
            return before;
        }
        age.min(before)
    }

    /// From which age on no reply may be held: those of the youngest ages may, of so many as the limits say.
    fn oldest_reply(&self, patience: &Patience) -> u64
        ensures { IsOldest (get self.now.open) patience.now.moments 0 patience.now.reply_ticks result }
    {
        let most = patience.reply_ticks;
        let mut left = patience.moments;
        let mut age = self.youngest(0, most);
        while left > 0 {
            if age >= most {
                return age;
            }
            age = self.youngest(age + 1, most);
            left -= 1;
        }
        age
    }

    /// Leaves the connection at a place if its client has been silent for too long, or holds a reply that is so old.
    fn leave_if_late<L: Log>(
        &mut self,
        place: usize,
        oldest: u64,
        worker: &Worker<'_, L>,
    ) -> Result<(), AllocError>
        ensures { OnOk result (Serves Asks worker.now.limits (Judges oldest place) (work_of self.old) (work_of self.new) tt tt) }
    {
        if let Some(error) = self.is_silent(place, worker.limits.patience.most_silent) {
            return self.close(place, Err(error), worker);
        }
        let Some(age) = self.age_held(place) else {
            return Ok(());
        };
        if age < oldest {
            return Ok(());
        }
        self.close(place, Err(FrontError::WriteFault), worker)
    }

    /// Follows a tick: at each place a write is tried, and the connection is left if its client has been silent for too long, or
    /// holds a reply that is too old.
    fn follow_tick<A: BehindPort, L: Log>(
        &mut self,
        ask: &mut AtPort<A>,
        worker: &Worker<'_, L>,
    ) -> Result<(), AllocError>
        ensures { OnOk result (Serves A.answers worker.now.limits (Follows HasTicked) (work_of self.old) (work_of self.new) ask.old.ask ask.new.ask) }
    {
        let places = self.tick();
        let oldest = self.oldest_reply(&worker.limits.patience);
        let mut place = 0;
        while place < places {
            self.try_write(place, ask, worker)?;
            self.leave_if_late(place, oldest, worker)?;
            place += 1;
        }
        Ok(())
    }

    /// Ends the session at a place, if one is there, with its last turn: nothing is read any more, and what has come is answered,
    /// as far as the client takes it.
    fn end<A: BehindPort, L: Log>(
        &mut self,
        place: usize,
        ask: &mut AtPort<A>,
        worker: &Worker<'_, L>,
    ) -> Result<(), AllocError>
        ensures served { OnOk result (Serves A.answers worker.now.limits (AllByRecursion IsLast) (work_of self.old) (work_of self.new) ask.old.ask ask.new.ask) }
        ensures left { OnOk result (get self.new.open place ≡ None) }
        ensures others { OthersStay place (get self.old.open) (get self.new.open) }
    {
        let Some(placed) = self.open.get_mut(place) else {
            return Ok(());
        };
        worker.log.serves(worker.number, placed.client);
        ask.reads_only = placed.reads_only;
        let connection = &mut placed.connection;
        let turned_away = connection.turned_away();
        let end = connection.last_turn(&mut self.documents, &mut self.room, ask);
        ask.tell_turned_away(turned_away, connection.turned_away());
        self.close(place, end, worker)
    }

    /// Ends all sessions.
    fn end_all<A: BehindPort, L: Log>(
        &mut self,
        ask: &mut AtPort<A>,
        worker: &Worker<'_, L>,
    ) -> Result<(), AllocError>
        ensures served { OnOk result (Serves A.answers worker.now.limits (AllByRecursion IsLast) (work_of self.old) (work_of self.new) ask.old.ask ask.new.ask) }
        ensures left { OnOk result ((place : ℕ) → get self.new.open place ≡ None) }
    {
        let places = self.open.capacity();
        let mut place = 0;
        while place < places {
            self.end(place, ask, worker)?;
            place += 1;
        }
        Ok(())
    }

    /// Notes that the listener failed.
    fn note_failure<L: Log>(&mut self, worker: &Worker<'_, L>) -> Result<(), AllocError>
        ensures open { self.new.open ≡ self.old.open }
        ensures waiting { self.new.waiting ≡ self.old.waiting }
        ensures noted { OnOk result (Notes (told_by Fails) self.old.ends self.new.ends) }
    {
        let none_came = Err(SessionFault::Listen);
        worker.log.ended(worker.number, &none_came, None);
        self.ends.note(&none_came)?;
        Ok(())
    }

    /// Gives a turn to the connection that has waited longest for one.
    fn serve_first<A: BehindPort, L: Log>(
        &mut self,
        ask: &mut AtPort<A>,
        worker: &Worker<'_, L>,
    ) -> Result<(), AllocError>
        ensures { AreOpen (get self.old.open) self.old.waiting.items → OnOk result (Serves A.answers worker.now.limits (ServesFirst self.old.waiting.items) (work_of self.old) (work_of self.new) ask.old.ask ask.new.ask) }
    {
        match self.waiting.front() {
            Some(&place) => self.serve(place, false, ask, worker),
            None => Ok(()),
        }
    }
}

/// Serves connections beside each other until no more come. What comes is followed at once: a connection whose stream is ready
/// has a turn. After each arrival the connection that has waited longest has one: those that are new wait, and those that
/// have had their share and may have more to do. A session may make `limits.turns` reads.
///
/// At each tick a connection whose replies wait has a turn, in which a write is tried. Then a client that owes the rest of a
/// frame, or that it takes replies, is given up if `most_silent` ticks have passed since it got on: since it took a byte
/// of the replies that wait, or if none do, since a frame of it was answered or it began one. And a client is given up a part of
/// whose reply is not stored, and so holds what it is made of, if `reply_ticks` ticks have passed since its frame was
/// answered; or fewer, if younger replies are held of as many ages as `moments` says.
///
/// Once no more come, what was read is answered, as far as the clients take it at once. The answer is what is kept of how the
/// sessions ended, in this order; the log is told of each end.
pub fn serve_arrivals<V: Arrivals, A: BehindPort, L: Log>(
    worker: &Worker<'_, L>,
    arrivals: &mut V,
    ask: &mut AtPort<A>,
) -> Result<SessionEnds, AllocError>
    ensures { IfOk result (λ ends. (served : ServedAll A.answers worker.now.limits.patience worker.now.limits.turns ends ask.old.ask ask.new.ask)
        × Brings (λ reads_only end. opened reads_only worker.now.limits.turns (V.End.may end) (V.End.left end) (V.End.held end)) V.comes (served.news ++ IsToStop ∷ []) arrivals.old arrivals.new) }
{
    let mut served = Served::new(worker.alloc);
    loop {
        let free = served.open.vacant_key();
        let is_busy = !served.waiting.is_empty();
        match arrivals.next(free, served.open.len(), is_busy) {
            Arrival::Opens { end, reads_only } => {
                let metered = Metered::new(end, worker);
                served.take(metered, reads_only, worker)?;
            }
            Arrival::Ready { place, is_closing } => served.serve(place, is_closing, ask, worker)?,
            Arrival::Tick => served.follow_tick(ask, worker)?,
            Arrival::Fails => served.note_failure(worker)?,
            Arrival::Nothing => {}
            Arrival::Stops => break,
        }
        served.serve_first(ask, worker)?;
    }
    served.end_all(ask, worker)?;
    Ok(served.ends)
}
