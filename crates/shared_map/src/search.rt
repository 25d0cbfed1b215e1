//! The place of a name among names in order.
ghost use Rattle.std.specs.Prelude.{◌≡◌, ◌≢◌, ◌+◌, ◌<◌, [], IsTrue, MatchOption};
ghost use Rattle.shared_map.specs.Places.{IsReached, IsTaken};
ghost use Rattle.shared_map.specs.Seats.{IsSeat};

use spiffe_doc::TrustDomain;

/// The place of a name among names in order.
#[derive(Clone, Copy)]
pub(crate) enum Seat {
    /// The name stands there.
    Taken(usize),
    /// The name would stand there.
    Free(usize),
}

/// The place of the name, which may be that of the guess. Most searches find the name, and whether two names are equal
/// costs less than their order.
pub(crate) fn seat_of<X>(slots: &[(TrustDomain, X)], name: &TrustDomain, guess: usize) -> Seat
    ensures { IsSeat name.now slots.now result }
{
    if is_at(slots, name, guess) {
        return Seat::Taken(guess);
    }
    let Some(place) = reach(slots, name, guess) else {
        return Seat::Free(0);
    };
    if *name == slots[place].0 {
        return Seat::Taken(place);
    }
    if name.cmp(&slots[place].0).is_lt() {
        Seat::Free(place)
    } else {
        Seat::Free(place + 1)
    }
}

/// Whether the name stands at a place.
fn is_at<X>(slots: &[(TrustDomain, X)], name: &TrustDomain, place: usize) -> bool
    ensures { IsTrue result → IsTaken name.now slots.now place }
{
    place < slots.len() && *name == slots[place].0
}

/// The last place whose name is not after the given one, or the first place: the guess, if that is right. None if there is
/// no place.
pub(crate) fn reach<X>(
    slots: &[(TrustDomain, X)],
    name: &TrustDomain,
    guess: usize,
) -> Option<usize>
    ensures { MatchOption result (slots.now ≡ []) (IsReached name.now slots.now) }
{
    if slots.is_empty() {
        return None;
    }
    Some(last_from(slots, name, guess))
}

fn last_from<X>(slots: &[(TrustDomain, X)], name: &TrustDomain, guess: usize) -> usize
    requires { slots.now ≢ [] }
    ensures { IsReached name.now slots.now result }
{
    let mut low = 0;
    let mut high = slots.len();
    while high - low > 1 {
        let middle = between(low, high, guess);
        if name.cmp(&slots[middle].0).is_lt() {
            high = middle;
        } else {
            low = middle;
        }
    }
    low
}

/// A place between two, at a guess or behind it if that is one.
fn between(low: usize, high: usize, guess: usize) -> usize
    requires { low + 1 < high }
    ensures { (low < result) × (result < high) }
{
    if low < guess && guess < high {
        return guess;
    }
    let behind = guess.saturating_add(1);
    if low < behind && behind < high {
        return behind;
    }
    low + (high - low) / 2
}
