//! Where a search in a page begins.
use crate::page::MOST;
use spiffe_doc::TrustDomain;

/// How many names of a page have a hint: all but those of the top of the largest maps.
const HINTED: usize = MOST + 1;

/// Four bytes of each name of a page, from the first place on in which two of them differ. They lie in the page itself,
/// and the names beside it: so a search looks at them first, and then at two names only. Nothing rests on them but how
/// long that takes.
#[derive(Clone, Copy)]
pub(crate) struct Hints {
    /// How many bytes all names begin with.
    skip: usize,
    /// A place without a name has the greatest word.
    words: [u32; HINTED],
}

impl Hints {
    /// Those of no names.
    pub(crate) fn new() -> Hints {
        Hints {
            skip: 0,
            words: [u32::MAX; HINTED],
        }
    }

    /// Those of names in order.
    pub(crate) fn of<X>(slots: &[(TrustDomain, X)]) -> Hints {
        let skip = shared_len(slots);
        let mut words = [u32::MAX; HINTED];
        for (word, slot) in words.iter_mut().zip(slots) {
            *word = word_at(&slot.0, skip);
        }
        Hints { skip, words }
    }

    /// Those of these names, of which the one at a place is new since.
    pub(crate) fn take_in<X>(&mut self, slots: &[(TrustDomain, X)], place: usize) {
        // A name between two others begins as they do.
        let is_between = place > 0 && place < slots.len().saturating_sub(1);
        if place >= HINTED || (!is_between && shared_len(slots) != self.skip) {
            *self = Hints::of(slots);
            return;
        }
        self.words.copy_within(place..HINTED - 1, place + 1);
        if let Some(slot) = slots.get(place) {
            self.words[place] = word_at(&slot.0, self.skip);
        }
    }

    /// Those of the names that are left when the one at a place has gone.
    pub(crate) fn take_out(&mut self, place: usize) {
        if place < HINTED {
            self.words.copy_within(place + 1..HINTED, place);
            self.words[HINTED - 1] = u32::MAX;
        }
    }

    /// The place where the last name that is not after this one may well be. It counts through all words, with no branch
    /// at each.
    pub(crate) fn guess(&self, name: &TrustDomain) -> usize {
        let word = word_at(name, self.skip);
        let mut before: u32 = 0;
        for other in &self.words {
            before = before.wrapping_add(u32::from(*other <= word));
        }
        before.saturating_sub(1) as usize
    }
}

/// How many bytes the first and the last name begin with, and so all between.
fn shared_len<X>(slots: &[(TrustDomain, X)]) -> usize {
    let (Some(first), Some(last)) = (slots.first(), slots.last()) else {
        return 0;
    };
    let mut pairs = first.0.as_str().bytes().zip(last.0.as_str().bytes());
    pairs.position(|(a, b)| a != b).unwrap_or(0)
}

/// Four bytes of a name from a place on, as a number; 0 stands for each that there is not.
fn word_at(name: &TrustDomain, place: usize) -> u32 {
    let bytes = name.as_str().as_bytes();
    let rest = bytes.get(place..).unwrap_or(&[]);
    if let Some(word) = rest.first_chunk::<4>() {
        return u32::from_be_bytes(*word);
    }
    let mut word = [0; 4];
    for (to, from) in word.iter_mut().zip(rest) {
        *to = *from;
    }
    u32::from_be_bytes(word)
}
