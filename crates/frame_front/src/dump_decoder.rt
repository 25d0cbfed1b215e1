//! Taking the domains out of a dump that comes in pieces.
ghost use Rattle.std.specs.Prelude.{◌≡◌, ◌+◌, ◌<◌, ◌≤◌, ◌^◌, ◌∷◌, ◌++◌, ℕ, List, [], length, None, IfOk, IfErr, IfSome, IfNone, OnOk, OnErr};
ghost use Rattle.frame_front.specs.Dump.{Domains, IsDump, HaveValidBundles, FaultOfDump};
ghost use Rattle.frame_front.specs.DumpDecoder.{HasTaken, IsDrained, kept_by};
ghost use Rattle.frame_front.specs.Private.DumpReading.{HasNoCount, IsFrontCount, IsFrontItem};
ghost use Rattle.frame_front.specs.declared.dump_decoder.Stage.TheVariants.{Items};

use crate::dump::{DumpError, read_count};
use spiffe_doc::{Bundle, Memory, TrustDomain};
use std::alloc::{AllocError, Global};
use wire::{Decoder, is_after, read_item};

/// How far a dump is read.
#[derive(Clone, Copy)]
enum Stage {
    /// Its first frame, which tells the number of domains, has not come.
    Head,
    /// It is to have so many domains.
    Items(u64),
    /// This frame, from 0, is wrong or too much.
    Spoilt(u64),
}

/// Takes the domains out of a dump that comes in pieces. It keeps the bytes that were fed and of which no whole frame has
/// come, and the name of the last domain: so never more than a frame and a piece, whatever the length of the dump.
#[derive(Drop)]
pub struct DumpDecoder {
    frames: Decoder,
    stage: Stage,
    /// How many domains were taken out.
    place: u64,
    /// The name of the last of them.
    last: Option<TrustDomain>,
    alloc: Global,
}

/// What stands first.
#[derive(Drop)]
enum Front<T> {
    /// A frame that tells this, with a payload of so many bytes.
    Whole(T, usize),
    /// No whole frame.
    Unfinished,
    /// No frame that tells such a thing, whatever comes.
    Wrong,
}

/// The number of domains, if the frame that stands first tells it.
fn front_count(frames: &Decoder) -> Front<u64>
    ensures { IsFrontCount result frames.now }
{
    match frames.payload() {
        Ok(Some(payload)) => match read_count(payload) {
            Some(count) => Front::Whole(count, payload.len()),
            None => Front::Wrong,
        },
        Ok(None) => Front::Unfinished,
        Err(_) => Front::Wrong,
    }
}

/// The domain that stands first, if its name comes after the last one.
fn front_item(
    alloc: Global,
    frames: &Decoder,
    last: &Option<TrustDomain>,
) -> Result<Front<(TrustDomain, Bundle)>, AllocError>
    ensures { IfOk result (λ front. IsFrontItem last.now front frames.now) }
{
    let payload = match frames.payload() {
        Ok(Some(payload)) => payload,
        Ok(None) => return Ok(Front::Unfinished),
        Err(_) => return Ok(Front::Wrong),
    };
    let (domain, bundle) = match read_item(alloc, payload) {
        Ok(Some(item)) => item,
        Ok(None) => return Ok(Front::Wrong),
        Err(_) => return Err(AllocError),
    };
    if !is_after(last, &domain) {
        return Ok(Front::Wrong);
    }
    let _authorities = bundle.authorities();
    Ok(Front::Whole((domain, bundle), payload.len()))
}

impl DumpDecoder {
    /// Nothing has come.
    pub fn new(alloc: Global) -> Result<DumpDecoder, Memory>
        ensures none { IfOk result (λ made. HasTaken made [] []) }
        ensures drained { IfOk result (λ made. IsDrained made) }
    {
        let frames = Decoder::new(alloc)?;
        Ok(DumpDecoder {
            frames,
            stage: Stage::Head,
            place: 0,
            last: None,
            alloc,
        })
    }

    /// Takes the next piece of the dump. Without memory nothing of it is kept.
    pub fn feed(&mut self, piece: &[u8]) -> Result<(), Memory>
        ensures ok { OnOk result ((came : List ℕ) (items : Domains) → HasTaken self.old came items → length came + length piece.now < 2 ^ 64
            → HasTaken self.new (came ++ piece.now) items) }
        ensures err { OnErr result (self.new ≡ self.old) }
    {
        match self.stage {
            Stage::Spoilt(_) => Ok(()),
            _ => self.frames.feed(piece),
        }
    }

    /// The next domain of the dump, if its whole frame has come, and nothing before it was wrong. Without memory none is taken
    /// out.
    pub fn next_domain(&mut self) -> Result<Option<(TrustDomain, Bundle)>, Memory>
        ensures found { IfOk result (λ next. IfSome next (λ item. (came : List ℕ) (items : Domains) → HasTaken self.old came items
            → HasTaken self.new came (items ++ item ∷ []))) }
        ensures fewer { IfOk result (λ next. IfSome next (λ item. kept_by self.new < kept_by self.old)) }
        ensures none { IfOk result (λ next. IfNone next ((came : List ℕ) (items : Domains) → HasTaken self.old came items → HasTaken self.new came items)) }
        ensures drained { IfOk result (λ next. IfNone next (IsDrained self.new)) }
        ensures err { OnErr result ((came : List ℕ) (items : Domains) → HasTaken self.old came items → HasTaken self.new came items) }
    {
        self.take_count();
        match self.stage {
            Stage::Items(count) => self.take_item(count),
            _ => Ok(None),
        }
    }

    /// Takes out the number of domains, once it has come.
    fn take_count(&mut self)
        ensures taken { (came : List ℕ) (items : Domains) → HasTaken self.old came items → HasTaken self.new came items }
        ensures kept { kept_by self.new ≤ kept_by self.old }
        ensures none { HasNoCount self.new.stage self.new.frames }
    {
        let Stage::Head = self.stage else {
            return;
        };
        match front_count(&self.frames) {
            Front::Whole(count, size) => {
                self.frames.pass(size);
                self.stage = Stage::Items(count);
            }
            Front::Unfinished => {}
            Front::Wrong => self.stage = Stage::Spoilt(0),
        }
    }

    /// Takes out the next domain, if a frame has come.
    fn take_item(&mut self, count: u64) -> Result<Option<(TrustDomain, Bundle)>, Memory>
        requires { self.old.stage ≡ Items count }
        ensures found { IfOk result (λ next. IfSome next (λ item. (came : List ℕ) (items : Domains) → HasTaken self.old came items
            → HasTaken self.new came (items ++ item ∷ []))) }
        ensures fewer { IfOk result (λ next. IfSome next (λ item. kept_by self.new < kept_by self.old)) }
        ensures none { IfOk result (λ next. IfNone next ((came : List ℕ) (items : Domains) → HasTaken self.old came items → HasTaken self.new came items)) }
        ensures drained { IfOk result (λ next. IfNone next (IsDrained self.new)) }
        ensures err { OnErr result (self.new ≡ self.old) }
    {
        if self.place == count {
            if self.frames.len() > 0 {
                self.stage = Stage::Spoilt(count.saturating_add(1));
            }
            return Ok(None);
        }
        let front = front_item(self.alloc, &self.frames, &self.last)?;
        match front {
            Front::Whole(item, size) => {
                let last = item.0.copy()?;
                self.frames.pass(size);
                self.last = Some(last);
                self.place = self.place.saturating_add(1);
                Ok(Some(item))
            }
            Front::Unfinished => Ok(None),
            Front::Wrong => {
                self.stage = Stage::Spoilt(self.place.saturating_add(1));
                Ok(None)
            }
        }
    }

    /// Whether what came is a dump, to be asked at its end, when `next_domain` has nothing more to give.
    pub fn finish(&self) -> Result<(), DumpError>
        ensures whole { OnOk result ((came : List ℕ) (items : Domains) → HasTaken self.now came items → IsDump came items × HaveValidBundles items) }
        ensures bad { IfErr result (λ fault. (came : List ℕ) (items : Domains) → HasTaken self.now came items → IsDrained self.now → FaultOfDump fault came) }
    {
        match self.stage {
            Stage::Head => Err(DumpError::BadDump(0)),
            Stage::Items(count) => self.finish_items(count),
            Stage::Spoilt(place) => Err(DumpError::BadDump(place)),
        }
    }

    /// Whether all domains came, and nothing else.
    fn finish_items(&self, count: u64) -> Result<(), DumpError>
        requires { self.now.stage ≡ Items count }
        ensures whole { OnOk result ((came : List ℕ) (items : Domains) → HasTaken self.now came items → IsDump came items × HaveValidBundles items) }
        ensures bad { IfErr result (λ fault. (came : List ℕ) (items : Domains) → HasTaken self.now came items → IsDrained self.now → FaultOfDump fault came) }
    {
        if self.place != count {
            return Err(DumpError::BadDump(self.place.saturating_add(1)));
        }
        if self.frames.len() > 0 {
            return Err(DumpError::BadDump(self.place.saturating_add(1)));
        }
        Ok(())
    }
}
