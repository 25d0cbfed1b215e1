//! Bundle documents (RFC 7517, section 5; SPIFFE Trust Domain and Bundle, section 4).
ghost use Rattle.std.specs.Prelude.{◌≡◌, ◌⊎◌, ◌≤◌, length, codes, Ok, Err, Some, None, option_map, option_and_then, MatchResult, IfOk, OnOk};
ghost use Rattle.serde_json.specs.Find.{get, as_array};
ghost use Rattle.spiffe_doc.specs.Answer.{Gives};
ghost use Rattle.spiffe_doc.specs.Judgement.{judge as judgement};
ghost use Rattle.spiffe_doc.specs.Document.{elements, authorities_of, bundle_of, document, entry};
ghost use Rattle.spiffe_doc.specs.Bundle.{AreAuthorities};
ghost use Rattle.spiffe_doc.specs.Private.EntrySet.{take_in};
ghost use Rattle.spiffe_doc.specs.Private.Fronts.{listed, IsWholeFront};
ghost use Rattle.spiffe_doc.specs.Private.Borrowed.{tree_data, list_data};
ghost use Rattle.spiffe_doc.specs.Private.WholeSet.{IsWhole};

use crate::authority::Authority;
use crate::bundle::{Bundle, MAX_TEXT, bundle_from};
use crate::entry::judge;
use crate::entry_set::EntrySet;
use crate::error::DocError;
use crate::front::Front;
use crate::tree::{array, is_object, member, number_of, read_tree};
use bumpalo::Bump;
use json::{Scratch, Value};
use std::alloc::{Allocator, Global};

/// The longest document whose strings a `DocumentReader` keeps room for.
const KEPT_ROOM: usize = 65536;

/// The most memory for trees that a `DocumentReader` keeps.
const KEPT_TREES: usize = 65536;

/// The most room that a canonical text begins with. That of a canonical document has the document's length.
const MOST_ROOM: usize = 4096;

/// Reads a bundle document, or reports its first fault.
///
/// A document is a JWK set (RFC 7517, section 5) with the members `spiffe_sequence` and `spiffe_refresh_hint` (SPIFFE
/// Trust Domain and Bundle, section 4), of at most 1,048,576 bytes. Entries of unknown `use` or `kty`, or of an unknown
/// curve, are ignored; a known entry that is malformed refuses the document. A later entry that gives an equal authority
/// is dropped. Memory can run out only for a document that is not over that limit.
pub fn read_document(alloc: Global, bytes: &[u8]) -> Result<Bundle, DocError>
    ensures value { Gives DocError.Memory result (document bytes.now) }
    ensures memory { result ≡ Err DocError.Memory → length bytes.now ≤ 1048576 }
{
    DocumentReader::new(alloc).read(alloc, bytes)
}

/// Reads bundle documents one after another, in memory that it keeps from one to the next: about 20 KiB, room for the
/// strings of a document of up to 64 KiB, and up to 64 KiB for its tree. It keeps nothing of what it has read.
///
/// It stays in the thread that made it.
#[derive(Drop)]
pub struct DocumentReader {
    scratch: Scratch,
    /// Where the trees of JSON texts are made, so that no list of them is allocated, grown and freed by itself.
    trees: Bump,
}

impl DocumentReader {
    /// A reader. It takes memory when it reads.
    pub fn new(alloc: Global) -> DocumentReader {
        DocumentReader {
            scratch: Scratch::new(alloc),
            trees: Bump::new(alloc),
        }
    }

    /// Reads a bundle document as `read_document` does, whatever was read before.
    pub fn read(&mut self, alloc: Global, bytes: &[u8]) -> Result<Bundle, DocError>
        ensures value { Gives DocError.Memory result (document bytes.now) }
        ensures memory { result ≡ Err DocError.Memory → length bytes.now ≤ 1048576 }
    {
        if bytes.len() > KEPT_ROOM {
            return read_long(alloc, bytes);
        }
        let bundle = read_with(alloc, &self.trees, bytes, &mut self.scratch);
        self.clear_trees(alloc);
        bundle
    }

    /// Gives the memory of trees up for the next one, and back if it is much.
    fn clear_trees(&mut self, alloc: Global) {
        if self.trees.allocated_bytes() > KEPT_TREES || self.trees.reset().is_err() {
            self.trees = Bump::new(alloc);
        }
    }
}

/// Reads a document that is too long for what a reader keeps. It is never a part of its caller: then its scratch, 16 KiB on
/// the stack, is cleared for short documents too.
#[inline(never)]
fn read_long(alloc: Global, bytes: &[u8]) -> Result<Bundle, DocError>
    ensures value { Gives DocError.Memory result (document bytes.now) }
    ensures memory { result ≡ Err DocError.Memory → length bytes.now ≤ 1048576 }
{
    let mut scratch = Scratch::new(alloc);
    read_with(alloc, alloc, bytes, &mut scratch)
}

#[tactic(auto, unfolding(crate::specs::Document::document))]
fn read_with<A: Allocator + Copy>(
    alloc: Global,
    trees: A,
    bytes: &[u8],
    scratch: &mut Scratch,
) -> Result<Bundle, DocError>
    ensures value { Gives DocError.Memory result (document bytes.now) }
    ensures memory { result ≡ Err DocError.Memory → length bytes.now ≤ 1048576 }
{
    if bytes.len() > MAX_TEXT {
        return Err(DocError::TooLong);
    }
    let tree = read_tree(trees, bytes, scratch)?;
    let room = bytes.len().min(MOST_ROOM);
    let (sequence, refresh_hint, front) = read_parts(trees, room, &tree)?;
    match bundle_from(alloc, sequence, refresh_hint, front)? {
        Some(bundle) => Ok(bundle),
        None => Err(DocError::TooLong),
    }
}

/// One JWK by itself (RFC 7517, section 4): its authority, or `None` if it is ignored. A fault names place 0.
#[tactic(auto, unfolding(crate::specs::Document::entry))]
pub fn read_entry(alloc: Global, bytes: &[u8]) -> Result<Option<Authority>, DocError>
    ensures value { Gives DocError.Memory result (entry bytes.now) }
    ensures memory { result ≡ Err DocError.Memory → length bytes.now ≤ 1048576 }
{
    if bytes.len() > MAX_TEXT {
        return Err(DocError::TooLong);
    }
    let mut scratch = Scratch::new(alloc);
    let tree = read_tree(alloc, bytes, &mut scratch)?;
    match judge(alloc, 0, &tree)? {
        Some(given) => Ok(Some(given.decode(alloc)?)),
        None => Ok(None),
    }
}

/// The elements of `keys`.
fn keys<'v, 'a, A: Allocator>(tree: &'v Value<'a, A>) -> Option<&'v Vec<Value<'a, A>, A>>
    ensures { option_map (λ keys. list_data keys.now.items) result
        ≡ option_and_then as_array (get (codes "keys") (tree_data tree.now)) }
{
    array(member(tree, "keys")?)
}

/// The text up to the last of the authorities that the entries give, each once.
fn front_of<'a, A: Allocator + Copy>(
    trees: A,
    room: usize,
    entries: &Vec<Value<'a, A>, A>,
) -> Result<Front<A>, DocError>
    ensures whole { IfOk result IsWholeFront }
    ensures valid { IfOk result (λ front. AreAuthorities (listed front)) }
    ensures exact { MatchResult result
        (λ front. authorities_of (elements (list_data entries.now.items)) ≡ Ok (listed front))
        (λ e. (e ≡ DocError.Memory) ⊎ (authorities_of (elements (list_data entries.now.items)) ≡ Err e)) }
{
    let mut set = EntrySet::new(trees, room)?;
    for (place, entry) in entries.iter().enumerate() {
        take_entry(trees, &mut set, place, entry)?;
    }
    Ok(set.front)
}

/// Judges one more entry.
fn take_entry<'a, A: Allocator + Copy>(
    trees: A,
    set: &mut EntrySet<'a, A>,
    place: usize,
    entry: &Value<'a, A>,
) -> Result<(), DocError>
    requires whole { IsWhole set.old }
    ensures whole { OnOk result (IsWhole set.new) }
    ensures exact { MatchResult result
        (λ _. take_in place (listed set.old.front) (judgement place (tree_data entry.now)) ≡ Ok (listed set.new.front))
        (λ e. (e ≡ DocError.Memory) ⊎ (take_in place (listed set.old.front) (judgement place (tree_data entry.now)) ≡ Err e)) }
{
    let Some(given) = judge(trees, place, entry)? else {
        return Ok(());
    };
    let text = given.text(trees)?;
    set.admit(place, &given, &given.entry(&text))
}

/// The sequence, the refresh hint and the authorities of a document's tree, these as the text up to the last.
#[tactic(auto, unfolding(crate::specs::Document::bundle_of))]
fn read_parts<'a, A: Allocator + Copy>(
    trees: A,
    room: usize,
    tree: &Value<'a, A>,
) -> Result<(Option<u64>, Option<u64>, Front<A>), DocError>
    ensures whole { IfOk result (λ parts. IsWholeFront parts.2) }
    ensures valid { IfOk result (λ parts. AreAuthorities (listed parts.2)) }
    ensures exact { MatchResult result
        (λ parts. bundle_of (tree_data tree.now) ≡ Ok (record { sequence = parts.0; refresh_hint = parts.1; authorities = listed parts.2 }))
        (λ e. (e ≡ DocError.Memory) ⊎ (bundle_of (tree_data tree.now) ≡ Err e)) }
{
    if !is_object(tree) {
        return Err(DocError::NotObject);
    }
    let Some(keys) = keys(tree) else {
        return Err(DocError::NoKeys);
    };
    let Some(sequence) = number_of(member(tree, "spiffe_sequence")) else {
        return Err(DocError::BadSequence);
    };
    let Some(refresh_hint) = number_of(member(tree, "spiffe_refresh_hint")) else {
        return Err(DocError::BadHint);
    };
    let front = front_of(trees, room, keys)?;
    Ok((sequence, refresh_hint, front))
}
