//! JSON texts as trees that borrow them (RFC 8259). Clauses see the data that `serde_json` makes of the same text.
ghost use Rattle.std.specs.Prelude.{◌≡◌, ◌⊎◌, Some, None, is_some, option_map, MatchResult};
ghost use Rattle.json.specs.Value.{value_view, items_view, members_view};
ghost use Rattle.serde_json.specs.Find.{get, as_str, as_array, as_object};
ghost use Rattle.spiffe_doc.specs.Document.{json_tree, whole_number as number_of_member};
ghost use Rattle.spiffe_doc.specs.Private.Borrowed.{tree_data, list_data, in_range, items_in_range, members_in_range};

use crate::error::DocError;
use crate::number::whole_number_of;
use json::{Error, Reader, Scratch, Value};
use std::alloc::Allocator;

/// How deep arrays and objects may nest: as deep as `serde_json` reads.
const MAX_DEPTH: usize = 127;

/// The tree of a JSON text. Its strings lie in the text, or unescaped in the scratch; its lists are the allocator's.
pub(crate) fn read_tree<'a, A: Allocator + Copy>(
    alloc: A,
    bytes: &'a [u8],
    scratch: &'a mut Scratch,
) -> Result<Value<'a, A>, DocError>
    ensures { MatchResult result
        (λ tree. json_tree bytes.now ≡ Some (tree_data tree))
        (λ e. (e ≡ DocError.Memory) ⊎ ((e ≡ DocError.NotJson) × (json_tree bytes.now ≡ None))) }
{
    let Ok(text) = simdutf8::basic::from_utf8(bytes) else {
        return Err(DocError::NotJson);
    };
    let mut reader = Reader::new(text, scratch)?;
    let tree = match Value::read(alloc, &mut reader, MAX_DEPTH) {
        Ok(tree) => tree,
        Err(Error::OutOfMemory) => return Err(DocError::Memory),
        Err(_) => return Err(DocError::NotJson),
    };
    if reader.next().is_some() {
        return Err(DocError::NotJson);
    }
    if !is_in_range(&tree) {
        return Err(DocError::NotJson);
    }
    Ok(tree)
}

/// Whether no number in the tree is too large for a float.
#[cycle(in_range)]
fn is_in_range<A: Allocator>(tree: &Value<'_, A>) -> bool
    ensures { result ≡ in_range (value_view tree.now) }
{
    match tree {
        Value::Number(text) => whole_number_of(text).is_some(),
        Value::Array(items) => are_items_in_range(items),
        Value::Object(members) => are_members_in_range(members),
        _ => true,
    }
}

#[cycle(in_range)]
fn are_items_in_range<A: Allocator>(items: &Vec<Value<'_, A>, A>) -> bool
    ensures { result ≡ items_in_range (items_view items.now.items) }
{
    for item in items {
        if !is_in_range(item) {
            return false;
        }
    }
    true
}

#[cycle(in_range)]
fn are_members_in_range<A: Allocator>(members: &Vec<(&str, Value<'_, A>), A>) -> bool
    ensures { result ≡ members_in_range (members_view members.now.items) }
{
    for member in members {
        if !is_in_range(&member.1) {
            return false;
        }
    }
    true
}

pub(crate) fn is_object<A: Allocator>(tree: &Value<'_, A>) -> bool
    ensures { result ≡ is_some (as_object (tree_data tree.now)) }
{
    matches!(tree, Value::Object(_))
}

/// The member of this name, the last one if there are several.
pub(crate) fn member<'v, 'a, A: Allocator>(
    tree: &'v Value<'a, A>,
    name: &str,
) -> Option<&'v Value<'a, A>>
    ensures { option_map (λ found. tree_data found.now) result ≡ get name.now (tree_data tree.now) }
{
    tree.get(name)
}

pub(crate) fn string<'a, A: Allocator>(tree: &Value<'a, A>) -> Option<&'a str>
    ensures { option_map (λ text. text.now) result ≡ as_str (tree_data tree.now) }
{
    tree.as_str()
}

pub(crate) fn array<'v, 'a, A: Allocator>(
    tree: &'v Value<'a, A>,
) -> Option<&'v Vec<Value<'a, A>, A>>
    ensures { option_map (λ items. list_data items.now.items) result ≡ as_array (tree_data tree.now) }
{
    match tree {
        Value::Array(items) => Some(items),
        _ => None,
    }
}

/// The whole number of a member, none if it is absent or null; `None` if it is not such a number.
pub(crate) fn number_of<A: Allocator>(member: Option<&Value<'_, A>>) -> Option<Option<u64>>
    ensures { result ≡ number_of_member (option_map (λ found. tree_data found.now) member.entry) }
{
    match member {
        None | Some(Value::Null) => Some(None),
        Some(Value::Number(text)) => match whole_number_of(text) {
            Some(number) => Some(Some(number?)),
            None => Some(None),
        },
        Some(_) => None,
    }
}
