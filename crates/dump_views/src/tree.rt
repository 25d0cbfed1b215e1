//! The tree of a file's JSON, and the members of a bundle map in it.
ghost use Rattle.std.specs.Prelude.{◌≡◌, ◌⊎◌, Some, None, option_map, MatchResult};
ghost use Rattle.json.specs.Tree.{HasNumbers};
ghost use Rattle.json.specs.Value.{value_view, members_view};
ghost use Rattle.dump_views.specs.Import.{json_of, as_object, only_one, values_named, domains_in};

use crate::error::MapError;
use json::{Error, Scratch, Value};
use std::alloc::Global;

/// The members of an object.
pub(crate) type Members<'a> = Vec<(&'a str, Value<'a>)>;

/// The tree of a JSON text. Its strings lie in the text, or unescaped in the scratch.
pub(crate) fn read_tree<'a>(
    alloc: Global,
    file: &'a [u8],
    scratch: &'a mut Scratch,
) -> Result<Value<'a>, MapError>
    ensures { MatchResult result
        (λ tree. (json_of file.now ≡ Some (value_view tree)) × HasNumbers (value_view tree))
        (λ e. (e ≡ MapError.Memory) ⊎ ((e ≡ MapError.NotMap) × (json_of file.now ≡ None))) }
{
    let Ok(text) = simdutf8::basic::from_utf8(file) else {
        return Err(MapError::NotMap);
    };
    match Value::parse(alloc, text, scratch) {
        Ok(tree) => Ok(tree),
        Err(Error::OutOfMemory) => Err(MapError::Memory),
        Err(_) => Err(MapError::NotMap),
    }
}

/// The members of the only member `trust_domains` of an object.
pub(crate) fn domain_members<'v, 'a>(tree: &'v Value<'a>) -> Option<&'v Members<'a>>
    ensures { option_map (λ members. members_view members.now.items) result ≡ domains_in (value_view tree.now) }
{
    object(only_value(object(tree)?, "trust_domains")?)
}

fn object<'v, 'a>(tree: &'v Value<'a>) -> Option<&'v Members<'a>>
    ensures { option_map (λ members. members_view members.now.items) result ≡ as_object (value_view tree.now) }
{
    match tree {
        Value::Object(members) => Some(members),
        _ => None,
    }
}

/// The value of the only member of this name.
fn only_value<'v, 'a>(members: &'v Members<'a>, name: &str) -> Option<&'v Value<'a>>
    ensures { option_map (λ value. value_view value.now) result ≡ only_one (values_named name.now (members_view members.now.items)) }
{
    let mut found = None;
    for member in members {
        if member.0 == name {
            if found.is_some() {
                return None;
            }
            found = Some(&member.1);
        }
    }
    found
}
