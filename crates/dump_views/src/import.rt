//! The requests that a bundle map becomes.
ghost use Rattle.std.specs.Prelude.{◌≡◌, map, [], IfOk, IfErr};
ghost use Rattle.wire.specs.Frame.{stream_of};
ghost use Rattle.frame_front.specs.Dump.{Domains};
ghost use Rattle.json.specs.Value.{members_view};
ghost use Rattle.json.specs.Tree.{MembersHaveNumbers};
ghost use Rattle.dump_views.specs.Import.{member_list, AreDomains, IsMap, FaultOfMap, set_request};
ghost use Rattle.dump_views.specs.Private.Reading.{FaultOfMembers};

use crate::error::MapError;
use crate::member::read_member;
use crate::name_set::insert_name;
use crate::tree::{Members, domain_members, read_tree};
use json::Scratch;
use spiffe_doc::DocumentReader;
use std::alloc::Global;
use std::collections::BTreeSet;
use wire::put_request;

/// The requests of version 1 that set each bundle of a bundle map, in the order of its members. An error tells the first
/// member that is bad; a name that stands twice is bad, and no member is left out.
pub fn requests_of_map(alloc: Global, file: &[u8]) -> Result<Vec<u8>, MapError>
    ensures ok { IfOk result (λ stream. (items : Domains) × IsMap file.now items × (stream.items ≡ stream_of (map set_request items) [])) }
    ensures err { IfErr result (λ fault. FaultOfMap fault file.now) }
{
    let mut scratch = Scratch::new(alloc);
    let tree = read_tree(alloc, file, &mut scratch)?;
    let Some(members) = domain_members(&tree) else {
        return Err(MapError::NotMap);
    };
    requests_of_members(alloc, members)
}

/// The requests of these members.
fn requests_of_members(alloc: Global, members: &Members<'_>) -> Result<Vec<u8>, MapError>
    requires { MembersHaveNumbers (members_view members.now.items) }
    ensures ok { IfOk result (λ stream. (items : Domains) × AreDomains items (member_list (members_view members.now.items))
        × (stream.items ≡ stream_of (map set_request items) [])) }
    ensures err { IfErr result (FaultOfMembers (member_list (members_view members.now.items))) }
{
    let mut documents = DocumentReader::new(alloc);
    let mut names = BTreeSet::new(alloc);
    let mut stream = Vec::new(alloc);
    for (place, member) in members.iter().enumerate() {
        let (domain, bundle) = read_member(alloc, &mut documents, &names, place, member)?;
        put_request(&mut stream, b'S', &domain, &[], &bundle)?;
        insert_name(&mut names, domain)?;
    }
    Ok(stream)
}
