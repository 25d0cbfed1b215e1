//! What files become, and why others are refused.
use super::bundles::{EXAMPLE, PARTNER, SPACED_MAP, WITHDRAWN};
use super::{Domains, frames_of, holds_at, is_equal_at};
use dump_views::{MapError, MemberFault, requests_of_map};
use spiffe_doc::{DocError, NameError};
use std::alloc::AllocError;
use std::test::Fail;

/// A file, and the domains that its requests set.
static TAKEN: [(&str, Domains<'static>); 4] = [
    ("{\"trust_domains\":{}}", &[]),
    (
        " {\"x\":[1e999], \"trust_domains\" : {\"b\":{\"keys\":[]}, \"a\":{\"keys\":[], \"keys\":[]}}}\n",
        &[("b", "{\"keys\":[]}"), ("a", "{\"keys\":[]}")],
    ),
    (
        "{\"trust_domains\":{\"a\":{\"keys\":[],\"spiffe_sequence\":7,\"trust_domains\":0}}}",
        &[("a", "{\"keys\":[],\"spiffe_sequence\":7}")],
    ),
    (SPACED_MAP, &[WITHDRAWN, PARTNER, EXAMPLE]),
];

#[test]
fn maps_that_are_taken(rt: HostRuntime) -> Result<(), Fail> {
    for &(file, domains) in &TAKEN {
        let requests = requests_of_map(rt.alloc(), file.as_bytes())?;
        let wanted = frames_of(rt.alloc(), b'S', domains)?;
        holds_at(&rt, requests == wanted, &file);
    }
    Ok(())
}

/// A file, and why it is refused: what is not a map, and the first bad member.
static REFUSED: [(&[u8], MapError); 23] = [
    (b"", MapError::NotMap),
    (b"{", MapError::NotMap),
    (b"[]", MapError::NotMap),
    (b"{}", MapError::NotMap),
    (b"null", MapError::NotMap),
    (b"\xff", MapError::NotMap),
    (b"{\"trust_domains\":\"\xff\"}", MapError::NotMap),
    (b"{\"trust_domains\":[]}", MapError::NotMap),
    (b"{\"trust_domains\":null}", MapError::NotMap),
    (b"{\"Trust_domains\":{}}", MapError::NotMap),
    (b"{\"trust_domains\":{}}{}", MapError::NotMap),
    (
        b"{\"trust_domains\":{},\"trust_domains\":{}}",
        MapError::NotMap,
    ),
    (b"{\"keys\":[]}", MapError::NotMap),
    (
        b"{\"trust_domains\":{\"\":{\"keys\":[]}}}",
        MapError::BadMember {
            place: 0,
            fault: MemberFault::BadName(NameError::Empty),
        },
    ),
    (
        b"{\"trust_domains\":{\"A\":{\"keys\":[]}}}",
        MapError::BadMember {
            place: 0,
            fault: MemberFault::BadName(NameError::BadChar(0)),
        },
    ),
    (
        b"{\"trust_domains\":{\"a\":{\"keys\":[]},\"a b\":{\"keys\":[]}}}",
        MapError::BadMember {
            place: 1,
            fault: MemberFault::BadName(NameError::BadChar(1)),
        },
    ),
    (
        b"{\"trust_domains\":{\"a\":{\"keys\":[]},\"b\":{\"keys\":[]},\"a\":{\"keys\":[]}}}",
        MapError::BadMember {
            place: 2,
            fault: MemberFault::Twice,
        },
    ),
    (
        b"{\"trust_domains\":{\"a\":{\"keys\":[]},\"\\u0061\":0}}",
        MapError::BadMember {
            place: 1,
            fault: MemberFault::Twice,
        },
    ),
    (
        b"{\"trust_domains\":{\"a\":[]}}",
        MapError::BadMember {
            place: 0,
            fault: MemberFault::BadBundle(DocError::NotObject),
        },
    ),
    (
        b"{\"trust_domains\":{\"a\":{}}}",
        MapError::BadMember {
            place: 0,
            fault: MemberFault::BadBundle(DocError::NoKeys),
        },
    ),
    (
        b"{\"trust_domains\":{\"a\":{\"keys\":[]},\"b\":{\"keys\":[0]},\"c\":{}}}",
        MapError::BadMember {
            place: 1,
            fault: MemberFault::BadBundle(DocError::BadEntry(0)),
        },
    ),
    (
        b"{\"trust_domains\":{\"a\":{\"keys\":[],\"spiffe_sequence\":-1}}}",
        MapError::BadMember {
            place: 0,
            fault: MemberFault::BadBundle(DocError::BadSequence),
        },
    ),
    (
        b"{\"trust_domains\":{\"a\":{\"keys\":[],\"x\":1e999}}}",
        MapError::BadMember {
            place: 0,
            fault: MemberFault::BadBundle(DocError::NotJson),
        },
    ),
];

#[test]
fn maps_that_are_refused(rt: HostRuntime) {
    for &(file, wanted) in &REFUSED {
        let found = requests_of_map(rt.alloc(), file).err();
        is_equal_at(&rt, &found, &Some(wanted), &file);
    }
}

#[test]
fn a_refused_growth_gives_no_requests(rt: HostRuntime) -> Result<(), Fail> {
    let file =
        b"{\"trust_domains\":{\"a-name-of-more-than-24-bytes\":{\"keys\":[]},\"b\":{\"keys\":[]}}}";
    let wanted =
        b"\x00\x00\x00\x29S\x1ca-name-of-more-than-24-bytes{\"keys\":[]}\x00\x00\x00\x0eS\x01b{\"keys\":[]}";
    match requests_of_map(rt.alloc(), file) {
        Ok(requests) => holds_at(
            &rt,
            requests.as_slice() == wanted.as_slice(),
            &"both requests",
        ),
        Err(error) => {
            is_equal_at(&rt, &error, &MapError::Memory, &"a refused growth");
            return Err(Fail::from(AllocError));
        }
    }
    Ok(())
}
