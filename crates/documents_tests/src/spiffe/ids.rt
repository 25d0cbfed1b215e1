use super::{Parts, is_equal_at, text_of};
use spiffe_doc::{IdError, NameError, SpiffeId, TrustDomain};
use std::alloc::{AllocError, Global};
use std::process::Abort;
use std::test::Fail;

/// Why bytes are refused as a name, if they are.
fn name_refusal(alloc: Global, name: &[u8]) -> Result<Option<NameError>, AllocError> {
    match TrustDomain::parse_bytes(alloc, name).err() {
        Some(NameError::Memory) => Err(AllocError),
        refusal => Ok(refusal),
    }
}

static NAMES: [(&[u8], usize, Option<NameError>); 12] = [
    (b"a", 1, None),
    (b"example.org", 1, None),
    (b"a-b_c.0-9", 1, None),
    (b"", 1, Some(NameError::Empty)),
    (b"Example.org", 1, Some(NameError::BadChar(0))),
    (b"example.org/", 1, Some(NameError::BadChar(11))),
    (b"a%62", 1, Some(NameError::BadChar(1))),
    (b"\xff", 1, Some(NameError::BadChar(0))),
    (b"k\xc3\xa9", 1, Some(NameError::BadChar(1))),
    (b"a", 255, None),
    (b"a", 256, Some(NameError::TooLong)),
    (b"A", 256, Some(NameError::TooLong)),
];

/// A name is some bytes, so many times.
#[test]
fn names(rt: HostRuntime) -> Result<(), AllocError> {
    for &(bytes, count, wanted) in &NAMES {
        let name = bytes.repeat(rt.alloc(), count)?;
        is_equal_at(&rt, &name_refusal(rt.alloc(), &name)?, &wanted, &bytes);
    }
    Ok(())
}

/// Names that are ordered by their bytes.
static IN_ORDER: [(&str, &str); 12] = [
    ("-", "."),
    (".", "0"),
    ("9", "_"),
    ("_", "a"),
    ("a", "aa"),
    ("az", "b"),
    // Around 8 bytes, which a name keeps as a number, and around 24, which lie in the value itself.
    ("abcdefg", "abcdefgh"),
    ("abcdefgh", "abcdefgha"),
    ("abcdefgha", "abcdefghb"),
    ("abcdefghz", "abcdefgi"),
    ("abcdefghijklmnopqrstuvwx", "abcdefghijklmnopqrstuvwxy"),
    ("abcdefghijklmnopqrstuvwwz", "abcdefghijklmnopqrstuvwx"),
];

/// The one name is below the other, of which a copy is made.
fn is_below(rt: &impl Abort, lower: &TrustDomain, higher: &TrustDomain) -> Result<(), AllocError> {
    let copy: TrustDomain = higher.copy()?;
    let orders = (
        lower < higher,
        higher > lower,
        lower != higher,
        copy == *higher,
    );
    is_equal_at(rt, &orders, &(true, true, true, true), &higher.as_str());
    is_equal_at(rt, &copy.as_str(), &higher.as_str(), &"a copy");
    Ok(())
}

#[test]
fn names_in_order(rt: HostRuntime) -> Result<(), Fail> {
    for &(lower, higher) in &IN_ORDER {
        let lower = TrustDomain::parse(rt.alloc(), lower)?;
        let higher = TrustDomain::parse(rt.alloc(), higher)?;
        is_below(&rt, &lower, &higher)?;
    }
    Ok(())
}

static IDS: [(Parts, Option<IdError>); 23] = [
    (&[("spiffe://a", 1)], None),
    (&[("spiffe://a/b", 1)], None),
    (&[("spiffe://a/B.c_d-0/...", 1)], None),
    (&[("SPIFFE://a", 1)], Some(IdError::NotSpiffe)),
    (&[("https://a", 1)], Some(IdError::NotSpiffe)),
    (&[("", 1)], Some(IdError::NotSpiffe)),
    (&[("spiffe:///x", 1)], Some(IdError::Empty)),
    (&[("spiffe://", 1)], Some(IdError::Empty)),
    (&[("spiffe://a:80/x", 1)], Some(IdError::BadChar(1))),
    (&[("spiffe://u@a/x", 1)], Some(IdError::BadChar(1))),
    (&[("spiffe://a?q", 1)], Some(IdError::BadChar(1))),
    (&[("spiffe://A/.", 1)], Some(IdError::BadChar(0))),
    (&[("spiffe:////", 1)], Some(IdError::Empty)),
    (&[("spiffe://a/", 1)], Some(IdError::BadPath(0))),
    (&[("spiffe://a/b//c", 1)], Some(IdError::BadPath(1))),
    (&[("spiffe://a/b/", 1)], Some(IdError::BadPath(1))),
    (&[("spiffe://a/.", 1)], Some(IdError::BadPath(0))),
    (&[("spiffe://a/b/../c", 1)], Some(IdError::BadPath(1))),
    (&[("spiffe://a/b/c%20", 1)], Some(IdError::BadPath(1))),
    // Of 2,048 bytes, and of 2,049.
    (&[("spiffe://a/", 1), ("b", 2037)], None),
    (&[("spiffe://a/", 1), ("b", 2038)], Some(IdError::TooLong)),
    (
        &[("spiffe://", 1), ("a", 256), ("/b", 1)],
        Some(IdError::TooLong),
    ),
    (&[("a", 2049)], Some(IdError::TooLong)),
];

/// Why a text is refused as an ID, if it is.
fn id_refusal(alloc: Global, id: &str) -> Result<Option<IdError>, AllocError> {
    match SpiffeId::parse(alloc, id).err() {
        Some(IdError::Memory) => Err(AllocError),
        refusal => Ok(refusal),
    }
}

#[test]
fn ids(rt: HostRuntime) -> Result<(), AllocError> {
    for &(parts, wanted) in &IDS {
        let id = text_of(rt.alloc(), parts)?;
        is_equal_at(&rt, &id_refusal(rt.alloc(), &id)?, &wanted, &id);
    }
    Ok(())
}

/// An ID, its trust domain and its path.
static PARTED: [(&str, &str, &str); 2] = [
    (
        "spiffe://example.org/ns/prod/sa/web",
        "example.org",
        "/ns/prod/sa/web",
    ),
    ("spiffe://example.org", "example.org", ""),
];

fn has_parts(rt: &impl Abort, id: &SpiffeId, domain: &str, path: &str) {
    is_equal_at(
        rt,
        &(id.domain().as_str(), id.path()),
        &(domain, path),
        &path,
    );
}

#[test]
fn parts_of_ids(rt: HostRuntime) -> Result<(), Fail> {
    for &(text, domain, path) in &PARTED {
        let id = SpiffeId::parse(rt.alloc(), text)?;
        has_parts(&rt, &id, domain, path);
        has_parts(&rt, &id.copy()?, domain, path);
    }
    Ok(())
}
