//! Which texts are relationships, and what is told of those that are not.
use super::is_equal_at;
use refresh::{Profile, RelationError, Relationship};
use spiffe_doc::{IdError, NameError};
use std::alloc::{AllocError, Global};
use std::test::Fail;

/// A trust domain, a URL and how many letters follow it, a profile, the ID of the endpoint, and the fault.
type Row = (
    &'static str,
    &'static str,
    usize,
    &'static str,
    Option<&'static str>,
    Option<RelationError>,
);

const URL: &str = "https://bundles.example/a";

static RELATIONSHIPS: [Row; 23] = [
    ("a", URL, 0, "https_web", None, None),
    ("a", URL, 0, "https_web", Some("no ID"), None),
    ("a", URL, 0, "https_spiffe", Some("spiffe://a/b"), None),
    (
        "a",
        "HTTPS://bundles.example:8443/a?b",
        0,
        "https_web",
        None,
        None,
    ),
    (
        "a",
        "https://@bundles.example/a",
        0,
        "https_web",
        None,
        None,
    ),
    (
        "a",
        "https://:@bundles.example/a",
        0,
        "https_web",
        None,
        None,
    ),
    (
        "a",
        "http://bundles.example/a",
        0,
        "https_web",
        None,
        Some(RelationError::BadUrl),
    ),
    (
        "a",
        "https://u@bundles.example/a",
        0,
        "https_web",
        None,
        Some(RelationError::BadUrl),
    ),
    (
        "a",
        "https://:p@bundles.example/a",
        0,
        "https_web",
        None,
        Some(RelationError::BadUrl),
    ),
    (
        "a",
        "https://",
        0,
        "https_web",
        None,
        Some(RelationError::BadUrl),
    ),
    (
        "a",
        "bundles.example/a",
        0,
        "https_web",
        None,
        Some(RelationError::BadUrl),
    ),
    ("a", "", 0, "https_web", None, Some(RelationError::BadUrl)),
    (
        "a",
        URL,
        0,
        "https_other",
        None,
        Some(RelationError::BadProfile),
    ),
    ("a", URL, 0, "", None, Some(RelationError::BadProfile)),
    (
        "a",
        URL,
        0,
        "https_spiffe",
        None,
        Some(RelationError::NoEndpointId),
    ),
    (
        "a",
        URL,
        0,
        "https_spiffe",
        Some("spiffe://a/"),
        Some(RelationError::EndpointId(IdError::BadPath(0))),
    ),
    (
        "a",
        URL,
        0,
        "https_spiffe",
        Some("a"),
        Some(RelationError::EndpointId(IdError::NotSpiffe)),
    ),
    (
        "",
        "",
        0,
        "",
        None,
        Some(RelationError::Domain(NameError::Empty)),
    ),
    (
        "aB",
        "",
        0,
        "",
        None,
        Some(RelationError::Domain(NameError::BadChar(1))),
    ),
    ("a", "", 0, "https_other", None, Some(RelationError::BadUrl)),
    (
        "a",
        URL,
        0,
        "https_other",
        Some("no ID"),
        Some(RelationError::BadProfile),
    ),
    // Of 2,048 bytes, and of 2,049.
    (
        "a",
        "https://bundles.example/",
        2024,
        "https_web",
        None,
        None,
    ),
    (
        "a",
        "https://bundles.example/",
        2025,
        "https_web",
        None,
        Some(RelationError::BadUrl),
    ),
];

/// Why these texts are no relationship, if they are not.
fn fault_of(
    alloc: Global,
    domain: &str,
    url: &str,
    profile: &str,
    endpoint_id: Option<&str>,
) -> Result<Option<RelationError>, AllocError> {
    match Relationship::read(alloc, domain, url, profile, endpoint_id).err() {
        Some(RelationError::Memory) => Err(AllocError),
        fault => Ok(fault),
    }
}

#[test]
fn relationships(rt: HostRuntime) -> Result<(), AllocError> {
    for &(domain, front, count, profile, endpoint_id, wanted) in &RELATIONSHIPS {
        let mut url = String::from_str(rt.alloc(), front)?;
        for _ in 0..count {
            url.push('a')?;
        }
        let fault = fault_of(rt.alloc(), domain, &url, profile, endpoint_id)?;
        is_equal_at(&rt, &fault, &wanted, &url);
    }
    Ok(())
}

/// The trust domain of a relationship, its URL, and the parts of the endpoint's ID.
type Parts<'a> = (&'a str, &'a str, Option<(&'a str, &'a str)>);

/// A URL, a profile, the ID of the endpoint, and what is kept.
static KEPT: [(&str, &str, &str, Parts<'static>); 2] = [
    (
        "https://b.example:8443",
        "https_spiffe",
        "spiffe://b.example/spire/server",
        (
            "b.example",
            "https://b.example:8443/",
            Some(("b.example", "/spire/server")),
        ),
    ),
    (
        "https://b.example",
        "https_web",
        "x",
        ("a", "https://b.example/", None),
    ),
];

fn parts_of(read: &Relationship) -> Parts<'_> {
    let endpoint = match read.profile() {
        Profile::HttpsWeb => None,
        Profile::HttpsSpiffe(id) => Some((id.domain().as_str(), id.path())),
    };
    (read.domain().as_str(), read.url().as_str(), endpoint)
}

#[test]
fn parts_of_relationships(rt: HostRuntime) -> Result<(), Fail> {
    for &(url, profile, id, (domain, kept_url, endpoint)) in &KEPT {
        let read = Relationship::read(rt.alloc(), domain, url, profile, Some(id))?;
        is_equal_at(&rt, &parts_of(&read), &(domain, kept_url, endpoint), &url);
    }
    Ok(())
}

static NUMBERS: [(RelationError, u8); 6] = [
    (RelationError::Domain(NameError::TooLong), 2),
    (RelationError::EndpointId(IdError::NotSpiffe), 4),
    (RelationError::Memory, 22),
    (RelationError::BadUrl, 60),
    (RelationError::BadProfile, 61),
    (RelationError::NoEndpointId, 62),
];

#[test]
fn numbers(rt: HostRuntime) {
    for &(error, number) in &NUMBERS {
        is_equal_at(&rt, &error.number(), &number, &error);
    }
}
