//! What the map of a dump is.
use super::bundles::{EXAMPLE, MAP, PARTNER, WITHDRAWN, X509_MAP};
use super::{Domains, frames_of, holds_at, is_equal_at};
use dump_views::{Profile, requests_of_map, write_map};
use frame_front::read_dump;
use std::alloc::Global;
use std::test::Fail;

/// One domain with a refresh hint.
const HINTED: Domains<'static> = &[("a", "{\"keys\":[],\"spiffe_refresh_hint\":5}")];

const REAL: Domains<'static> = &[EXAMPLE, PARTNER, WITHDRAWN];

/// Domains, a profile, the map, and whether it is taken back as the requests that set the domains.
static MAPS: [(Domains<'static>, Profile, &str, bool); 6] = [
    (&[], Profile::Whole, "{\"trust_domains\":{}}", true),
    (&[], Profile::X509, "{\"trust_domains\":{}}", true),
    (
        HINTED,
        Profile::Whole,
        "{\"trust_domains\":{\"a\":{\"keys\":[],\"spiffe_refresh_hint\":5}}}",
        true,
    ),
    (
        HINTED,
        Profile::X509,
        "{\"trust_domains\":{\"a\":{\"keys\":[]}}}",
        false,
    ),
    (REAL, Profile::Whole, MAP, true),
    (REAL, Profile::X509, X509_MAP, false),
];

fn map_of(alloc: Global, domains: Domains<'_>, profile: Profile) -> Result<Vec<u8>, Fail> {
    let dumped = read_dump(alloc, &frames_of(alloc, b'i', domains)?)?;
    Ok(write_map(alloc, dumped.pairs(), profile)?)
}

#[test]
fn maps(rt: HostRuntime) -> Result<(), Fail> {
    for &(domains, profile, wanted, is_whole) in &MAPS {
        let map = map_of(rt.alloc(), domains, profile)?;
        holds_at(&rt, map.as_slice() == wanted.as_bytes(), &wanted);
        let requests = requests_of_map(rt.alloc(), &map)?;
        let is_back = requests == frames_of(rt.alloc(), b'S', domains)?;
        is_equal_at(&rt, &is_back, &is_whole, &wanted);
    }
    Ok(())
}
