//! Digests, as Python's `hashlib` has them.
use super::bundles::{DEFAULT, LARGE_CURVE, LARGE_KEY, ROTATION, WITHDRAWN};
use super::{Domains, dump_of};
use dump_views::{digest_line, dump_digest_line};
use frame_front::DumpError;
use std::alloc::Global;
use std::test::Fail;
use test_kit::is_equal_at;

/// Worked examples of FIPS 180-4, and of no bytes.
static BYTES: [(&[u8], &[u8]); 3] = [
    (
        b"",
        b"e3b0c44298fc1c149afbf4c8996fb92427ae41e4649b934ca495991b7852b855\n",
    ),
    (
        b"abc",
        b"ba7816bf8f01cfea414140de5dae2223b00361a396177a9cb410ff61f20015ad\n",
    ),
    (
        b"abcdbcdecdefdefgefghfghighijhijkijkljklmklmnlmnomnopnopq",
        b"248d6a61d20638b8e5c026930c3e6039a33ce45964ff2167f6ecedd419db06c1\n",
    ),
];

static DUMPS: [(Domains, &[u8]); 4] = [
    (
        &[],
        b"9cf4b161f3571e751912f9a78ae2015c4fb288afe59c798f5452a18d6254c893\n",
    ),
    (
        &[("a", WITHDRAWN)],
        b"7fa328e8bc88c3d6485456d61b427a2bc822a4a259de415b62853f3303162cf7\n",
    ),
    (
        &[("a.example", DEFAULT), ("b", ROTATION), ("c", WITHDRAWN)],
        b"8284882a58bffcaf7ad6f623a1ae708dc2ba8f7076627c4ec7b49811a6d098e1\n",
    ),
    (
        &[("x", LARGE_CURVE), ("y", LARGE_KEY)],
        b"61dd3c3cca5910bded08a374282fad0ee1a6480f745b1235288ff13a212e91c2\n",
    ),
];

/// Fails unless these bytes are a dump of this digest; or no dump, by their frame of this number.
fn digest_is(alloc: Global, bytes: &[u8], wanted: Result<&[u8], DumpError>) -> Result<(), Fail> {
    let found = dump_digest_line(alloc, bytes);
    let found = match &found {
        Ok(line) => Ok(line.as_slice()),
        Err(why) => Err(*why),
    };
    is_equal_at(&found, &wanted, &bytes)
}

#[test]
fn digests(rt: HostRuntime) -> Result<(), Fail> {
    let alloc = rt.alloc();
    for &(bytes, wanted) in &BYTES {
        is_equal_at(&digest_line(bytes).as_slice(), &wanted, &bytes)?;
    }
    for &(domains, wanted) in &DUMPS {
        let dump = dump_of(alloc, domains)?;
        digest_is(alloc, &dump, Ok(wanted))?;
        is_equal_at(&digest_line(&dump).as_slice(), &wanted, &domains.len())?;
    }
    let mut short = dump_of(alloc, &[("a", WITHDRAWN)])?;
    let _last = short.pop();
    digest_is(alloc, &short, Err(DumpError::BadDump(1)))?;
    digest_is(alloc, b"", Err(DumpError::BadDump(0)))?;
    digest_is(alloc, b"abc", Err(DumpError::BadDump(0)))
}
