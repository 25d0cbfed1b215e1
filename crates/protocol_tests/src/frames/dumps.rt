//! Dumps and the requests that they become.
use super::MIGRATED;
use super::long::{DUMP_300, MIGRATED_300};
use frame_front::{DumpDecoder, DumpError, migrate, read_dump};
use map_core::Snapshot;
use spiffe_doc::{Bundle, TrustDomain};
use std::alloc::Global;
use std::test::Fail;
use test_kit::protocol::{ALL_OF_NONE, ALL_OF_ONE, Part, text_of};
use test_kit::{holds_at, is_equal_at};

/// Each dump becomes its requests.
static REQUESTS: [(&[Part<'static>], &[Part<'static>]); 4] = [
    (&[(ALL_OF_ONE, 1)], &[(MIGRATED, 1)]),
    (&[(ALL_OF_NONE, 1)], &[(b"\x00\x00\x00\x02V\x02", 1)]),
    (
        &[(
            b"\x00\x00\x00\x09a\x00\x00\x00\x00\x00\x00\x00\x01\x00\x00\x00\x0fi\x01a{\"keys\": []}",
            1,
        )],
        &[(MIGRATED, 1)],
    ),
    (DUMP_300, MIGRATED_300),
];

/// The dump becomes these requests.
fn becomes(alloc: Global, dump: &[Part<'_>], requests: &[Part<'_>]) -> Result<(), Fail> {
    let dump = text_of(alloc, dump)?;
    let requests = text_of(alloc, requests)?;
    let found = migrate(alloc, dump.as_slice())?;
    let is_so = found.as_slice() == requests.as_slice();
    holds_at(is_so, &dump.len())
}

#[test]
fn migrates_dumps(rt: HostRuntime) -> Result<(), Fail> {
    for &(dump, requests) in &REQUESTS {
        becomes(rt.alloc(), dump, requests)?;
    }
    Ok(())
}

/// A dump, and its domains with their texts.
type Domains<'a> = (&'a [u8], &'a [(&'a str, &'a [u8])]);

static DOMAINS: [Domains<'static>; 3] = [
    (ALL_OF_NONE, &[]),
    (ALL_OF_ONE, &[("a", b"{\"keys\":[]}")]),
    (
        b"\x00\x00\x00\x09a\x00\x00\x00\x00\x00\x00\x00\x02\x00\x00\x00\x0ei\x01a{\"keys\":[]}\x00\x00\x00\x25i\x02ab{\"keys\":[], \"spiffe_sequence\": 7}",
        &[
            ("a", b"{\"keys\":[]}"),
            ("ab", b"{\"keys\":[],\"spiffe_sequence\":7}"),
        ],
    ),
];

fn has_domains(domains: &Snapshot, (dump, wanted): Domains<'_>) -> Result<(), Fail> {
    is_equal_at(&domains.len(), &wanted.len(), &dump)?;
    for ((domain, bundle), &(name, text)) in domains.pairs().iter().zip(wanted) {
        is_equal_at(&(domain.as_str(), bundle.text()), &(name, text), &dump)?;
    }
    Ok(())
}

#[test]
fn reads_dumps(rt: HostRuntime) -> Result<(), Fail> {
    for &row in &DOMAINS {
        let domains = read_dump(rt.alloc(), row.0)?;
        has_domains(&domains, row)?;
    }
    Ok(())
}

/// Each of these is wrong at its frame.
static NO_DUMPS: [(&str, &[u8], u64); 12] = [
    ("no input", b"", 0),
    ("a length alone", b"\x00\x00\x00\x09", 0),
    (
        "another code",
        b"\x00\x00\x00\x09b\x00\x00\x00\x00\x00\x00\x00\x00",
        0,
    ),
    (
        "a count of 7 bytes",
        b"\x00\x00\x00\x08a\x00\x00\x00\x00\x00\x00\x00",
        0,
    ),
    (
        "no frame of a domain",
        b"\x00\x00\x00\x09a\x00\x00\x00\x00\x00\x00\x00\x01",
        1,
    ),
    (
        "names out of order",
        b"\x00\x00\x00\x09a\x00\x00\x00\x00\x00\x00\x00\x02\x00\x00\x00\x0ei\x01b{\"keys\":[]}\x00\x00\x00\x0ei\x01a{\"keys\":[]}",
        2,
    ),
    (
        "a name twice",
        b"\x00\x00\x00\x09a\x00\x00\x00\x00\x00\x00\x00\x02\x00\x00\x00\x0ei\x01a{\"keys\":[]}\x00\x00\x00\x0ei\x01a{\"keys\":[]}",
        2,
    ),
    (
        "a domain too much",
        b"\x00\x00\x00\x09a\x00\x00\x00\x00\x00\x00\x00\x00\x00\x00\x00\x0ei\x01a{\"keys\":[]}",
        1,
    ),
    (
        "a byte too much",
        b"\x00\x00\x00\x09a\x00\x00\x00\x00\x00\x00\x00\x01\x00\x00\x00\x0ei\x01a{\"keys\":[]}\x00",
        2,
    ),
    (
        "a bad length after the count",
        b"\x00\x00\x00\x09a\x00\x00\x00\x00\x00\x00\x00\x01\x00\x00\x00\x00",
        1,
    ),
    (
        "a document at fault",
        b"\x00\x00\x00\x09a\x00\x00\x00\x00\x00\x00\x00\x01\x00\x00\x00\x05i\x01a[]",
        1,
    ),
    (
        "a name at fault",
        b"\x00\x00\x00\x09a\x00\x00\x00\x00\x00\x00\x00\x01\x00\x00\x00\x0ei\x01A{\"keys\":[]}",
        1,
    ),
];

#[test]
fn refuses_what_is_no_dump(rt: HostRuntime) -> Result<(), Fail> {
    for &(name, dump, frame) in &NO_DUMPS {
        let wanted = Some(DumpError::BadDump(frame));
        is_equal_at(&migrate(rt.alloc(), dump).err(), &wanted, &name)?;
        is_equal_at(&read_dump(rt.alloc(), dump).err(), &wanted, &name)?;
    }
    Ok(())
}

type Items = Vec<(TrustDomain, Bundle)>;

/// Takes out what has come; each domain has taken more than a byte.
fn take_out(decoder: &mut DumpDecoder, most: usize, domains: &mut Items) -> Result<(), Fail> {
    for _ in 0..most {
        let Some(item) = decoder.next_domain()? else {
            return Ok(());
        };
        domains.push(item)?;
    }
    Ok(())
}

/// What comes of a dump byte by byte.
fn read_by_bytes(alloc: Global, dump: &[u8]) -> Result<(Items, Option<DumpError>), Fail> {
    let mut decoder = DumpDecoder::new(alloc)?;
    let mut domains = Vec::new(alloc);
    for byte in dump {
        decoder.feed(&[*byte])?;
        take_out(&mut decoder, dump.len(), &mut domains)?;
    }
    Ok((domains, decoder.finish().err()))
}

#[test]
fn reads_dumps_byte_by_byte(rt: HostRuntime) -> Result<(), Fail> {
    for &row in &DOMAINS {
        let (domains, fault) = read_by_bytes(rt.alloc(), row.0)?;
        is_equal_at(&fault, &None, &row.0)?;
        has_domains(&Snapshot::from_pairs(domains), row)?;
    }
    for &(name, dump, frame) in &NO_DUMPS {
        let (_, fault) = read_by_bytes(rt.alloc(), dump)?;
        is_equal_at(&fault, &Some(DumpError::BadDump(frame)), &name)?;
    }
    Ok(())
}

/// A front of a dump, byte by byte, has the fault that it has as a whole.
#[test]
fn reads_cut_dumps_byte_by_byte(rt: HostRuntime) -> Result<(), Fail> {
    for &(dump, _) in &DOMAINS {
        for size in 0..dump.len() {
            let (front, _) = dump.split_at(size);
            let (_, fault) = read_by_bytes(rt.alloc(), front)?;
            is_equal_at(&fault, &read_dump(rt.alloc(), front).err(), &size)?;
        }
    }
    Ok(())
}
