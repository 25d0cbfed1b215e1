//! Long texts, and sessions of many requests over an empty map: a real bundle, a document of 10 kB, 300 domains, and what is
//! as long as it may be.
use super::serves_so;
use std::alloc::Global;
use std::test::Fail;
use test_kit::protocol::{ALL_OF_NONE, ALL_OF_ONE, FETCH_ALL, Part, SET, STORED, text_of};

/// What a SPIRE server publishes: an authority of each kind over P-256.
const REAL: &[u8] =
    b"{\n    \"keys\": [\n        {\n            \"use\": \"x509-svid\",\n            \"kty\": \"EC\",\n            \"crv\": \"P-256\",\n            \"x\": \"-G7fp-jzNHw1rvG4LS_yqvAOMknL822He5jxSNvvTBM\",\n            \"y\": \"IZ-pqtQPNwT-ATj5DnXY1n97YBJfljCTbwabVztyAbQ\",\n            \"x5c\": [\n                \"MIIBZjCCAQugAwIBAgIJAJG3WEoiZbH1MAoGCCqGSM49BAMCMB0xDjAMBgNVBAoMBVNQSVJFMQswCQYDVQQGEwJVUzAeFw0yNjAxMDEwMDAwMDBaFw0yNzAxMDEwMDAwMDBaMB0xDjAMBgNVBAoMBVNQSVJFMQswCQYDVQQGEwJVUzBZMBMGByqGSM49AgEGCCqGSM49AwEHA0IABPhu36fo8zR8Na7xuC0v8qrwDjJJy/Nth3uY8Ujb70wTIZ+pqtQPNwT+ATj5DnXY1n97YBJfljCTbwabVztyAbSjNDAyMA8GA1UdEwEB/wQFMAMBAf8wHwYDVR0RBBgwFoYUc3BpZmZlOi8vZXhhbXBsZS5vcmcwCgYIKoZIzj0EAwIDSQAwRgIhAOCQ9elfPJjrYR6wqnuDbcbLqE2/OEQ95er2HTp4cT0FAiEAy9fn5GWXXnuYP+c+/nwylq53vvHqjd/ZOO6BEhrbPRw=\"\n            ]\n        },\n        {\n            \"use\": \"jwt-svid\",\n            \"kty\": \"EC\",\n            \"crv\": \"P-256\",\n            \"x\": \"UTfGp93aN36aNN-PUhyJb6ah3wKm6QpswBpeQpXMLFY\",\n            \"y\": \"DfVcPQON1Cuf8YEd4vrVy4GIhcbDJzkPXlaBuGU-0S4\",\n            \"kid\": \"32rx2DA-Yc3Eu4bD0cQnEDw0TEGJ6y8e\"\n        }\n    ],\n    \"spiffe_sequence\": 1,\n    \"spiffe_refresh_hint\": 2419200\n}";

/// Its canonical text, as another program made it.
const REAL_TEXT: &[u8] =
    b"{\"keys\":[{\"crv\":\"P-256\",\"kty\":\"EC\",\"use\":\"x509-svid\",\"x\":\"-G7fp-jzNHw1rvG4LS_yqvAOMknL822He5jxSNvvTBM\",\"x5c\":[\"MIIBZjCCAQugAwIBAgIJAJG3WEoiZbH1MAoGCCqGSM49BAMCMB0xDjAMBgNVBAoMBVNQSVJFMQswCQYDVQQGEwJVUzAeFw0yNjAxMDEwMDAwMDBaFw0yNzAxMDEwMDAwMDBaMB0xDjAMBgNVBAoMBVNQSVJFMQswCQYDVQQGEwJVUzBZMBMGByqGSM49AgEGCCqGSM49AwEHA0IABPhu36fo8zR8Na7xuC0v8qrwDjJJy/Nth3uY8Ujb70wTIZ+pqtQPNwT+ATj5DnXY1n97YBJfljCTbwabVztyAbSjNDAyMA8GA1UdEwEB/wQFMAMBAf8wHwYDVR0RBBgwFoYUc3BpZmZlOi8vZXhhbXBsZS5vcmcwCgYIKoZIzj0EAwIDSQAwRgIhAOCQ9elfPJjrYR6wqnuDbcbLqE2/OEQ95er2HTp4cT0FAiEAy9fn5GWXXnuYP+c+/nwylq53vvHqjd/ZOO6BEhrbPRw=\"],\"y\":\"IZ-pqtQPNwT-ATj5DnXY1n97YBJfljCTbwabVztyAbQ\"},{\"crv\":\"P-256\",\"kid\":\"32rx2DA-Yc3Eu4bD0cQnEDw0TEGJ6y8e\",\"kty\":\"EC\",\"use\":\"jwt-svid\",\"x\":\"UTfGp93aN36aNN-PUhyJb6ah3wKm6QpswBpeQpXMLFY\",\"y\":\"DfVcPQON1Cuf8YEd4vrVy4GIhcbDJzkPXlaBuGU-0S4\"}],\"spiffe_refresh_hint\":2419200,\"spiffe_sequence\":1}";

/// The canonical text of 160 JWT authorities, which has 10,726 bytes.
const HEAD: Part<'static> = (b"{\"keys\":[", 1);

const MOST_KEYS: Part<'static> = (
    b"{\"e\":\"AQAB\",\"kid\":\"k####\",\"kty\":\"RSA\",\"n\":\"AQAB\",\"use\":\"jwt-svid\"},",
    159,
);

const LAST_KEY: Part<'static> = (
    b"{\"e\":\"AQAB\",\"kid\":\"k\",\"kty\":\"RSA\",\"n\":\"AQAB\",\"use\":\"jwt-svid\"}]}",
    1,
);

/// 300 domains, `d0000` to `d0299`: the requests that set them, in version 1, and those that a dump of them becomes, in version 2;
/// and the dump. What a domain publishes names it.
const SET_300: Part<'static> = (
    b"\x00\x00\x00\x54S\x05d####{\"keys\":[{\"e\":\"AQAB\",\"kid\":\"d####\",\"kty\":\"RSA\",\"n\":\"AQAB\",\"use\":\"jwt-svid\"}]}",
    300,
);

const DUMP_HEAD: Part<'static> = (b"\x00\x00\x00\x09a\x00\x00\x00\x00\x00\x00\x01\x2c", 1);

const IN_DUMP_300: Part<'static> = (
    b"\x00\x00\x00\x54i\x05d####{\"keys\":[{\"e\":\"AQAB\",\"kid\":\"d####\",\"kty\":\"RSA\",\"n\":\"AQAB\",\"use\":\"jwt-svid\"}]}",
    300,
);

pub(super) const DUMP_300: &[Part<'static>] = &[DUMP_HEAD, IN_DUMP_300];

const SET_IF_300: Part<'static> = (
    b"\x00\x00\x00\x55C\x05d####\x00{\"keys\":[{\"e\":\"AQAB\",\"kid\":\"d####\",\"kty\":\"RSA\",\"n\":\"AQAB\",\"use\":\"jwt-svid\"}]}",
    300,
);

pub(super) const MIGRATED_300: &[Part<'static>] = &[(VERSION_2, 1), SET_IF_300];

const VERSION_2: &[u8] = b"\x00\x00\x00\x02V\x02";

const UNCHANGED: &[u8] = b"\x00\x00\x00\x01u";

/// So many JWT authorities but one, and the last of them.
const KEYS_OF_1025: Part<'static> = (
    b"{\"use\":\"jwt-svid\",\"kty\":\"RSA\",\"kid\":\"k####\",\"n\":\"AQAB\",\"e\":\"AQAB\"},",
    1024,
);

const KEYS_OF_1024: Part<'static> = (
    b"{\"use\":\"jwt-svid\",\"kty\":\"RSA\",\"kid\":\"k####\",\"n\":\"AQAB\",\"e\":\"AQAB\"},",
    1023,
);

const KEY: Part<'static> = (
    b"{\"use\":\"jwt-svid\",\"kty\":\"RSA\",\"kid\":\"k\",\"n\":\"AQAB\",\"e\":\"AQAB\"}]}",
    1,
);

const APPEND_Z: Part<'static> = (
    b"\x00\x00\x00\x41A\x01a{\"use\":\"jwt-svid\",\"kty\":\"RSA\",\"kid\":\"z\",\"n\":\"AQAB\",\"e\":\"AQAB\"}",
    1,
);

/// A session over an empty map: its name, what comes in, how many requests these are, and what goes out.
type Long<'a> = (&'a str, &'a [Part<'a>], u64, &'a [Part<'a>]);

static OF_BUNDLES: [Long<'static>; 4] = [
    (
        "a real bundle is set, set again by its canonical text, got and fetched",
        &[
            (b"\x00\x00\x04\x7bS\x02td", 1),
            (REAL, 1),
            (b"\x00\x00\x03\x79S\x02td", 1),
            (REAL_TEXT, 1),
            (b"\x00\x00\x00\x04G\x02td", 1),
            (FETCH_ALL, 1),
        ],
        4,
        &[
            (STORED, 1),
            (UNCHANGED, 1),
            (b"\x00\x00\x03\x76f", 1),
            (REAL_TEXT, 1),
            (
                b"\x00\x00\x00\x09a\x00\x00\x00\x00\x00\x00\x00\x01\x00\x00\x03\x79i\x02td",
                1,
            ),
            (REAL_TEXT, 1),
        ],
    ),
    (
        "a document of 10 kB",
        &[
            (b"\x00\x00\x29\xeaS\x02td", 1),
            HEAD,
            MOST_KEYS,
            LAST_KEY,
            (b"\x00\x00\x29\xeaS\x02td", 1),
            HEAD,
            MOST_KEYS,
            LAST_KEY,
            (b"\x00\x00\x00\x04G\x02td", 1),
            (FETCH_ALL, 1),
        ],
        4,
        &[
            (STORED, 1),
            (UNCHANGED, 1),
            (b"\x00\x00\x29\xe7f", 1),
            HEAD,
            MOST_KEYS,
            LAST_KEY,
            (
                b"\x00\x00\x00\x09a\x00\x00\x00\x00\x00\x00\x00\x01\x00\x00\x29\xeai\x02td",
                1,
            ),
            HEAD,
            MOST_KEYS,
            LAST_KEY,
        ],
    ),
    (
        "300 domains are set and fetched",
        &[SET_300, (FETCH_ALL, 1)],
        301,
        &[(STORED, 300), DUMP_HEAD, IN_DUMP_300],
    ),
    (
        "what their dump becomes is served and fetched",
        &[(VERSION_2, 1), SET_IF_300, (FETCH_ALL, 1)],
        302,
        &[
            (b"\x00\x00\x00\x02v\x02", 1),
            (STORED, 300),
            DUMP_HEAD,
            IN_DUMP_300,
        ],
    ),
];

/// What is as long as it may be, or longer.
static LONGEST: [Long<'static>; 3] = [
    (
        "the longest document",
        &[
            (b"\x00\x10\x00\x03S\x01a{\"keys\":[]}", 1),
            (b"     ", 209_713),
        ],
        1,
        &[(STORED, 1)],
    ),
    (
        "a document that is a byte longer",
        &[
            (b"\x00\x10\x00\x04S\x01a{\"keys\":[]}", 1),
            (b"      ", 174_761),
        ],
        1,
        &[(b"\x00\x00\x00\x01\x0a", 1)],
    ),
    (
        "the longest payload, of one letter over and over",
        &[
            (b"\x00\x10\x01\xa8", 1),
            (b"ZZZZZZZZ", 131_125),
            (FETCH_ALL, 1),
        ],
        2,
        &[(b"\x00\x00\x00\x01\x33", 1), (ALL_OF_NONE, 1)],
    ),
];

static OF_SIZES: [Long<'static>; 4] = [
    (
        "a hundred thousand requests",
        &[
            (SET, 1),
            (b"\x00\x00\x00\x03G\x01a\x00\x00\x00\x03G\x01b", 49_999),
            (FETCH_ALL, 1),
        ],
        100_000,
        &[
            (STORED, 1),
            (
                b"\x00\x00\x00\x0cf{\"keys\":[]}\x00\x00\x00\x01\x1e",
                49_999,
            ),
            (ALL_OF_ONE, 1),
        ],
    ),
    (
        "entry 66,051 is malformed: its place fills three of the four bytes",
        &[
            (b"\x00\x03\x06\x18S\x01a{\"keys\":[", 1),
            (b"{},", 66_051),
            (b"5]}", 1),
        ],
        1,
        &[(b"\x00\x00\x00\x05\x10\x00\x01\x02\x03", 1)],
    ),
    (
        "1,025 authorities are refused, and 1,024 are stored and take no other one",
        &[
            (b"\x00\x01\x0c\x4cS\x01a{\"keys\":[", 1),
            KEYS_OF_1025,
            KEY,
            (b"\x00\x01\x0c\x09S\x01a{\"keys\":[", 1),
            KEYS_OF_1024,
            KEY,
            APPEND_Z,
        ],
        3,
        &[
            (b"\x00\x00\x00\x01\x15", 1),
            (STORED, 1),
            (b"\x00\x00\x00\x01\x21", 1),
        ],
    ),
    (
        "a certificate of 1,048,500 letters makes a canonical text of 1,048,575 bytes, which takes no other key",
        &[
            (
                b"\x00\x10\x00\x02S\x01a{\"keys\":[{\"e\":\"AQAB\",\"kty\":\"RSA\",\"n\":\"AQAB\",\"use\":\"x509-svid\",\"x5c\":[\"",
                1,
            ),
            (b"AAAAAAAAAA", 104_850),
            (b"\"]}]}", 1),
            APPEND_Z,
        ],
        2,
        &[(STORED, 1), (b"\x00\x00\x00\x01\x22", 1)],
    ),
];

/// Each session has its replies, in pieces of this size.
fn serves_each(alloc: Global, rows: &[Long<'_>], size: usize) -> Result<(), Fail> {
    for &(name, input, count, output) in rows {
        let input = text_of(alloc, input)?;
        let output = text_of(alloc, output)?;
        let coming = (input.as_slice(), size, size);
        let wanted = (Ok(count), output.as_slice());
        serves_so(alloc, name, coming, 1_000_000_000, wanted)?;
    }
    Ok(())
}

#[test]
fn long_sessions(rt: HostRuntime) -> Result<(), Fail> {
    serves_each(rt.alloc(), &OF_BUNDLES, 4096)?;
    serves_each(rt.alloc(), &OF_SIZES, 4096)
}

#[test]
fn the_longest_payloads(rt: HostRuntime) -> Result<(), Fail> {
    serves_each(rt.alloc(), &LONGEST, 4096)
}

#[test]
fn the_longest_payloads_in_bytes(rt: HostRuntime) -> Result<(), Fail> {
    serves_each(rt.alloc(), &LONGEST, 1)
}
