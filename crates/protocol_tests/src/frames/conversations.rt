//! What payloads are answered, one after the other in a session over an empty map: what is refused, and where the fault stands.
use super::serves_so;
use std::alloc::{AllocError, Global};
use std::test::Fail;
use test_kit::protocol::{ABSENT, STORED};

/// A payload, and the reply to it.
type Turn<'a> = (&'a [u8], &'a [u8]);

static KEYS_AT_FAULT: [Turn<'static>; 6] = [
    (
        b"S\x01a{\"keys\":[{\"kty\":\"OKP\",\"use\":\"jwt-svid\"},5]}",
        b"\x00\x00\x00\x05\x10\x00\x00\x00\x01",
    ),
    (
        b"S\x01a{\"keys\":[{},{\"use\":\"jwt-svid\",\"kty\":\"RSA\",\"kid\":\"k\",\"n\":\"\",\"e\":\"AQAB\"}]}",
        b"\x00\x00\x00\x05\x11\x00\x00\x00\x01",
    ),
    (
        b"S\x01a{\"keys\":[{},{},{\"use\":\"x509-svid\",\"kty\":\"RSA\",\"n\":\"AQAB\",\"e\":\"AQAB\",\"x5c\":[\"MAA\"]}]}",
        b"\x00\x00\x00\x05\x12\x00\x00\x00\x02",
    ),
    (
        b"S\x01a{\"keys\":[{},{},{},{\"use\":\"jwt-svid\",\"kty\":\"RSA\",\"n\":\"AQAB\",\"e\":\"AQAB\"}]}",
        b"\x00\x00\x00\x05\x13\x00\x00\x00\x03",
    ),
    (
        b"S\x01a{\"keys\":[{\"use\":\"jwt-svid\",\"kty\":\"RSA\",\"kid\":\"k\",\"n\":\"AQAB\",\"e\":\"AQAB\"},{\"use\":\"jwt-svid\",\"kty\":\"RSA\",\"kid\":\"k\",\"n\":\"AQAC\",\"e\":\"AQAB\"}]}",
        b"\x00\x00\x00\x05\x14\x00\x00\x00\x01",
    ),
    (b"F", b"\x00\x00\x00\x09a\x00\x00\x00\x00\x00\x00\x00\x00"),
];

const APPEND_Z: &[u8] =
    b"A\x01a{\"use\":\"jwt-svid\",\"kty\":\"RSA\",\"kid\":\"z\",\"n\":\"AQAB\",\"e\":\"AQAB\"}";

static APPENDS_THAT_ARE_REFUSED: [Turn<'static>; 6] = [
    (
        b"S\x01a{\"keys\":[{\"use\":\"jwt-svid\",\"kty\":\"RSA\",\"kid\":\"z\",\"n\":\"AQAC\",\"e\":\"AQAB\"}]}",
        STORED,
    ),
    (APPEND_Z, b"\x00\x00\x00\x01\x20"),
    (
        b"S\x01a{\"keys\":[],\"spiffe_sequence\":18446744073709551615}",
        STORED,
    ),
    (APPEND_Z, b"\x00\x00\x00\x01\x23"),
    (
        b"S\x01a{\"keys\":[],\"spiffe_sequence\":18446744073709551614}",
        b"\x00\x00\x00\x09\x1f\xff\xff\xff\xff\xff\xff\xff\xff",
    ),
    (
        b"S\x01b{\"keys\":[],\"spiffe_sequence\":18446744073709551616}",
        b"\x00\x00\x00\x01\x0e",
    ),
];

/// A document that has sequence 5, and a key.
const OTHER: &[u8] =
    b"S\x01a{\"keys\":[{\"use\":\"jwt-svid\",\"kty\":\"RSA\",\"kid\":\"k\",\"n\":\"AQAB\",\"e\":\"AQAB\"}],\"spiffe_sequence\":5}";

/// A lower sequence is refused, an equal one and none are not.
static SEQUENCES: [Turn<'static>; 5] = [
    (b"S\x01a{\"keys\":[],\"spiffe_sequence\":5}", STORED),
    (
        b"S\x01a{\"keys\":[],\"spiffe_sequence\":4}",
        b"\x00\x00\x00\x09\x1f\x00\x00\x00\x00\x00\x00\x00\x05",
    ),
    (OTHER, STORED),
    (OTHER, b"\x00\x00\x00\x01u"),
    (b"S\x01a{\"keys\":[]}", STORED),
];

const REMOVED: &[u8] = b"\x00\x00\x00\x01d";

/// A removed domain keeps its sequence, and one that had none leaves nothing.
static REMOVALS: [Turn<'static>; 12] = [
    (b"S\x01a{\"keys\":[],\"spiffe_sequence\":5}", STORED),
    (b"R\x01a", REMOVED),
    (b"G\x01a", ABSENT),
    (
        b"S\x01a{\"keys\":[],\"spiffe_sequence\":4}",
        b"\x00\x00\x00\x09\x1f\x00\x00\x00\x00\x00\x00\x00\x05",
    ),
    (APPEND_Z, ABSENT),
    (b"R\x01a", ABSENT),
    (b"F", b"\x00\x00\x00\x09a\x00\x00\x00\x00\x00\x00\x00\x00"),
    (b"S\x01a{\"keys\":[],\"spiffe_sequence\":5}", STORED),
    (b"R\x01a", REMOVED),
    (b"S\x01a{\"keys\":[]}", STORED),
    (b"R\x01a", REMOVED),
    (b"S\x01a{\"keys\":[],\"spiffe_sequence\":1}", STORED),
];

/// Adds a frame of this payload.
fn put_frame(out: &mut Vec<u8>, payload: &[u8]) -> Result<(), AllocError> {
    let size = u32::try_from(payload.len()).unwrap_or(u32::MAX);
    out.extend_from_slice(&size.to_be_bytes())?;
    out.extend_from_slice(payload)
}

/// Each payload has its reply.
fn is_held(alloc: Global, conversation: &[Turn<'_>]) -> Result<(), Fail> {
    let mut input = Vec::new(alloc);
    let mut output = Vec::new(alloc);
    let mut count: u64 = 0;
    for &(payload, reply) in conversation {
        put_frame(&mut input, payload)?;
        output.extend_from_slice(reply)?;
        count = count.saturating_add(1);
    }
    let coming = (input.as_slice(), 4096, 4096);
    let wanted = (Ok(count), output.as_slice());
    serves_so(alloc, "a conversation", coming, 1000, wanted)
}

#[test]
fn conversations(rt: HostRuntime) -> Result<(), Fail> {
    is_held(rt.alloc(), &KEYS_AT_FAULT)?;
    is_held(rt.alloc(), &APPENDS_THAT_ARE_REFUSED)?;
    is_held(rt.alloc(), &SEQUENCES)?;
    is_held(rt.alloc(), &REMOVALS)
}
