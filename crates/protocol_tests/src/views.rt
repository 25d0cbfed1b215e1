//! Worked examples of what is told of dumps.
mod bundles;
mod diffs;
mod digests;
mod pems;

use std::alloc::{AllocError, Global};

/// Names and documents.
type Domains = &'static [(&'static str, &'static str)];

fn put_all(text: &mut Vec<u8>, pieces: &[&[u8]]) -> Result<(), AllocError> {
    for &piece in pieces {
        text.extend_from_slice(piece)?;
    }
    Ok(())
}

/// Adds the entry of an authority. That of a certificate is written as its base64, `MAA=`, and that of a JWT key as its key ID
/// and its modulus, `j1:AQAC`, or `j1` for `j1:AQAB`.
fn put_entry(text: &mut Vec<u8>, word: &str) -> Result<(), AllocError> {
    if word.ends_with('=') {
        let first: &[u8] =
            b"{\"crv\":\"P-256\",\"kty\":\"EC\",\"use\":\"x509-svid\",\"x\":\"AAAAAAAAAAAAAAAAAAAAAAAAAAAAAAAAAAAAAAAAAAA\",\"x5c\":[\"";
        let last: &[u8] = b"\"],\"y\":\"AAAAAAAAAAAAAAAAAAAAAAAAAAAAAAAAAAAAAAAAAAA\"}";
        return put_all(text, &[first, word.as_bytes(), last]);
    }
    let (kid, n) = word.split_once(':').unwrap_or((word, "AQAB"));
    put_all(
        text,
        &[
            b"{\"e\":\"AQAB\",\"kid\":\"",
            kid.as_bytes(),
            b"\",\"kty\":\"RSA\",\"n\":\"",
            n.as_bytes(),
            b"\",\"use\":\"jwt-svid\"}",
        ],
    )
}

/// Adds a document: itself, or its sequence, its refresh hint and its authorities, `4/300/MAA=,j1`. A `-` is no number.
fn put_document(text: &mut Vec<u8>, word: &str) -> Result<(), AllocError> {
    if word.starts_with('{') {
        return text.extend_from_slice(word.as_bytes());
    }
    let (sequence, rest) = word.split_once('/').unwrap_or(("-", ""));
    let (hint, entries) = rest.split_once('/').unwrap_or(("-", ""));
    text.extend_from_slice(b"{\"keys\":[")?;
    let mut rest = entries;
    for at in 0..entries.len() {
        let (entry, others) = rest.split_once(',').unwrap_or((rest, ""));
        if entry.is_empty() {
            break;
        }
        if at > 0 {
            text.push(b',')?;
        }
        put_entry(text, entry)?;
        rest = others;
    }
    text.push(b']')?;
    if hint != "-" {
        put_all(text, &[b",\"spiffe_refresh_hint\":", hint.as_bytes()])?;
    }
    if sequence != "-" {
        put_all(text, &[b",\"spiffe_sequence\":", sequence.as_bytes()])?;
    }
    text.extend_from_slice(b"}")
}

/// Adds the frame of a domain of a dump.
fn put_item(alloc: Global, dump: &mut Vec<u8>, name: &str, word: &str) -> Result<(), AllocError> {
    let mut item = Vec::from_slice(alloc, b"i")?;
    item.push(u8::try_from(name.len()).unwrap_or(0))?;
    item.extend_from_slice(name.as_bytes())?;
    put_document(&mut item, word)?;
    dump.extend_from_slice(&u32::try_from(item.len()).unwrap_or(0).to_be_bytes())?;
    dump.extend_from_slice(&item)
}

/// The dump of these domains and documents, as docs/FORMATS.md has it: a frame with their number, and one for each.
fn dump_of(alloc: Global, domains: &[(&str, &str)]) -> Result<Vec<u8>, AllocError> {
    let mut dump = Vec::from_slice(alloc, b"\x00\x00\x00\x09a")?;
    dump.extend_from_slice(&(domains.len() as u64).to_be_bytes())?;
    for &(name, word) in domains {
        put_item(alloc, &mut dump, name, word)?;
    }
    Ok(dump)
}
