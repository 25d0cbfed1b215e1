//! Operations, as words.
use hex::FromHex;
use map_core::{DumpDigest, Expect, Op};
use spiffe_doc::{Authority, Bundle, DocError, TrustDomain, read_document, read_entry};
use std::alloc::{AllocError, Global};
use std::test::Fail;

/// The X.509 authority with an EC key that the word `x509` stands for.
const X509_ENTRY: &str =
    "{\"use\":\"x509-svid\",\"kty\":\"EC\",\"crv\":\"P-256\",\"x\":\"AAAAAAAAAAAAAAAAAAAAAAAAAAAAAAAAAAAAAAAAAAA\",\"y\":\"AAAAAAAAAAAAAAAAAAAAAAAAAAAAAAAAAAAAAAAAAAA\",\"x5c\":[\"MAA=\"]}";

/// A modulus: `AQAB`, or `A*1366` for so many letters A.
fn modulus_text(alloc: Global, word: &str) -> Result<String, AllocError> {
    match word.split_once('*') {
        Some((letter, count)) => letter.repeat(alloc, count.parse().unwrap_or(0)),
        None => String::from_str(alloc, word),
    }
}

/// The entry of an authority, written as `x509`, or as the key ID and the modulus of a JWT authority: `k:AQAB`, or `k` for short.
pub fn entry_text(alloc: Global, word: &str) -> Result<String, AllocError> {
    if word == "x509" {
        return String::from_str(alloc, X509_ENTRY);
    }
    let (kid, n) = word.split_once(':').unwrap_or((word, "AQAB"));
    let n = modulus_text(alloc, n)?;
    format!(in alloc;
        "{{\"use\":\"jwt-svid\",\"kty\":\"RSA\",\"n\":\"{n}\",\"e\":\"AQAB\",\"kid\":\"{kid}\"}}"
    )
}

/// An authority: such a word, or its entry.
fn authority(alloc: Global, word: &str) -> Result<Authority, Fail> {
    let found = if word.starts_with('{') {
        read_entry(alloc, word.as_bytes())?
    } else {
        read_entry(alloc, entry_text(alloc, word)?.as_bytes())?
    };
    match found {
        Some(authority) => Ok(authority),
        None => Err(Fail::from("the entry is ignored")),
    }
}

/// The member `keys` of a document with these entries.
fn keys_text(alloc: Global, entries: &str) -> Result<String, AllocError> {
    let mut text = String::from_str(alloc, "\"keys\":[")?;
    let mut rest = entries;
    for count in 0..entries.len() {
        let (entry, others) = rest.split_once(',').unwrap_or((rest, ""));
        if entry.is_empty() {
            break;
        }
        if count > 0 {
            text.push(',')?;
        }
        text.push_str(entry_text(alloc, entry)?.as_str())?;
        rest = others;
    }
    text.push(']')?;
    Ok(text)
}

/// The document of a bundle that is written as its sequence or `-`, and after a slash its authorities: `5/k:AQAB,x509`.
fn document_text(alloc: Global, word: &str) -> Result<String, AllocError> {
    let (sequence, entries) = word.split_once('/').unwrap_or((word, ""));
    let keys = keys_text(alloc, entries)?;
    match sequence {
        "-" => format!(in alloc; "{{{keys}}}"),
        _ => format!(in alloc; "{{{keys},\"spiffe_sequence\":{sequence}}}"),
    }
}

/// A bundle: such a word, or its document.
pub fn bundle(alloc: Global, word: &str) -> Result<Bundle, DocError> {
    if word.starts_with('{') {
        return read_document(alloc, word.as_bytes());
    }
    read_document(alloc, document_text(alloc, word)?.as_bytes())
}

fn expect(word: &str) -> Result<Expect, Fail> {
    match word {
        "absent" => Ok(Expect::Absent),
        "none" => Ok(Expect::Unnumbered),
        _ => Ok(Expect::Sequence(word.parse()?)),
    }
}

/// The operation on this name that a verb and the words after the name are.
fn named(alloc: Global, domain: TrustDomain, verb: &str, rest: &str) -> Result<Op, Fail> {
    match verb {
        "set" => Ok(Op::Set(domain, bundle(alloc, rest)?)),
        "setif" => {
            let (expected, rest) = rest.split_once(' ').unwrap_or((rest, ""));
            Ok(Op::SetIf(domain, expect(expected)?, bundle(alloc, rest)?))
        }
        "append" => Ok(Op::Append(domain, authority(alloc, rest)?)),
        "remove" => Ok(Op::Remove(domain)),
        "get" => Ok(Op::Get(domain)),
        _ => Err(Fail::from("no operation has this name")),
    }
}

/// A digest of 64 hexadecimal digits.
fn digest(word: &str) -> Result<DumpDigest, Fail> {
    match <DumpDigest as FromHex>::from_hex(word) {
        Ok(digest) => Ok(digest),
        Err(_) => Err(Fail::from("the word is no digest")),
    }
}

/// The operation of a line: `set a 5`, `setif a absent 5`, `append a k`, `remove a`, `get a`, `fetch` or `fetch unless`
/// with a digest.
pub fn operation(alloc: Global, line: &str) -> Result<Op, Fail> {
    let (verb, rest) = line.split_once(' ').unwrap_or((line, ""));
    let (name, rest) = rest.split_once(' ').unwrap_or((rest, ""));
    match verb {
        "fetch" if name == "unless" => Ok(Op::FetchUnless(digest(rest)?)),
        "fetch" => Ok(Op::FetchAll),
        _ => named(alloc, TrustDomain::parse(alloc, name)?, verb, rest),
    }
}
