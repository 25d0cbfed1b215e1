//! Appends of the longest authority, and of one that is a byte longer.
ghost use Rattle.spiffe_doc.specs.Key.{IsRsaMember};

use super::exchanges::answers_so;
use super::is_answered;
use client::{Client, RequestError, write_request};
use map_core::{Ask, AskError, Op};
use spiffe_doc::{Authority, Certificate, Octets, PublicKey, RsaKey, TrustDomain};
use std::alloc::Global;
use std::test::Fail;
use test_kit::protocol::{ABSENT, SET, STORED};
use test_kit::{Shown, is_answer, is_equal};
use wire::Counted;

/// The append of an authority with this key, and a certificate of 786,384 bytes, which are 1,048,512 of base64.
fn append_of(alloc: Global, n: Octets, e: Octets) -> Result<Op, Fail>
    requires n_fits { IsRsaMember n }
    requires e_fits { IsRsaMember e }
{
    let key = PublicKey::Rsa(RsaKey::new(n, e));
    let der = Certificate::new(Octets::new(vec![in alloc; 0; 786_384]?));
    let domain = TrustDomain::parse(alloc, "a")?;
    Ok(Op::Append(domain, Authority::X509 { key, der }))
}

/// The append of an authority whose text has 1,048,576 bytes.
fn longest_append(alloc: Global) -> Result<Op, Fail> {
    let n = Vec::from_slice(alloc, b"\x01\x00\x01")?;
    let e = Vec::from_slice(alloc, b"\x01\x00\x01")?;
    append_of(alloc, Octets::new(n), Octets::new(e))
}

/// And one of 1,048,577: the modulus takes two characters more, and the exponent one less.
fn longer_append(alloc: Global) -> Result<Op, Fail> {
    let n = Vec::from_slice(alloc, b"\x01\x00\x01\x00")?;
    let e = Vec::from_slice(alloc, b"\x01\x00")?;
    append_of(alloc, Octets::new(n), Octets::new(e))
}

// The longest text is appended: the server says that there is no bundle, and not that the text is too long.
#[test]
fn the_longest_append(rt: HostRuntime) -> Result<(), Fail> {
    let alloc = rt.alloc();
    let longest = longest_append(alloc)?;
    let mut client = Client::new(alloc, Counted::new(ABSENT), Counted::new(Vec::new(alloc)));
    let answer = client.ask(longest);
    let (_, writer) = client.into_ends();
    let is_so = is_answer(alloc, Shown::Whole, ("the longest", "refused 30"), &answer);
    drop(answer);
    is_so?;
    is_equal(&writer.end().len(), &1_048_583)?;
    answers_so(alloc, writer.end().as_slice(), 1, ABSENT)
}

// One byte more, and nothing is written; the client goes on.
#[test]
fn what_is_not_asked(rt: HostRuntime) -> Result<(), Fail> {
    let alloc = rt.alloc();
    let longer = longer_append(alloc)?;
    let mut client = Client::new(alloc, Counted::new(STORED), Counted::new(Vec::new(alloc)));
    let answer = client.ask(longer);
    let was_shut = matches!(answer, Err(AskError::GateShut));
    drop(answer);
    let ended = client.ended();
    let is_stored = is_answered(alloc, &mut client, ("set a -", "stored"), None);
    let (_, writer) = client.into_ends();
    is_stored?;
    let found = (was_shut, ended, writer.end().as_slice());
    is_equal(&found, &(true, None, SET))
}

#[test]
fn what_is_not_written(rt: HostRuntime) -> Result<(), Fail> {
    let longer = longer_append(rt.alloc())?;
    let mut writer = Counted::new(Vec::new(rt.alloc()));
    let told = write_request(rt.alloc(), &mut writer, &longer);
    drop(longer);
    is_equal(
        &(told, writer.end().len()),
        &(Err(RequestError::TooLong), 0),
    )
}
