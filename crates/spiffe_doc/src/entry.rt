//! Entries of a bundle document (RFC 7517 section 4, RFC 7518 section 6).
ghost use Rattle.std.specs.Prelude.{◌≡◌, ◌⊎◌, codes, length, Ok, Err, option_map, option_and_then, nat_lt, nat_le, ◌&&◌, IfOk, MatchResult};
ghost use Rattle.std.specs.Str.{is_utf8};
ghost use Rattle.serde_json.specs.Find.{get, as_array};
ghost use Rattle.spiffe_doc.specs.Entry.{member_text as text_of_member};
ghost use Rattle.spiffe_doc.specs.Judgement as judged;
ghost use Rattle.spiffe_doc.specs.Private.Borrowed.{tree_data, list_data};
ghost use Rattle.spiffe_doc.specs.Private.Given.{key_given, authority_given};

use crate::encoded::{Standard, UrlSafe};
use crate::error::DocError;
use crate::given::{Given, GivenKey};
use crate::key::Curve;
use crate::tree::{array, is_object, member, string};
use json::Value;
use std::alloc::{AllocError, Allocator};

/// The most bytes that a member of an RSA key has.
const MAX_RSA_MEMBER: usize = 1024;

/// The most bytes that a key id has.
const MAX_KEY_ID: usize = 255;

/// What `kty` says.
#[derive(Clone, Copy, Drop)]
pub(crate) enum KeyType {
    Ec,
    Rsa,
}

/// What `use` says.
#[derive(Clone, Copy, Drop)]
pub(crate) enum KeyUse {
    X509,
    Jwt,
}

/// The text of a member, if it is one.
fn member_text<'a, A: Allocator>(entry: &Value<'a, A>, name: &str) -> Option<&'a str>
    ensures { option_map (λ text. text.now) result ≡ text_of_member name.now (tree_data entry.now) }
{
    string(member(entry, name)?)
}

fn key_type_named(text: &str) -> Option<KeyType>
    ensures { result ≡ judged.key_type_named text.now }
{
    if text == "EC" {
        Some(KeyType::Ec)
    } else if text == "RSA" {
        Some(KeyType::Rsa)
    } else {
        None
    }
}

fn key_use_named(text: &str) -> Option<KeyUse>
    ensures { result ≡ judged.key_use_named text.now }
{
    if text == "x509-svid" {
        Some(KeyUse::X509)
    } else if text == "jwt-svid" {
        Some(KeyUse::Jwt)
    } else {
        None
    }
}

fn curve_named(text: &str) -> Option<Curve>
    ensures { result ≡ judged.curve_named text.now }
{
    if text == "P-256" {
        Some(Curve::P256)
    } else if text == "P-384" {
        Some(Curve::P384)
    } else if text == "P-521" {
        Some(Curve::P521)
    } else {
        None
    }
}

fn key_type<A: Allocator>(entry: &Value<'_, A>) -> Option<KeyType>
    ensures { result ≡ judged.key_type (tree_data entry.now) }
{
    key_type_named(member_text(entry, "kty")?)
}

fn key_use<A: Allocator>(entry: &Value<'_, A>) -> Option<KeyUse>
    ensures { result ≡ judged.key_use (tree_data entry.now) }
{
    key_use_named(member_text(entry, "use")?)
}

/// A key's member. What has to be decoded to tell whether it is base64 is decoded in memory of `scratch`, here and below.
#[tactic(auto, unfolding(crate::specs::Judgement::key_bytes))]
fn key_bytes<'a, A: Allocator>(
    scratch: A,
    entry: &Value<'a, A>,
    name: &str,
) -> Result<Option<UrlSafe<'a>>, AllocError>
    ensures { IfOk result (λ found. found ≡ judged.key_bytes name.now (tree_data entry.now)) }
{
    match member_text(entry, name) {
        Some(text) => UrlSafe::read(scratch, text),
        None => Ok(None),
    }
}

#[tactic(auto, unfolding(crate::specs::Judgement::key_bytes))]
fn coordinate<'a, A: Allocator>(
    scratch: A,
    entry: &Value<'a, A>,
    name: &str,
    curve: Curve,
) -> Result<Option<UrlSafe<'a>>, AllocError>
    ensures { IfOk result (λ found. found ≡ judged.coordinate curve name.now (tree_data entry.now)) }
{
    match key_bytes(scratch, entry, name)? {
        Some(bytes) if bytes.len() == curve.coordinate_len() => Ok(Some(bytes)),
        _ => Ok(None),
    }
}

#[tactic(auto, unfolding(crate::specs::Judgement::key_bytes))]
fn rsa_member<'a, A: Allocator>(
    scratch: A,
    entry: &Value<'a, A>,
    name: &str,
) -> Result<Option<UrlSafe<'a>>, AllocError>
    ensures { IfOk result (λ found. found ≡ judged.rsa_member name.now (tree_data entry.now)) }
{
    match key_bytes(scratch, entry, name)? {
        Some(bytes) if bytes.len() > 0 && bytes.len() <= MAX_RSA_MEMBER => Ok(Some(bytes)),
        _ => Ok(None),
    }
}

#[tactic(auto, unfolding(crate::specs::Judgement::point_key))]
fn point_key<'a, A: Allocator + Copy>(
    scratch: A,
    place: usize,
    entry: &Value<'a, A>,
    curve: Curve,
) -> Result<GivenKey<'a>, DocError>
    ensures { MatchResult result
        (λ key. judged.point_key place curve (tree_data entry.now) ≡ Ok (key_given key))
        (λ e. (e ≡ DocError.Memory) ⊎ (judged.point_key place curve (tree_data entry.now) ≡ Err e)) }
{
    let Some(x) = coordinate(scratch, entry, "x", curve)? else {
        return Err(DocError::BadKey(place));
    };
    let Some(y) = coordinate(scratch, entry, "y", curve)? else {
        return Err(DocError::BadKey(place));
    };
    Ok(GivenKey::Ec { curve, x, y })
}

#[tactic(auto, unfolding(crate::specs::Judgement::rsa_key))]
fn rsa_key<'a, A: Allocator + Copy>(
    scratch: A,
    place: usize,
    entry: &Value<'a, A>,
) -> Result<GivenKey<'a>, DocError>
    ensures { MatchResult result
        (λ key. judged.rsa_key place (tree_data entry.now) ≡ Ok (key_given key))
        (λ e. (e ≡ DocError.Memory) ⊎ (judged.rsa_key place (tree_data entry.now) ≡ Err e)) }
{
    let Some(n) = rsa_member(scratch, entry, "n")? else {
        return Err(DocError::BadKey(place));
    };
    let Some(e) = rsa_member(scratch, entry, "e")? else {
        return Err(DocError::BadKey(place));
    };
    Ok(GivenKey::Rsa { n, e })
}

/// The key of an entry of this type, or `None` if its curve is unknown.
#[tactic(auto, unfolding(crate::specs::Judgement::key_of))]
fn key_of<'a, A: Allocator + Copy>(
    scratch: A,
    place: usize,
    key_type: KeyType,
    entry: &Value<'a, A>,
) -> Result<Option<GivenKey<'a>>, DocError>
    ensures { MatchResult result
        (λ key. judged.key_of place key_type (tree_data entry.now) ≡ Ok (option_map key_given key))
        (λ e. (e ≡ DocError.Memory) ⊎ (judged.key_of place key_type (tree_data entry.now) ≡ Err e)) }
{
    match key_type {
        KeyType::Ec => {
            let Some(name) = member_text(entry, "crv") else {
                return Err(DocError::BadKey(place));
            };
            match curve_named(name) {
                Some(curve) => Ok(Some(point_key(scratch, place, entry, curve)?)),
                None => Ok(None),
            }
        }
        KeyType::Rsa => Ok(Some(rsa_key(scratch, place, entry)?)),
    }
}

/// The text of a list of one text.
#[tactic(auto, using(crate::proofs::MemberLemmas::only_text_none))]
fn only_text<'a, A: Allocator>(list: &Vec<Value<'a, A>, A>) -> Option<&'a str>
    ensures { option_map (λ text. text.now) result ≡ judged.only_text (list_data list.now.items) }
{
    if list.len() == 1 {
        string(&list[0])
    } else {
        None
    }
}

/// The text of an `x5c` that is a list of one text.
fn x5c_text<'a, A: Allocator>(entry: &Value<'a, A>) -> Option<&'a str>
    ensures { option_map (λ text. text.now) result
        ≡ option_and_then judged.only_text (option_and_then as_array (get (codes "x5c") (tree_data entry.now))) }
{
    only_text(array(member(entry, "x5c")?)?)
}

#[tactic(auto, unfolding(crate::specs::Judgement::der_bytes))]
fn certificate<'a, A: Allocator>(
    scratch: A,
    entry: &Value<'a, A>,
) -> Result<Option<Standard<'a>>, AllocError>
    ensures { IfOk result (λ found. found ≡ judged.certificate (tree_data entry.now)) }
{
    let Some(text) = x5c_text(entry) else {
        return Ok(None);
    };
    match Standard::read(scratch, text)? {
        Some(der) if der.len() > 0 => Ok(Some(der)),
        _ => Ok(None),
    }
}

fn is_key_id(text: &str) -> bool
    ensures { result ≡ (nat_lt 0 (length text.now) && nat_le (length text.now) 255 && is_utf8 text.now) }
{
    !text.is_empty() && text.len() <= MAX_KEY_ID
}

fn key_id<'a, A: Allocator>(entry: &Value<'a, A>) -> Option<&'a str>
    ensures { option_map (λ kid. kid.now) result ≡ judged.key_id (tree_data entry.now) }
{
    let text = member_text(entry, "kid")?;
    if is_key_id(text) { Some(text) } else { None }
}

#[tactic(auto, unfolding(crate::specs::Judgement::authority_for))]
fn given_for<'a, A: Allocator>(
    scratch: A,
    place: usize,
    key_use: KeyUse,
    key: GivenKey<'a>,
    entry: &Value<'a, A>,
) -> Result<Given<'a>, DocError>
    ensures { MatchResult result
        (λ given. judged.authority_for place key_use (key_given key.entry) (tree_data entry.now) ≡ Ok (authority_given given))
        (λ e. (e ≡ DocError.Memory) ⊎ (judged.authority_for place key_use (key_given key.entry) (tree_data entry.now) ≡ Err e)) }
{
    match key_use {
        KeyUse::X509 => match certificate(scratch, entry)? {
            Some(x5c) => Ok(Given::X509 { key, x5c }),
            None => Err(DocError::BadX5c(place)),
        },
        KeyUse::Jwt => match key_id(entry) {
            Some(kid) => Ok(Given::Jwt { kid, key }),
            None => Err(DocError::BadKid(place)),
        },
    }
}

/// The entry at this place of a document: its authority, or `None` if it is ignored.
#[tactic(auto, unfolding(crate::specs::Judgement::judge))]
pub(crate) fn judge<'a, A: Allocator + Copy>(
    scratch: A,
    place: usize,
    entry: &Value<'a, A>,
) -> Result<Option<Given<'a>>, DocError>
    ensures { MatchResult result
        (λ given. judged.judge place (tree_data entry.now) ≡ Ok (option_map authority_given given))
        (λ e. (e ≡ DocError.Memory) ⊎ (judged.judge place (tree_data entry.now) ≡ Err e)) }
{
    if !is_object(entry) {
        return Err(DocError::BadEntry(place));
    }
    let Some(key_type) = key_type(entry) else {
        return Ok(None);
    };
    let Some(key_use) = key_use(entry) else {
        return Ok(None);
    };
    let Some(key) = key_of(scratch, place, key_type, entry)? else {
        return Ok(None);
    };
    Ok(Some(given_for(scratch, place, key_use, key, entry)?))
}
