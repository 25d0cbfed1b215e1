//! Why an entry is ignored.
ghost use Rattle.std.specs.Prelude.{◌≡◌, IfOk, option_map};
ghost use Rattle.serde_json.specs.Find.{get};
ghost use Rattle.serde_json.specs.View.{view};
ghost use Rattle.spiffe_doc.specs.Entry.{member_text as text_of_member};
ghost use Rattle.doc_report.specs.Ignored.{held as held_in, is_known_type as known_type, is_known_use as known_use, is_known_curve as known_curve, is_ec as ec_named, curve_reason, reason as reason_for};

use crate::ignored::{Held, Reason};
use crate::member_text::MemberText;
use serde_json::Value;
use std::alloc::{AllocError, Global};

/// Why the entry is ignored, if it is.
#[tactic(auto, unfolding(crate::specs::Ignored::reason))]
pub(crate) fn reason(alloc: Global, entry: &Value) -> Result<Option<Reason>, AllocError>
    ensures { IfOk result (λ found. found ≡ reason_for (view entry.now)) }
{
    if !entry.is_object() {
        return Ok(None);
    }
    if !is_known_type(text(entry, "kty")) {
        return Ok(Some(Reason::OtherType(held(alloc, entry, "kty")?)));
    }
    if !is_known_use(text(entry, "use")) {
        return Ok(Some(Reason::OtherUse(held(alloc, entry, "use")?)));
    }
    if !is_ec(text(entry, "kty")) {
        return Ok(None);
    }
    other_curve(alloc, text(entry, "crv"))
}

/// The reason of an EC key of a known use, by its curve.
fn other_curve(alloc: Global, curve: Option<&str>) -> Result<Option<Reason>, AllocError>
    ensures { IfOk result (λ found. found ≡ curve_reason (option_map (λ found. found.now) curve.entry)) }
{
    match curve {
        Some(curve) if !is_known_curve(curve) => {
            let curve = MemberText::new(String::from_str(alloc, curve)?);
            Ok(Some(Reason::OtherCurve(curve)))
        }
        _ => Ok(None),
    }
}

pub(crate) fn is_ec(text: Option<&str>) -> bool
    ensures { result ≡ ec_named (option_map (λ found. found.now) text.entry) }
{
    match text {
        Some(text) => text == "EC",
        None => false,
    }
}

fn is_known_type(text: Option<&str>) -> bool
    ensures { result ≡ known_type (option_map (λ found. found.now) text.entry) }
{
    match text {
        Some(text) => text == "EC" || text == "RSA",
        None => false,
    }
}

fn is_known_use(text: Option<&str>) -> bool
    ensures { result ≡ known_use (option_map (λ found. found.now) text.entry) }
{
    match text {
        Some(text) => text == "x509-svid" || text == "jwt-svid",
        None => false,
    }
}

fn is_known_curve(text: &str) -> bool
    ensures { result ≡ known_curve text.now }
{
    text == "P-256" || text == "P-384" || text == "P-521"
}

/// The text of a member, if it is one.
pub(crate) fn text<'v>(entry: &'v Value, name: &str) -> Option<&'v str>
    ensures { option_map (λ text. text.now) result ≡ text_of_member name.now (view entry.now) }
{
    entry.get(name).and_then(Value::as_str)
}

/// What the entry has under a name.
fn held(alloc: Global, entry: &Value, name: &str) -> Result<Held, AllocError>
    ensures { IfOk result (λ held. held ≡ held_in name.now (view entry.now)) }
{
    match entry.get(name) {
        None => Ok(Held::Missing),
        Some(Value::String(text)) => Ok(Held::Text(MemberText::new(text.clone()?))),
        Some(_) => Ok(Held::Other),
    }
}
