//! Entries that are ignored.
use crate::member_text::MemberText;

/// What an entry has under a name that is to hold a text.
#[derive(Drop)]
pub enum Held {
    /// No such member.
    Missing,
    /// A value that is not a text.
    Other,
    Text(MemberText),
}

/// Why an entry is ignored (RFC 7517, section 4; SPIFFE Trust Domain and Bundle, section 4.2).
#[derive(Drop)]
pub enum Reason {
    /// What it has as `kty` is neither EC nor RSA.
    OtherType(Held),
    /// What it has as `use` is neither x509-svid nor jwt-svid.
    OtherUse(Held),
    /// It is an EC key over this curve, which is not P-256, P-384 or P-521.
    OtherCurve(MemberText),
}

/// An entry that is ignored: its place in `keys`, counted from 0, and the first reason why.
#[derive(Drop)]
pub struct Ignored {
    pub place: usize,
    pub reason: Reason,
}
