//! What requests ask, judged in a fixed order.
ghost use Rattle.std.specs.Prelude.{◌≡◌};
ghost use Rattle.spiffe_doc.specs.Answer.{Gives};
ghost use Rattle.wire.specs.RequestForm.{request};
ghost use Rattle.wire.specs.Judge.{request_of, judged, named_bundle, parse_name, parse_bundle, parse_authority};

use crate::Version;
use crate::refusal::Refusal;
use crate::request::RequestForm;
use crate::request::payload::request_of_payload;
use map_core::Op;
use spiffe_doc::{Authority, Bundle, DocumentReader, TrustDomain, read_entry};
use std::alloc::Global;

/// What a payload asks, once it is judged.
#[derive(Drop)]
pub enum Judged {
    /// An operation on the map.
    Ask(Op),
    /// The version that the session has from now on.
    SetVersion(Version),
    /// What whoever is asked has counted. Nothing is asked of the map.
    TellCounts,
}

/// Reads a payload as a request. Refusals come in this order: no request at all, a bad name, a bad
/// document or key; out of memory at any point.
#[tactic(auto, unfolding(crate::specs::Judge::request_of))]
pub fn read_request(alloc: Global, version: Version, payload: &[u8]) -> Result<Judged, Refusal>
    ensures { Gives Refusal.Memory result (request_of version payload.now) }
{
    let Some(form) = request_of_payload(payload) else {
        return Err(Refusal::BadRequest);
    };
    let mut documents = DocumentReader::new(alloc);
    form.judge(alloc, &mut documents, version)
}

impl<'a> RequestForm<'a> {
    /// What the request asks in a session of this version. The reader keeps its memory from document to document.
    #[inline(never)]
    #[tactic(auto, unfolding(crate::specs::Judge::judged))]
    pub fn judge(
        &self,
        alloc: Global,
        documents: &mut DocumentReader,
        version: Version,
    ) -> Result<Judged, Refusal>
        ensures { Gives Refusal.Memory result (judged version (request self.now)) }
    {
        let op = match *self {
            RequestForm::Set(name, document) => {
                let (domain, bundle) = read_named_bundle(alloc, documents, name, document)?;
                Op::Set(domain, bundle)
            }
            RequestForm::SetIf(name, expect, document) => {
                if version == Version::One {
                    return Err(Refusal::BadRequest);
                }
                let (domain, bundle) = read_named_bundle(alloc, documents, name, document)?;
                Op::SetIf(domain, expect, bundle)
            }
            RequestForm::Append(name, jwk) => {
                let domain = read_name(alloc, name)?;
                Op::Append(domain, read_authority(alloc, jwk)?)
            }
            RequestForm::Remove(name) => Op::Remove(read_name(alloc, name)?),
            RequestForm::Get(name) => Op::Get(read_name(alloc, name)?),
            RequestForm::Fetch => Op::FetchAll,
            RequestForm::FetchUnless(_) | RequestForm::Stats if version != Version::Three => {
                return Err(Refusal::BadRequest);
            }
            RequestForm::FetchUnless(known) => Op::FetchUnless(known),
            RequestForm::Stats => return Ok(Judged::TellCounts),
            RequestForm::Speak(wanted) => return Ok(Judged::SetVersion(wanted)),
        };
        Ok(Judged::Ask(op))
    }
}

/// A trust domain and its bundle: the name, and a document.
#[tactic(auto, unfolding(crate::specs::Judge::named_bundle))]
pub(crate) fn read_named_bundle(
    alloc: Global,
    documents: &mut DocumentReader,
    name: &[u8],
    document: &[u8],
) -> Result<(TrustDomain, Bundle), Refusal>
    ensures { Gives Refusal.Memory result (named_bundle name.now document.now) }
{
    let domain = read_name(alloc, name)?;
    let bundle = read_bundle(alloc, documents, document)?;
    Ok((domain, bundle))
}

/// The trust domain that the bytes name.
#[tactic(auto, unfolding(crate::specs::Judge::parse_name))]
pub fn read_name(alloc: Global, bytes: &[u8]) -> Result<TrustDomain, Refusal>
    ensures { Gives Refusal.Memory result (parse_name bytes.now) }
{
    Ok(TrustDomain::parse_bytes(alloc, bytes)?)
}

#[tactic(auto, unfolding(crate::specs::Judge::parse_bundle))]
fn read_bundle(
    alloc: Global,
    documents: &mut DocumentReader,
    bytes: &[u8],
) -> Result<Bundle, Refusal>
    ensures { Gives Refusal.Memory result (parse_bundle bytes.now) }
{
    Ok(documents.read(alloc, bytes)?)
}

#[tactic(auto, unfolding(crate::specs::Judge::parse_authority))]
fn read_authority(alloc: Global, bytes: &[u8]) -> Result<Authority, Refusal>
    ensures { Gives Refusal.Memory result (parse_authority bytes.now) }
{
    match read_entry(alloc, bytes)? {
        Some(authority) => Ok(authority),
        None => Err(Refusal::PassedOver),
    }
}
