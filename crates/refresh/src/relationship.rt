//! Federation relationships (SPIFFE Federation, section 5.2).
ghost use Rattle.std.specs.Prelude.{◌≡◌, ◌≤◌, length, codes, bytes_eq, true, Err, IfOk, option_copied};
ghost use Rattle.spiffe_doc.specs.Answer.{Gives};
ghost use Rattle.spiffe_doc.specs.Name.{IsName};
ghost use Rattle.refresh.specs.Relationship.{RelationshipValue, domain_of, endpoint_of, endpoint_id_of, profile_of, relationship as read_relationship, is_endpoint as endpoint_test};

use crate::error::RelationError;
use spiffe_doc::{IdError, NameError, SpiffeId, TrustDomain};
use std::alloc::Global;
use std::marker::Model;
use url::{ParseError, Url};

/// The most bytes of an endpoint URL.
const MAX_URL: usize = 2048;

/// How an endpoint shows who it is.
#[derive(Drop)]
pub enum Profile {
    /// By a certificate of the Web's public key infrastructure (SPIFFE Federation, section 5.2.1).
    HttpsWeb,
    /// By an X.509-SVID of this SPIFFE ID (SPIFFE Federation, section 5.2.2).
    HttpsSpiffe(SpiffeId),
}

/// Whose bundle is fetched, from where, and how the server there shows who it is.
#[derive(Drop)]
pub struct Relationship {
    domain: TrustDomain,
    url: Url,
    profile: Profile,
}

impl Model for Relationship {
    ghost use Rattle.refresh.specs.Relationship.{RelationshipValue};

    ghost Value = { RelationshipValue };

    ghost view = { λ r. record { domain = r.domain; url = r.url; profile = r.profile } };
}

impl Relationship {
    /// The relationship that these texts are: the name of a trust domain, the URL of its bundle endpoint, of at most
    /// 2,048 bytes, the name of the endpoint's profile, and the SPIFFE ID of the endpoint, which `https_spiffe` needs
    /// and `https_web` ignores. The first fault in this order is the answer; out of memory comes only if the domain is a
    /// name.
    pub fn read(
        alloc: Global,
        domain: &str,
        url: &str,
        profile: &str,
        endpoint_id: Option<&str>,
    ) -> Result<Relationship, RelationError>
        ensures value { Gives RelationError.Memory result (read_relationship domain.now url.now profile.now (option_copied endpoint_id.entry)) }
        ensures memory { result ≡ Err RelationError.Memory → IsName domain.now }
    {
        Ok(Relationship {
            domain: read_domain(alloc, domain)?,
            url: read_url(alloc, url)?,
            profile: read_profile(alloc, profile, endpoint_id)?,
        })
    }

    /// The trust domain whose bundle it is.
    pub fn domain(&self) -> &TrustDomain
        ensures { result.now ≡ self.now.domain }
    {
        &self.domain
    }

    /// The URL of the bundle endpoint.
    pub fn url(&self) -> &Url
        ensures { result.now ≡ self.now.url }
    {
        &self.url
    }

    /// How the endpoint shows who it is.
    pub fn profile(&self) -> &Profile
        ensures { result.now ≡ self.now.profile }
    {
        &self.profile
    }
}

fn read_domain(alloc: Global, text: &str) -> Result<TrustDomain, RelationError>
    ensures value { Gives RelationError.Memory result (domain_of text.now) }
    ensures memory { result ≡ Err RelationError.Memory → IsName text.now }
    ensures name { IfOk result (λ domain. IsName domain) }
{
    match TrustDomain::parse(alloc, text) {
        Ok(domain) => Ok(domain),
        Err(NameError::Memory) => Err(RelationError::Memory),
        Err(error) => Err(RelationError::Domain(error)),
    }
}

/// The URL crate's answer that a URL has over 4 GB comes for so short a text only if memory runs out.
fn read_url(alloc: Global, text: &str) -> Result<Url, RelationError>
    ensures value { Gives RelationError.Memory result (endpoint_of text.now) }
    ensures memory { result ≡ Err RelationError.Memory → length text.now ≤ 2048 }
{
    if text.len() > MAX_URL {
        return Err(RelationError::BadUrl);
    }
    match Url::parse(alloc, text) {
        Ok(url) => {
            if is_endpoint(&url) {
                return Ok(url);
            }
            Err(RelationError::BadUrl)
        }
        Err(ParseError::OutOfMemory | ParseError::Overflow) => Err(RelationError::Memory),
        Err(_) => Err(RelationError::BadUrl),
    }
}

fn is_endpoint(url: &Url) -> bool
    ensures { result ≡ endpoint_test url.now }
{
    url.scheme() == "https" && url.username().is_empty() && url.password().is_none()
}

fn read_profile(
    alloc: Global,
    name: &str,
    endpoint_id: Option<&str>,
) -> Result<Profile, RelationError>
    ensures value { Gives RelationError.Memory result (profile_of name.now (option_copied endpoint_id.entry)) }
    ensures memory { result ≡ Err RelationError.Memory → bytes_eq name.now (codes "https_spiffe") ≡ true }
{
    match name {
        "https_web" => Ok(Profile::HttpsWeb),
        "https_spiffe" => read_endpoint_id(alloc, endpoint_id),
        _ => Err(RelationError::BadProfile),
    }
}

fn read_endpoint_id(alloc: Global, endpoint_id: Option<&str>) -> Result<Profile, RelationError>
    ensures { Gives RelationError.Memory result (endpoint_id_of (option_copied endpoint_id.entry)) }
{
    let Some(text) = endpoint_id else {
        return Err(RelationError::NoEndpointId);
    };
    match SpiffeId::parse(alloc, text) {
        Ok(id) => Ok(Profile::HttpsSpiffe(id)),
        Err(IdError::Memory) => Err(RelationError::Memory),
        Err(error) => Err(RelationError::EndpointId(error)),
    }
}
