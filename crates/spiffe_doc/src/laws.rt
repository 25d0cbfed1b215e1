//! What follows from the definitions. Each law is the contract of a function that does nothing.
ghost use Rattle.std.specs.Prelude.{◌≡◌, ◌↔◌, ◌<◌, ◌≤◌, length, List, ℕ, Ok, Err, Some, None, Option, Result, IfSome, true};
ghost use Rattle.serde_json.specs.Data.{Data};
ghost use Rattle.spiffe_doc.specs.declared.key.PublicKey.{PublicKey};
ghost use Rattle.spiffe_doc.specs.declared.authority.Authority.{Authority};
ghost use Rattle.spiffe_doc.specs.declared.error.DocError.{DocError};
ghost use Rattle.spiffe_doc.specs.Name.{IsName, trust_domain};
ghost use Rattle.spiffe_doc.specs.Id.{IdValue, IsId, spiffe_id};
ghost use Rattle.spiffe_doc.specs.Key.{EcKeyValue, RsaKeyValue};
ghost use Rattle.spiffe_doc.specs.Authority.{IsAuthority, BundleValue};
ghost use Rattle.spiffe_doc.specs.Equal.{ec_eq, rsa_eq, key_eq, authority_eq, bundle_eq};
ghost use Rattle.spiffe_doc.specs.Text.{entry_text, text_of};
ghost use Rattle.spiffe_doc.specs.Entry.{GivesAuthority, IsIgnored, IsMalformed, IsVerdict, HasOneVerdict};
ghost use Rattle.spiffe_doc.specs.Judgement.{judge};
ghost use Rattle.spiffe_doc.specs.Bundle.{IsBundle};
ghost use Rattle.spiffe_doc.specs.Document.{document, entry, place_of};
ghost use Rattle.spiffe_doc.specs.Append.{appended};

/// A text reads as a trust domain name if and only if it is one, and then as itself.
pub fn names_are_read_as_they_stand()
    ensures { (text name : List ℕ) → (trust_domain text ≡ Ok name) ↔ ((name ≡ text) × IsName text) }
{}

/// The tests of equality say whether all parts are equal.
pub fn equality_is_of_all_parts()
    ensures ec_keys { (a b : EcKeyValue) → (ec_eq a b ≡ true) ↔ (a ≡ b) }
    ensures rsa_keys { (a b : RsaKeyValue) → (rsa_eq a b ≡ true) ↔ (a ≡ b) }
    ensures keys { (a b : PublicKey) → (key_eq a b ≡ true) ↔ (a ≡ b) }
    ensures authorities { (a b : Authority) → (authority_eq a b ≡ true) ↔ (a ≡ b) }
    ensures bundles { (a b : BundleValue) → (bundle_eq a b ≡ true) ↔ (a ≡ b) }
{}

/// The canonical text of a valid bundle is a document of that bundle.
pub fn texts_are_read_back()
    ensures { (bundle : BundleValue) → IsBundle bundle → document (text_of bundle) ≡ Ok bundle }
{}

/// The canonical text of a valid authority is an entry of that authority, unless it is over the limit of documents.
pub fn entries_are_read_back()
    ensures { (authority : Authority) → IsAuthority authority → length (entry_text authority) ≤ 1048576
        → entry (entry_text authority) ≡ Ok (Some authority) }
{}

/// An entry is judged to give an authority if and only if its texts are the encodings of the authority's bytes.
pub fn entries_give_what_they_encode()
    ensures { (place : ℕ) (entry : Data) (authority : Authority) →
        (judge place entry ≡ Ok (Some authority)) ↔ GivesAuthority entry authority }
{}

/// A text reads as a SPIFFE ID if and only if it is the one of that domain and that path.
pub fn ids_are_read_as_they_stand()
    ensures { (text : List ℕ) (id : IdValue) → (spiffe_id text ≡ Ok id) ↔ IsId text id }
{}

/// An entry is judged to give nothing if and only if it is ignored.
pub fn entries_are_ignored()
    ensures { (place : ℕ) (entry : Data) → (judge place entry ≡ Ok None) ↔ IsIgnored entry }
{}

/// An entry is judged to be malformed if and only if it is, with its first fault.
pub fn entries_are_malformed()
    ensures { (place : ℕ) (entry : Data) (fault : DocError) → (judge place entry ≡ Err fault) ↔ IsMalformed place entry fault }
{}

/// Exactly one of three holds of an entry: it gives one authority, it is ignored, or it is malformed, with one first fault. It is judged so.
pub fn entries_have_one_verdict()
    ensures one { (place : ℕ) (entry : Data) → HasOneVerdict place entry }
    ensures judged { (place : ℕ) (entry : Data) (outcome : Result (Option Authority) DocError) → (judge place entry ≡ outcome) ↔ IsVerdict place entry outcome }
{}

/// Appending a valid authority to a valid bundle gives a valid bundle.
pub fn appended_bundles_are_valid()
    ensures { (bundle : BundleValue) (more : BundleValue) (authority : Authority) →
        IsBundle bundle → IsAuthority authority → appended bundle authority ≡ Ok more → IsBundle more }
{}

/// A document gives a valid bundle.
pub fn documents_give_valid_bundles()
    ensures { (text : List ℕ) (bundle : BundleValue) → document text ≡ Ok bundle → IsBundle bundle }
{}

/// A place that a document's refusal names is below 1,048,576, and one that an entry's names is 0.
pub fn places_are_within_the_document()
    ensures documents { (text : List ℕ) (fault : DocError) → document text ≡ Err fault → IfSome (place_of fault) (λ place. place < 1048576) }
    ensures entries { (text : List ℕ) (fault : DocError) → entry text ≡ Err fault → IfSome (place_of fault) (λ place. place ≡ 0) }
{}

/// Valid bundles are equal if and only if their canonical texts are.
pub fn texts_tell_bundles_apart()
    ensures { (a b : BundleValue) → IsBundle a → IsBundle b → (text_of a ≡ text_of b) ↔ (a ≡ b) }
{}
