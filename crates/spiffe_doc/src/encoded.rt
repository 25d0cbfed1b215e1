//! Base64 texts of a document, which stand for bytes (RFC 4648, sections 4 and 5).
ghost use Rattle.std.specs.Prelude.{◌≡◌, length, IfOk};
ghost use Rattle.base64.specs.Engines.{standard, url_safe_no_pad};
ghost use Rattle.base64.specs.GeneralPurpose.{encode_of};
ghost use Rattle.spiffe_doc.specs.Judgement.{encoded_bytes};
ghost use Rattle.spiffe_doc.specs.Private.Writing.{NeedsNoEscape};

use crate::octets::Octets;
use crate::symbols::{standard_len, url_safe_len};
use base64::DecodeAllocError;
use base64::engine::general_purpose::{STANDARD, URL_SAFE_NO_PAD};
use std::alloc::{AllocError, Allocator, Global};
use std::marker::Model;

/// An unpadded base64url text that is the encoding of some bytes (RFC 4648, section 5). Contracts see the bytes.
#[derive(Drop)]
pub(crate) struct UrlSafe<'a> {
    text: &'a str,
    /// How many bytes it stands for.
    len: usize,
}

impl<'a> Model for UrlSafe<'a> {
    ghost use Rattle.std.specs.Prelude.{List, ℕ};
    ghost use Rattle.base64.specs.Engines.{url_safe_no_pad};
    ghost use Rattle.spiffe_doc.specs.Private.Encoded.{bytes_in, Encodes};

    ghost Value = { List ℕ };

    ghost view = { λ encoded. bytes_in url_safe_no_pad encoded.text.now };

    ghost invariant = { λ encoded. Encodes url_safe_no_pad encoded.text.now encoded.len };
}

impl<'a> UrlSafe<'a> {
    /// Reads a text, if it is one. Most can be seen to be one; for others the bytes are decoded in memory of `scratch`,
    /// and forgotten.
    pub(crate) fn read<A: Allocator>(
        scratch: A,
        text: &'a str,
    ) -> Result<Option<UrlSafe<'a>>, AllocError>
        ensures { IfOk result (λ found. found ≡ encoded_bytes url_safe_no_pad text.now) }
    {
        if let Some(len) = url_safe_len(text.as_bytes()) {
            return Ok(Some(UrlSafe { text, len }));
        }
        match URL_SAFE_NO_PAD.decode(scratch, text.as_bytes()) {
            Ok(bytes) => Ok(Some(UrlSafe {
                text,
                len: bytes.len(),
            })),
            Err(DecodeAllocError::OutOfMemory) => Err(AllocError),
            Err(DecodeAllocError::DecodeError(_)) => Ok(None),
        }
    }

    /// The text.
    pub(crate) fn text(&self) -> &'a str
        ensures value { result.now ≡ encode_of url_safe_no_pad self.now }
        ensures plain { NeedsNoEscape result.now }
    {
        self.text
    }

    /// How many bytes it stands for.
    pub(crate) fn len(&self) -> usize
        ensures { result ≡ length self.now }
    {
        self.len
    }

    /// The bytes.
    pub(crate) fn decode(&self, alloc: Global) -> Result<Octets, AllocError>
        ensures { IfOk result (λ bytes. bytes ≡ self.now) }
    {
        match URL_SAFE_NO_PAD.decode(alloc, self.text.as_bytes()) {
            Ok(bytes) => Ok(Octets::new(bytes)),
            // It is an encoding: only memory can have run out.
            Err(_) => Err(AllocError),
        }
    }
}

/// A padded base64 text that is the encoding of some bytes (RFC 4648, section 4). Contracts see the bytes.
#[derive(Drop)]
pub(crate) struct Standard<'a> {
    text: &'a str,
    /// How many bytes it stands for.
    len: usize,
}

impl<'a> Model for Standard<'a> {
    ghost use Rattle.std.specs.Prelude.{List, ℕ};
    ghost use Rattle.base64.specs.Engines.{standard};
    ghost use Rattle.spiffe_doc.specs.Private.Encoded.{bytes_in, Encodes};

    ghost Value = { List ℕ };

    ghost view = { λ encoded. bytes_in standard encoded.text.now };

    ghost invariant = { λ encoded. Encodes standard encoded.text.now encoded.len };
}

impl<'a> Standard<'a> {
    /// Reads a text, if it is one. Most can be seen to be one; for others the bytes are decoded in memory of `scratch`,
    /// and forgotten.
    pub(crate) fn read<A: Allocator>(
        scratch: A,
        text: &'a str,
    ) -> Result<Option<Standard<'a>>, AllocError>
        ensures { IfOk result (λ found. found ≡ encoded_bytes standard text.now) }
    {
        if let Some(len) = standard_len(text.as_bytes()) {
            return Ok(Some(Standard { text, len }));
        }
        match STANDARD.decode(scratch, text.as_bytes()) {
            Ok(bytes) => Ok(Some(Standard {
                text,
                len: bytes.len(),
            })),
            Err(DecodeAllocError::OutOfMemory) => Err(AllocError),
            Err(DecodeAllocError::DecodeError(_)) => Ok(None),
        }
    }

    /// The text.
    pub(crate) fn text(&self) -> &'a str
        ensures value { result.now ≡ encode_of standard self.now }
        ensures plain { NeedsNoEscape result.now }
    {
        self.text
    }

    /// How many bytes it stands for.
    pub(crate) fn len(&self) -> usize
        ensures { result ≡ length self.now }
    {
        self.len
    }

    /// The bytes.
    pub(crate) fn decode(&self, alloc: Global) -> Result<Octets, AllocError>
        ensures { IfOk result (λ bytes. bytes ≡ self.now) }
    {
        match STANDARD.decode(alloc, self.text.as_bytes()) {
            Ok(bytes) => Ok(Octets::new(bytes)),
            // It is an encoding: only memory can have run out.
            Err(_) => Err(AllocError),
        }
    }
}
