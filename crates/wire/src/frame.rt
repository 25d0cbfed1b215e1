//! Frames: a length of 4 bytes, big-endian, and a payload of that many bytes.
ghost use Rattle.std.specs.Prelude.{◌≡◌, ◌≤◌, ◌<◌, ◌^◌, ◌++◌, ◌+◌, length, take, drop, IfOk, IfErr, IfSome, IfNone, OnOk, OnErr};
ghost use Rattle.std.specs.Int.{w32, to_be_bytes};
ghost use Rattle.wire.specs.Frame.{IsPayload, IsUnfinished, IsBadLength, frame, length_field as stated_length};

use crate::FrontError;
use spiffe_doc::Memory;

/// The most bytes of a payload. A payload has at least one.
pub const MAX_PAYLOAD: usize = 1_049_000;

/// The bytes of a length.
pub const LENGTH_BYTES: usize = 4;

/// The length that stands first.
#[tactic(auto, unfolding(crate::specs::Frame::length_field))]
pub fn length_field(bytes: &[u8]) -> usize
    requires { 4 ≤ length bytes.now }
    ensures value { result ≡ stated_length bytes.now }
    ensures bytes { to_be_bytes w32 result ≡ take 4 bytes.now }
{
    u32::from_be_bytes([bytes[0], bytes[1], bytes[2], bytes[3]]) as usize
}

/// The payload of the frame that stands first, if a whole one does.
pub fn first_frame(bytes: &[u8]) -> Result<Option<&[u8]>, FrontError>
    ensures found { IfOk result (λ next. IfSome next (λ payload.
        IsPayload payload.now × (bytes.now ≡ frame payload.now ++ drop (4 + length payload.now) bytes.now))) }
    ensures none { IfOk result (λ next. IfNone next (IsUnfinished bytes.now)) }
    ensures fails { IfErr result (λ fault. (fault ≡ FrontError.BadLength) × IsBadLength bytes.now) }
{
    if bytes.len() < LENGTH_BYTES {
        return Ok(None);
    }
    let size = length_field(bytes);
    if size == 0 || size > MAX_PAYLOAD {
        return Err(FrontError::BadLength);
    }
    let (_, after) = bytes.split_at(LENGTH_BYTES);
    if after.len() < size {
        return Ok(None);
    }
    let (payload, _) = after.split_at(size);
    Ok(Some(payload))
}

/// Adds a frame whose payload comes in two parts. If memory is refused, nothing is added.
pub fn put_frame(out: &mut Vec<u8>, front: &[u8], rest: &[u8]) -> Result<(), Memory>
    requires { length front.now + length rest.now < 2 ^ 32 }
    ensures ok { OnOk result (out.new.items ≡ out.old.items ++ frame (front.now ++ rest.now)) }
    ensures err { OnErr result (out.new.items ≡ out.old.items) }
{
    let before = out.len();
    let size = (front.len() + rest.len()) as u32;
    out.extend_from_slice(&size.to_be_bytes())?;
    if let Err(refused) = append(out, front, rest) {
        out.truncate(before);
        return Err(refused);
    }
    Ok(())
}

/// Appends both, or nothing.
pub(crate) fn append(out: &mut Vec<u8>, head: &[u8], text: &[u8]) -> Result<(), Memory>
    ensures ok { OnOk result (out.new.items ≡ out.old.items ++ (head.now ++ text.now)) }
    ensures err { OnErr result (out.new.items ≡ out.old.items) }
{
    let before = out.len();
    out.extend_from_slice(head)?;
    if let Err(refused) = out.extend_from_slice(text) {
        out.truncate(before);
        return Err(refused);
    }
    Ok(())
}
