//! The decoder by itself.
use std::test::Fail;
use test_kit::protocol::{FETCH_ALL, text_of};
use test_kit::{is_equal, is_equal_at};
use wire::{Decoder, FrontError};

/// What is fed, the payloads that come out then, what is answered after them, and whether the input may end there.
type Step<'a> = (
    &'a [u8],
    &'a [&'a [u8]],
    Result<(), FrontError>,
    Result<(), FrontError>,
);

/// Frames come out when they are whole. At a bad length the decoder stays as it is.
static STEPS: [&[Step<'static>]; 2] = [
    &[
        (b"", &[], Ok(()), Ok(())),
        (
            b"\x00\x00\x00\x02a",
            &[],
            Ok(()),
            Err(FrontError::Truncated),
        ),
        (
            b"b\x00\x00\x00\x01c\x00\x00\x00",
            &[b"ab", b"c"],
            Ok(()),
            Err(FrontError::Truncated),
        ),
    ],
    &[
        (
            b"\x00\x00\x00\x01c\x00\x10\x01\xa9",
            &[b"c"],
            Err(FrontError::BadLength),
            Err(FrontError::Truncated),
        ),
        (
            b"\x00\x00\x00\x01c",
            &[],
            Err(FrontError::BadLength),
            Err(FrontError::Truncated),
        ),
    ],
];

/// The next frame has this payload.
fn gives(decoder: &mut Decoder, wanted: &[u8]) -> Result<(), Fail> {
    let payload = decoder.next_frame()?.ok_or("a frame is there")?;
    is_equal(&payload.as_slice(), &wanted)
}

/// The decoder takes the step.
fn takes(decoder: &mut Decoder, (fed, payloads, next, end): Step<'_>) -> Result<(), Fail> {
    decoder.feed(fed)?;
    for &payload in payloads {
        gives(decoder, payload)?;
    }
    let found = decoder.next_frame().map(|frame| frame.is_some());
    let wanted = next.map(|()| false);
    is_equal_at(&(found, decoder.finish()), &(wanted, end), &fed)
}

#[test]
fn takes_frames_out(rt: HostRuntime) -> Result<(), Fail> {
    for &steps in &STEPS {
        let mut decoder = Decoder::new(rt.alloc())?;
        for &step in steps {
            takes(&mut decoder, step)?;
        }
    }
    Ok(())
}

// A million frames of 5 bytes in one piece: each costs as little as the first.
#[test]
fn takes_a_million_frames_out_of_one_piece(rt: HostRuntime) -> Result<(), Fail> {
    let mut decoder = Decoder::new(rt.alloc())?;
    let piece = text_of(rt.alloc(), &[(FETCH_ALL, 1_000_000)])?;
    decoder.feed(piece.as_slice())?;
    for _ in 0..1_000_000 {
        gives(&mut decoder, b"F")?;
    }
    is_equal(&decoder.finish(), &Ok(()))
}
