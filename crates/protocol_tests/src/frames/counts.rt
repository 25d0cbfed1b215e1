//! What a session tells whoever it asks, and how it tells of counts.
use frame_front::serve;
use map_core::{Ask, AskError, Op, Reply};
use spiffe_doc::Memory;
use std::alloc::Global;
use std::sync::atomic::{AtomicU64, Ordering};
use std::test::Fail;
use test_kit::is_equal_at;
use wire::Counted;

/// Stores each bundle, has these counts, and notes what it is told: the letters and the codes, the last one lowest.
#[derive(Drop)]
struct Counts {
    text: &'static [u8],
    letters: AtomicU64,
    codes: AtomicU64,
}

fn note(bytes: &AtomicU64, byte: u8) {
    let noted = bytes.load(Ordering::SeqCst);
    bytes.store((noted << 8) | u64::from(byte), Ordering::SeqCst);
}

impl Ask for Counts {
    ghost use Rattle.std.specs.Prelude.{None};

    ghost answers = { λ before op answer after. Unit {0} };

    ghost shows = { λ m. None };

    ghost answers_plainly = { λ old op result new m shown answer. absurd (cc shown) };

    fn ask(&mut self, op: Op) -> Result<Reply, AskError> {
        drop(op);
        Ok(Reply::Stored)
    }

    fn answered(&self, letter: u8, code: u8) {
        note(&self.letters, letter);
        note(&self.codes, code);
    }

    fn counts(&self, alloc: Global) -> Result<Vec<u8>, Memory> {
        Ok(Vec::from_slice(alloc, self.text)?)
    }
}

/// A session over counts.
struct Told {
    text: &'static [u8],
    input: &'static [u8],
    output: &'static [u8],
    letters: u64,
    codes: u64,
}

/// `V`, `S`, `M` and `Z` are 56, 53, 4d and 5a; `v`, `s`, `m` and 51 are 76, 73, 6d and 33.
static TOLD: [Told; 4] = [
    Told {
        text: b"a=1 b=2",
        input: b"\x00\x00\x00\x02V\x03\x00\x00\x00\x0eS\x01a{\"keys\":[]}\x00\x00\x00\x01M",
        output: b"\x00\x00\x00\x02v\x03\x00\x00\x00\x01s\x00\x00\x00\x08ma=1 b=2",
        letters: 0x0056_534d,
        codes: 0x0076_736d,
    },
    // What is no line is left out.
    Told {
        text: b"a=1\nb=2",
        input: b"\x00\x00\x00\x02V\x03\x00\x00\x00\x01M",
        output: b"\x00\x00\x00\x02v\x03\x00\x00\x00\x01m",
        letters: 0x564d,
        codes: 0x766d,
    },
    Told {
        text: b"a=1",
        input: b"\x00\x00\x00\x01M\x00\x00\x00\x02V\x02\x00\x00\x00\x01M",
        output: b"\x00\x00\x00\x013\x00\x00\x00\x02v\x02\x00\x00\x00\x013",
        letters: 0x004d_564d,
        codes: 0x0033_7633,
    },
    Told {
        text: b"a=1",
        input: b"\x00\x00\x00\x01Z",
        output: b"\x00\x00\x00\x013",
        letters: 0x5a,
        codes: 0x33,
    },
];

fn tells(alloc: Global, told: &Told) -> Result<(), Fail> {
    let mut reader = Counted::new(told.input);
    let mut writer = Counted::new(Vec::new(alloc));
    let mut counts = Counts {
        text: told.text,
        letters: AtomicU64::new(0),
        codes: AtomicU64::new(0),
    };
    serve(alloc, &mut reader, &mut writer, &mut counts, 10)?;
    let noted = (
        counts.letters.load(Ordering::SeqCst),
        counts.codes.load(Ordering::SeqCst),
    );
    is_equal_at(&writer.end().as_slice(), &told.output, &told.input)?;
    is_equal_at(&noted, &(told.letters, told.codes), &told.input)
}

#[test]
fn counts_are_told_in_version_three(rt: HostRuntime) -> Result<(), Fail> {
    for told in &TOLD {
        tells(rt.alloc(), told)?;
    }
    Ok(())
}
