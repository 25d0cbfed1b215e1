//! How answers that no session over one map gives are coded.
use frame_front::serve;
use map_core::{Ask, AskError, Op, Reply};
use std::alloc::Global;
use std::test::Fail;
use test_kit::is_equal_at;
use test_kit::protocol::GET;
use wire::Counted;

/// Gives each operation this answer.
#[derive(Drop)]
struct Refuses(AskError);

impl Ask for Refuses {
    ghost use Rattle.std.specs.Prelude.{None};

    ghost answers = { λ before op answer after. Unit {0} };

    ghost shows = { λ m. None };

    ghost answers_plainly = { λ old op result new m shown answer. absurd (cc shown) };

    fn ask(&mut self, op: Op) -> Result<Reply, AskError> {
        drop(op);
        Err(self.0)
    }
}

/// Each error is coded so.
static CODES: [(AskError, &[u8]); 5] = [
    (
        AskError::Moved {
            shard: 0,
            first: 0,
            second: 1,
        },
        b"\x00\x00\x00\x15\x29\x00\x00\x00\x00\x00\x00\x00\x00\x00\x00\x00\x00\x00\x00\x00\x00\x00\x00\x00\x01",
    ),
    (
        AskError::Held {
            shard: 1,
            revision: 3,
        },
        b"\x00\x00\x00\x0d\x2a\x00\x00\x00\x01\x00\x00\x00\x00\x00\x00\x00\x03",
    ),
    (AskError::GateShut, b"\x00\x00\x00\x01\x38"),
    (
        AskError::Worn { shard: 255 },
        b"\x00\x00\x00\x05\x28\x00\x00\x00\xff",
    ),
    (AskError::Memory, b"\x00\x00\x00\x01\x16"),
];

/// A get that is answered by the error has this reply.
fn is_coded(alloc: Global, error: AskError, text: &[u8]) -> Result<(), Fail> {
    let mut reader = Counted::new(GET);
    let mut writer = Counted::new(Vec::new(alloc));
    let ended = serve(alloc, &mut reader, &mut writer, &mut Refuses(error), 10);
    is_equal_at(&(ended, writer.end().as_slice()), &(Ok(1), text), &error)
}

#[test]
fn codes_errors(rt: HostRuntime) -> Result<(), Fail> {
    for &(error, text) in &CODES {
        is_coded(rt.alloc(), error, text)?;
    }
    Ok(())
}
