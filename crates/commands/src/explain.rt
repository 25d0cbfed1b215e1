//! The command `explain`: writes a text that is known beforehand.
ghost use Rattle.std.specs.Prelude.{◌≡◌};
ghost use Rattle.commands.specs.Explain.{Explains};
ghost use Rattle.wire.specs.Output.{end_of};
ghost use Rattle.commands.specs.Streams.{Source};

use crate::ending::ended;
use crate::output::write_flushed;
use std::io::Write;
use wire::Counted;

/// Writes the explanation, and answers the exit status.
pub fn explain_over<W: Write, E: Write>(
    text: &str,
    out: &mut Counted<W>,
    err: &mut Counted<E>,
) -> u8
    ensures explains { (input : Source) → Explains text.now result
        (record { input = input; output = end_of W.contents out.old; error = end_of E.contents err.old })
        (record { input = input; output = end_of W.contents out.new; error = end_of E.contents err.new }) }
    ensures silent { result ≡ 0 → err.new ≡ err.old }
{
    ended(write_flushed(out, text.as_bytes()), err)
}
