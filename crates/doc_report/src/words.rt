//! Words of a line.
ghost use Rattle.std.specs.Prelude.{◌≡◌, ◌++◌, OnOk};
ghost use Rattle.doc_report.specs.Fault.{entry_words};
ghost use Rattle.doc_report.specs.Lines.{counted};

use itoa::{Buffer, Integer};
use std::alloc::AllocError;

/// Puts the text.
pub(crate) fn put(out: &mut Vec<u8>, text: &str) -> Result<(), AllocError>
    ensures { OnOk result (out.new.items ≡ out.old.items ++ text.now) }
{
    out.extend_from_slice(text.as_bytes())
}

/// Puts the number in decimal.
pub(crate) fn put_number<I: Integer>(out: &mut Vec<u8>, number: I) -> Result<(), AllocError>
    ensures { OnOk result (out.new.items ≡ out.old.items ++ I.text number) }
{
    put(out, Buffer::new().format(number))
}

/// Puts how many there are, and what they are called if there is one, or another number.
#[tactic(auto, unfolding(crate::specs::Lines::counted))]
pub(crate) fn put_counted(
    out: &mut Vec<u8>,
    number: u128,
    one: &str,
    many: &str,
) -> Result<(), AllocError>
    ensures { OnOk result (out.new.items ≡ out.old.items ++ counted number one.now many.now) }
{
    put_number(out, number)?;
    put(out, if number == 1 { one } else { many })
}

/// Puts which entry it is.
#[tactic(auto, unfolding(crate::specs::Fault::entry_words))]
pub(crate) fn put_entry(out: &mut Vec<u8>, place: usize) -> Result<(), AllocError>
    ensures { OnOk result (out.new.items ≡ out.old.items ++ entry_words place) }
{
    put(out, "keys[")?;
    put_number(out, place)?;
    put(out, "] ")
}
