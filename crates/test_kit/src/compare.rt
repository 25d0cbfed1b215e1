//! Comparisons. A failure tells what was found and what was wanted.
ghost use Rattle.std.specs.Prelude.{◌≡◌, true, false, OnOk, OnErr};

use std::fmt::Debug;
use std::test::Fail;

/// Fails unless what was found is what is wanted.
pub fn is_equal<T: PartialEq + Debug>(found: &T, wanted: &T) -> Result<(), Fail> {
    if *found == *wanted {
        return Ok(());
    }
    Err(Fail::new(format_args!("{found:?}, and not {wanted:?}")))
}

/// Fails unless what was found in this case is what is wanted.
pub fn is_equal_at<T: PartialEq + Debug, C: Debug>(
    found: &T,
    wanted: &T,
    case: &C,
) -> Result<(), Fail> {
    if *found == *wanted {
        return Ok(());
    }
    Err(Fail::new(format_args!("{case:?}: {found:?}, and not {wanted:?}")))
}

/// Fails unless it is so.
pub fn holds(is_so: bool) -> Result<(), Fail>
    ensures ok { OnOk result (is_so ≡ true) }
    ensures err { OnErr result (is_so ≡ false) }
{
    if is_so {
        return Ok(());
    }
    Err(Fail::from("what was to hold does not"))
}

/// Fails unless it is so in this case.
pub fn holds_at<C: Debug>(is_so: bool, case: &C) -> Result<(), Fail>
    ensures ok { OnOk result (is_so ≡ true) }
    ensures err { OnErr result (is_so ≡ false) }
{
    if is_so {
        return Ok(());
    }
    Err(Fail::new(format_args!("{case:?}: what was to hold does not")))
}
