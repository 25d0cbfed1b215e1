//! Numbers of JSON (RFC 8259, section 6).
ghost use Rattle.std.specs.Prelude.{◌≡◌, ◌<◌, ◌==◌, true, false, length, option_map, slice_index, IsTrue};
ghost use Rattle.serde_json.specs.Find.{as_u64};
ghost use Rattle.serde_json.specs.Read.{number_of, number_from, float_of as finite_float};

use fast_float::Numeral;

/// What the text of a number is as a whole number of 64 bits, if it is one; `None` if it is too large for a float.
pub(crate) fn whole_number_of(text: &str) -> Option<Option<u64>>
    ensures { result ≡ option_map as_u64 (number_of text.now) }
{
    let bytes = text.as_bytes();
    if has_minus(bytes) {
        below_zero(&Numeral::scan(&bytes[1..]))
    } else {
        from_zero(&Numeral::scan(bytes))
    }
}

fn has_minus(bytes: &[u8]) -> bool
    ensures value { result ≡ (slice_index bytes.now 0 == 45) }
    ensures len { IsTrue result → 0 < length bytes.now }
{
    !bytes.is_empty() && bytes[0] == b'-'
}

/// A number without a sign.
fn from_zero(numeral: &Numeral<'_>) -> Option<Option<u64>>
    ensures { result ≡ option_map as_u64 (number_from false numeral.now) }
{
    match numeral.to_u64() {
        Some(number) => Some(Some(number)),
        None => float_of(false, numeral),
    }
}

/// A number behind a minus sign: never a whole number of 64 bits without a sign.
fn below_zero(numeral: &Numeral<'_>) -> Option<Option<u64>>
    ensures { result ≡ option_map as_u64 (number_from true numeral.now) }
{
    if let Some(number) = numeral.to_i64(true) {
        if number < 0 {
            return Some(None);
        }
    }
    float_of(true, numeral)
}

/// The nearest float is no whole number of 64 bits, however it was written.
fn float_of(is_negative: bool, numeral: &Numeral<'_>) -> Option<Option<u64>>
    ensures { result ≡ option_map as_u64 (finite_float is_negative numeral.now) }
{
    let float: f64 = numeral.to_float(is_negative);
    if float.is_finite() { Some(None) } else { None }
}
