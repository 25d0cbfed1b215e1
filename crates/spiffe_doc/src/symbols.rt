//! Base64 texts that can be seen to be encodings, with no need to decode them (RFC 4648, sections 4 and 5): whole groups
//! of symbols, and at the end two or three symbols with no bits to spare, and their padding. Most of what a document is
//! made of are such texts.
ghost use Rattle.std.specs.Prelude.{◌≡◌, ◌/◌, ◌%◌, ◌*◌, ◌+◌, ◌-◌, ◌++◌, length, replicate, IfSome, true};
ghost use Rattle.std.specs.List.{list_all};
ghost use Rattle.base64.specs.Engines.{standard, url_safe_no_pad};
ghost use Rattle.spiffe_doc.specs.Private.Encoded.{Encodes};
ghost use Rattle.spiffe_doc.specs.Private.Symbols.{is_symbol, is_end_of_one, is_end_of_two, EndsWhole};

/// How many bytes an unpadded base64url text stands for; `None` if only decoding can tell.
pub(crate) fn url_safe_len(text: &[u8]) -> Option<usize>
    ensures { IfSome result (λ len. Encodes url_safe_no_pad text.now len) }
{
    if ends_whole(text) && are_url_safe(text) {
        Some(bytes_len(text.len()))
    } else {
        None
    }
}

/// How many bytes a padded base64 text stands for; `None` if only decoding can tell.
pub(crate) fn standard_len(text: &[u8]) -> Option<usize>
    ensures { IfSome result (λ len. Encodes standard text.now len) }
{
    let symbols = without_padding(text)?;
    if ends_whole(symbols) && are_standard(symbols) {
        Some(bytes_len(symbols.len()))
    } else {
        None
    }
}

/// The symbols before the padding, if there is as much of it as belongs there.
fn without_padding(text: &[u8]) -> Option<&[u8]>
    ensures { IfSome result (λ symbols. text.now ≡ symbols.now ++ replicate ((4 - length symbols.now % 4) % 4) 61) }
{
    if text.len() % 4 != 0 {
        return None;
    }
    if let Some(symbols) = text.strip_suffix(b"==") {
        return Some(symbols);
    }
    if let Some(symbols) = text.strip_suffix(b"=") {
        return Some(symbols);
    }
    Some(text)
}

/// How many bytes so many symbols stand for.
fn bytes_len(symbols: usize) -> usize
    ensures { result ≡ symbols / 4 * 3 + symbols % 4 * 3 / 4 }
{
    symbols / 4 * 3 + symbols % 4 * 3 / 4
}

/// Whether symbols end with a whole byte: as many are left in the last group as a byte or two take, and the bits
/// after the last byte are zero.
fn ends_whole(symbols: &[u8]) -> bool
    ensures { result ≡ true → EndsWhole symbols.now }
{
    let Some(last) = symbols.last() else {
        return true;
    };
    match symbols.len() % 4 {
        0 => true,
        2 => ends_one(*last),
        3 => ends_two(*last),
        _ => false,
    }
}

/// Whether the last four bits of a symbol are zero, in both alphabets.
fn ends_one(symbol: u8) -> bool
    ensures { result ≡ is_end_of_one symbol }
{
    matches!(symbol, b'A' | b'Q' | b'g' | b'w')
}

/// Whether the last two bits of a symbol are zero, in both alphabets.
fn ends_two(symbol: u8) -> bool
    ensures { result ≡ is_end_of_two symbol }
{
    matches!(
        symbol,
        b'A' | b'E'
            | b'I'
            | b'M'
            | b'Q'
            | b'U'
            | b'Y'
            | b'c'
            | b'g'
            | b'k'
            | b'o'
            | b's'
            | b'w'
            | b'0'
            | b'4'
            | b'8'
    )
}

/// Whether all are symbols of the standard alphabet. Most texts are, so this reads all of them, with no branch at each:
/// so the compiler tests sixteen at once.
fn are_standard(text: &[u8]) -> bool
    ensures { result ≡ list_all (is_symbol standard) text.now }
{
    let mut all = true;
    for byte in text {
        all &= is_standard(*byte);
    }
    all
}

/// The same for the URL-safe alphabet.
fn are_url_safe(text: &[u8]) -> bool
    ensures { result ≡ list_all (is_symbol url_safe_no_pad) text.now }
{
    let mut all = true;
    for byte in text {
        all &= is_url_safe(*byte);
    }
    all
}

/// One of `A-Z`, `a-z`, `0-9`, `+` and `/`.
fn is_standard(byte: u8) -> bool
    ensures { result ≡ is_symbol standard byte }
{
    byte.is_ascii_alphanumeric() | (byte == b'+') | (byte == b'/')
}

/// One of `A-Z`, `a-z`, `0-9`, `-` and `_`.
fn is_url_safe(byte: u8) -> bool
    ensures { result ≡ is_symbol url_safe_no_pad byte }
{
    byte.is_ascii_alphanumeric() | (byte == b'-') | (byte == b'_')
}
