//! Texts of a document, as they are shown: escapes are those of RFC 8259, section 7.
use super::{IGNORED, tells};
use std::alloc::AllocError;

/// What a `kty` has so many times, as it stands in a document, and as it is shown, and the end of it. At most 64
/// characters are shown.
static TEXTS: [(&str, usize, &str, &str); 23] = [
    (" ~", 1, " ~", "\""),
    ("\\\"", 1, "\\\"", "\""),
    ("\\\\", 1, "\\\\", "\""),
    ("a/b'c", 1, "a/b'c", "\""),
    ("\\u001b[31m", 1, "\\u001b[31m", "\""),
    ("\\n\\t\\u0000", 1, "\\u000a\\u0009\\u0000", "\""),
    ("\u{7f}", 1, "\\u007f", "\""),
    ("\u{9b}", 1, "\\u009b", "\""),
    ("\u{e9}", 1, "\\u00e9", "\""),
    ("\u{202e}", 1, "\\u202e", "\""),
    ("\u{ffff}", 1, "\\uffff", "\""),
    ("\u{10000}", 1, "\\ud800\\udc00", "\""),
    ("\u{1f600}", 1, "\\ud83d\\ude00", "\""),
    ("\u{10ffff}", 1, "\\udbff\\udfff", "\""),
    ("x", 64, "x", "\""),
    ("x", 65, "x", "\"..."),
    ("x", 4000, "x", "\"..."),
    ("\u{e9}", 64, "\\u00e9", "\""),
    ("\u{e9}", 65, "\\u00e9", "\"..."),
    ("\u{e9}", 4000, "\\u00e9", "\"..."),
    ("\u{1f600}", 64, "\\ud83d\\ude00", "\""),
    ("\u{1f600}", 65, "\\ud83d\\ude00", "\"..."),
    ("\u{1f600}", 4000, "\\ud83d\\ude00", "\"..."),
];

#[test]
fn texts(rt: HostRuntime) -> Result<(), AllocError> {
    let alloc = rt.alloc();
    for &(text, count, shown, end) in &TEXTS {
        let kty = text.repeat(alloc, count)?;
        let told = shown.repeat(alloc, count.min(64))?;
        let document = format!(in alloc; "{{\"keys\":[{{\"kty\":\"{kty}\"}}]}}")?;
        let wanted = format!(in alloc; "{IGNORED}its kty is \"{told}{end}, not EC or RSA\n")?;
        tells(&rt, alloc, "a", &document, &wanted)?;
    }
    Ok(())
}
