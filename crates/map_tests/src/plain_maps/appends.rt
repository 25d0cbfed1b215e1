//! Appends to bundles that are full, or nearly: which refusal comes first.
use super::{Row, play};
use map_core::{Contents, Op};
use spiffe_doc::{Bundle, TrustDomain};
use std::alloc::{AllocError, Global};
use std::test::Fail;
use test_kit::{Shown, bundle, is_equal};

/// A bundle of so many authorities `k0000`, `k0001` and so on.
#[derive(Clone, Copy, Debug)]
struct Full<'a> {
    count: usize,
    /// Their moduli.
    n: &'a str,
    sequence: &'a str,
    /// The length of its canonical text.
    length: usize,
    /// What is answered if it stands under `a`.
    rows: &'a [Row<'a>],
}

/// An entry has 62 bytes and its modulus, which has 1,366 letters if it has 1,024 bytes; the greatest sequence takes 39 bytes.
static FULL: [Full; 6] = [
    Full {
        count: 1023,
        n: "AQAB",
        sequence: "-",
        length: 68551,
        rows: &[
            ("append a last:AQAB", "appended -"),
            ("append a more:AQAB", "refused 33"),
            ("append a last:AQAB", "unchanged"),
            ("append a last:AQAC", "refused 32"),
            ("get a", "found -/1024"),
        ],
    },
    // With 1,024 authorities and the greatest sequence, the number of authorities is what is refused.
    Full {
        count: 1024,
        n: "AQAB",
        sequence: "18446744073709551615",
        length: 68657,
        rows: &[
            ("append a more:AQAB", "refused 33"),
            ("append a k0000:AQAC", "refused 32"),
            ("append a k0000:AQAB", "unchanged"),
        ],
    },
    // With one authority less it is the sequence.
    Full {
        count: 1023,
        n: "AQAB",
        sequence: "18446744073709551615",
        length: 68590,
        rows: &[
            ("append a more:AQAB", "refused 35"),
            ("get a", "found 18446744073709551615/1023"),
        ],
    },
    // 733 such authorities are a text of 1,047,467 bytes, and 734 would be too long.
    Full {
        count: 733,
        n: "A*1366",
        sequence: "-",
        length: 1047467,
        rows: &[
            ("append a k9999:A*1366", "refused 34"),
            ("append a k9999:AQAB", "appended -"),
        ],
    },
    // If the sequence is the greatest and the text would be too long as well, the sequence is what is refused.
    Full {
        count: 733,
        n: "A*1366",
        sequence: "18446744073709551615",
        length: 1047506,
        rows: &[
            ("append a k9999:A*1366", "refused 35"),
            ("append a k9999:AQAB", "refused 35"),
        ],
    },
    // One below the greatest sequence it is the text.
    Full {
        count: 733,
        n: "A*1366",
        sequence: "18446744073709551614",
        length: 1047506,
        rows: &[
            ("append a k9999:A*1366", "refused 34"),
            ("append a k9999:AQAB", "appended 18446744073709551615"),
        ],
    },
];

/// The bundle, as a word.
fn full_word(alloc: Global, full: &Full) -> Result<String, AllocError> {
    let mut word = format!(in alloc; "{}/", full.sequence)?;
    for number in 0..full.count {
        word.push_str(format!(in alloc; "k{number:04}:{},", full.n)?.as_str())?;
    }
    Ok(word)
}

/// Sets it under `a`, and plays the rows.
fn play_on(
    alloc: Global,
    map: &mut Contents,
    bundle: Bundle,
    rows: &[Row],
) -> Result<String, Fail> {
    let domain = TrustDomain::parse(alloc, "a")?;
    map.ask(Op::Set(domain, bundle))?;
    play(alloc, Shown::Counted, map, rows)
}

fn play_full(alloc: Global, full: &Full) -> Result<(), Fail> {
    let bundle = bundle(alloc, full_word(alloc, full)?.as_str())?;
    is_equal(&bundle.text_len(), &full.length)?;
    let mut map = Contents::new(alloc);
    let left = play_on(alloc, &mut map, bundle, full.rows);
    drop(map);
    left?;
    Ok(())
}

#[test]
fn full_bundles_refuse(rt: HostRuntime) -> Result<(), Fail> {
    for full in &FULL {
        play_full(rt.alloc(), full)?;
    }
    Ok(())
}
