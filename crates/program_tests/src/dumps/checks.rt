//! Documents, and what is told of them.
use super::examples::{PART, WHOLE};
use super::{Command, Row};

/// Files, or the input, and what is told of them.
pub(super) static ROWS: [Row; 15] = [
    (
        Command::Check(&[]),
        WHOLE,
        b"-: bundle of 2 authorities (1 X.509, 1 JWT), sequence 1, refresh hint 2\n",
        "",
        0,
    ),
    (
        Command::Check(&[]),
        PART,
        b"-: bundle of 1 authority (1 X.509, 0 JWT), no sequence, no refresh hint\n-: keys[1] is ignored: its kty is \"OKP\", not EC or RSA\n",
        "",
        3,
    ),
    (
        Command::Check(&[]),
        b"",
        b"-: not a bundle: it is not a JSON text of UTF-8, nested at most 127 deep (11)\n",
        "",
        1,
    ),
    (
        Command::Check(&["whole.json"]),
        b"[]",
        b"whole.json: bundle of 2 authorities (1 X.509, 1 JWT), sequence 1, refresh hint 2\n",
        "",
        0,
    ),
    (
        Command::Check(&["part.json"]),
        b"",
        b"part.json: bundle of 1 authority (1 X.509, 0 JWT), no sequence, no refresh hint\npart.json: keys[1] is ignored: its kty is \"OKP\", not EC or RSA\n",
        "",
        3,
    ),
    (
        Command::Check(&["array.json"]),
        b"",
        b"array.json: not a bundle: it is not a JSON object (12)\n",
        "",
        1,
    ),
    // An entry that repeats another is not ignored.
    (
        Command::Check(&["twice.json"]),
        b"",
        b"twice.json: bundle of 1 authority (1 X.509, 0 JWT), sequence 0, no refresh hint\ntwice.json: 1 entry repeats an earlier one, kept once\n",
        "",
        0,
    ),
    (
        Command::Check(&["part.json", "whole.json"]),
        b"",
        b"part.json: bundle of 1 authority (1 X.509, 0 JWT), no sequence, no refresh hint\npart.json: keys[1] is ignored: its kty is \"OKP\", not EC or RSA\nwhole.json: bundle of 2 authorities (1 X.509, 1 JWT), sequence 1, refresh hint 2\n",
        "",
        3,
    ),
    (
        Command::Check(&["whole.json", "part.json"]),
        b"",
        b"whole.json: bundle of 2 authorities (1 X.509, 1 JWT), sequence 1, refresh hint 2\npart.json: bundle of 1 authority (1 X.509, 0 JWT), no sequence, no refresh hint\npart.json: keys[1] is ignored: its kty is \"OKP\", not EC or RSA\n",
        "",
        3,
    ),
    // A document that is not a bundle outweighs an entry that is ignored, on either side.
    (
        Command::Check(&["array.json", "part.json", "whole.json"]),
        b"",
        b"array.json: not a bundle: it is not a JSON object (12)\npart.json: bundle of 1 authority (1 X.509, 0 JWT), no sequence, no refresh hint\npart.json: keys[1] is ignored: its kty is \"OKP\", not EC or RSA\nwhole.json: bundle of 2 authorities (1 X.509, 1 JWT), sequence 1, refresh hint 2\n",
        "",
        1,
    ),
    (
        Command::Check(&["part.json", "array.json"]),
        b"",
        b"part.json: bundle of 1 authority (1 X.509, 0 JWT), no sequence, no refresh hint\npart.json: keys[1] is ignored: its kty is \"OKP\", not EC or RSA\narray.json: not a bundle: it is not a JSON object (12)\n",
        "",
        1,
    ),
    // What was written before a fault stands.
    (
        Command::Check(&["whole.json", "gone.json", "array.json"]),
        b"",
        b"whole.json: bundle of 2 authorities (1 X.509, 1 JWT), sequence 1, refresh hint 2\n",
        "fault 77 2\n",
        1,
    ),
    (Command::Check(&["gone.json"]), b"", b"", "fault 77 1\n", 1),
    (
        Command::Check(&["array.json", "huge.json", "gone.json"]),
        b"",
        b"array.json: not a bundle: it is not a JSON object (12)\n",
        "fault 22\n",
        1,
    ),
    (Command::Check(&["huge.json"]), b"", b"", "fault 22\n", 1),
];
