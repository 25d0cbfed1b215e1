//! What follows from the definitions.
ghost use Rattle.std.specs.Prelude.{ℕ, List};
ghost use Rattle.map_core.specs.PlainMap.{PlainMap};
ghost use Rattle.dump_views.specs.Laws.{ChangesAreOne, DigestOfMaps, DigestTells, NoWordsAreSame, NothingIsSame, PiecesAreWhole};

/// The lines of a certificate's base64 joined are that base64. Each but the last has 64 characters (RFC 7468, section 2).
pub fn pieces_are_whole()
    ensures { (text : List ℕ) → PiecesAreWhole text }
{}

/// Nothing is written of what changed between two dumps if and only if they hold the same domains.
pub fn nothing_is_same()
    ensures { NothingIsSame }
{}

/// What changed between two dumps is one list.
pub fn changes_are_one()
    ensures { ChangesAreOne }
{}

/// The line of a changed bundle says at least one thing, and of two equal bundles there would be nothing to say.
pub fn no_words_are_same()
    ensures { NoWordsAreSame }
{}

/// Two dumps of one digest hold the same domains, or SHA-256 has a collision at them.
pub fn digest_tells()
    ensures { DigestTells }
{}

/// The dumps of two maps have one digest if the maps have the same bundles, and only then unless SHA-256 has a collision at them.
pub fn digest_of_maps()
    ensures { (m n : PlainMap) → DigestOfMaps m n }
{}
