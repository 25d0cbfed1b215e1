//! Texts as they lie in a document, to be found among others.
ghost use Rattle.std.specs.Prelude.{◌≡◌};
ghost use Rattle.spiffe_doc.specs.Private.Prefix.{prefix_number};

use crate::name::prefix_of;
use std::cmp::Ordering;
use std::marker::Model;

/// A key id, or the base64 text of a certificate, that lies in a document. Ordered by its bytes.
#[derive(Drop)]
pub(crate) struct TextKey<'a> {
    /// The first 8 bytes, as one number: most key ids differ there, and are told apart without a look at their texts.
    prefix: u64,
    text: &'a str,
}

impl<'a> Model for TextKey<'a> {
    ghost use Rattle.std.specs.Prelude.{◌≡◌, List, ℕ};
    ghost use Rattle.spiffe_doc.specs.Key.{AreBytes};
    ghost use Rattle.spiffe_doc.specs.Private.Prefix.{prefix_number};

    ghost Value = { List ℕ };

    ghost view = { λ key. key.text.now };

    ghost invariant = { λ key. AreBytes key.text.now × (key.prefix ≡ prefix_number 8 key.text.now) };
}

impl<'a> TextKey<'a> {
    pub(crate) fn new(text: &'a str) -> TextKey<'a>
        ensures { result ≡ text.now }
    {
        TextKey {
            prefix: prefix_of(text.as_bytes()),
            text,
        }
    }
}

impl<'a> PartialEq for TextKey<'a> {
    ghost use Rattle.std.specs.Prelude.{bytes_eq};
    ghost use Rattle.std.specs.Cmp.{partial_equiv_from_equiv};
    ghost use Rattle.std.specs.Cmp.Lexicographic.{nat_list_eq_equiv};

    ghost eq = { bytes_eq };

    ghost laws = { partial_equiv_from_equiv nat_list_eq_equiv };

    fn eq(&self, other: &TextKey<'a>) -> bool {
        self.text == other.text
    }
}

impl<'a> Eq for TextKey<'a> {
    ghost use Rattle.std.specs.Cmp.Lexicographic.{nat_list_eq_equiv};

    ghost laws = { nat_list_eq_equiv };
}

impl<'a> PartialOrd for TextKey<'a> {
    ghost use Rattle.std.specs.Prelude.{Some};
    ghost use Rattle.std.specs.Ordering.{nat_cmp};
    ghost use Rattle.std.specs.Cmp.Lexicographic.{slice_cmp, texts_po};

    ghost partial_cmp = { λ a b. Some (slice_cmp nat_cmp a b) };

    ghost laws = { texts_po };

    fn partial_cmp(&self, other: &TextKey<'a>) -> Option<Ordering> {
        Some(self.cmp(other))
    }
}

impl<'a> Ord for TextKey<'a> {
    ghost use Rattle.std.specs.Prelude.{refl};
    ghost use Rattle.std.specs.Ordering.{nat_cmp};
    ghost use Rattle.std.specs.Cmp.Lexicographic.{slice_cmp, nat_list_cmp_total, texts_ties};

    ghost cmp = { slice_cmp nat_cmp };

    ghost total = { nat_list_cmp_total };

    ghost matches_partial_cmp = { λ a b. refl };

    ghost matches_eq = { texts_ties };

    fn cmp(&self, other: &TextKey<'a>) -> Ordering {
        match self.prefix.cmp(&other.prefix) {
            Ordering::Equal => self.text.cmp(other.text),
            order => order,
        }
    }
}
