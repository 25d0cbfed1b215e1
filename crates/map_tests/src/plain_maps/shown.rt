//! Gets that are answered to a viewer. No clause says that a bundle which could be shown is shown.
use super::play;
use map_core::{Contents, Viewer};
use spiffe_doc::{Bundle, TrustDomain};
use std::alloc::{AllocError, Global};
use std::test::Fail;
use test_kit::{Shown, is_equal_at, reply_text};

/// Notes the texts of the bundles that it sees, if it has room.
#[derive(Drop)]
struct Notes {
    texts: Vec<u8>,
    has_room: bool,
}

impl Viewer for Notes {
    ghost use Rattle.std.specs.Prelude.{◌≡◌, ◌++◌};
    ghost use Rattle.spiffe_doc.specs.Text.{text_of};

    ghost noted = { λ notes. notes.texts.items };

    ghost notes = { λ old bundle new. new ≡ old ++ text_of bundle };

    fn see(&mut self, bundle: &Bundle) -> Result<(), AllocError> {
        if !self.has_room {
            return Err(AllocError);
        }
        self.texts.extend_from_slice(bundle.text())
    }
}

/// A get of the name, answered by the map to a viewer: `shown`, or the reply.
fn show(alloc: Global, map: &Contents, name: &str, notes: &mut Notes) -> Result<String, Fail> {
    let domain = TrustDomain::parse(alloc, name)?;
    match map.show(&domain, notes)? {
        Some(reply) => Ok(reply_text(alloc, Shown::Counted, &reply)?),
        None => Ok(String::from_str(alloc, "shown")?),
    }
}

/// A name, whether the viewer has room, how a get of it is answered, and what the viewer has noted.
static ROWS: [(&str, bool, &str, &[u8]); 3] = [
    ("a", true, "shown", b"{\"keys\":[],\"spiffe_sequence\":5}"),
    ("a", false, "found 5/0", b""),
    ("b", true, "refused 30", b""),
];

/// A map that has a bundle of sequence 5 under `a` shows it so.
fn shows_rows(alloc: Global, map: &mut Contents) -> Result<(), Fail> {
    play(alloc, Shown::Counted, map, &[("set a 5", "stored")])?;
    for &(name, has_room, answer, noted) in &ROWS {
        let mut notes = Notes {
            texts: Vec::with_capacity(alloc, 64)?,
            has_room,
        };
        let found = show(alloc, map, name, &mut notes)?;
        is_equal_at(&found.as_str(), &answer, &name)?;
        is_equal_at(&notes.texts.as_slice(), &noted, &name)?;
    }
    Ok(())
}

#[test]
fn a_bundle_that_is_found_is_shown_to_a_viewer_with_room(rt: HostRuntime) -> Result<(), Fail> {
    let mut map = Contents::new(rt.alloc());
    let is_so = shows_rows(rt.alloc(), &mut map);
    drop(map);
    is_so
}
