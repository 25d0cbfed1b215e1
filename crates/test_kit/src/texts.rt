//! Replies, as words.
use map_core::{AskError, Contents, Expect, MapRefusal, Reply, Snapshot};
use spiffe_doc::Bundle;
use std::alloc::{AllocError, Global};

/// How a text shows a bundle.
#[derive(Clone, Copy, PartialEq, Eq, Debug, Drop)]
pub enum Shown {
    /// As its sequence or `-`, a slash, and how many authorities it has: `5/2`.
    Counted,
    /// As its canonical text.
    Whole,
}

fn sequence_text(alloc: Global, sequence: Option<u64>) -> Result<String, AllocError> {
    match sequence {
        Some(sequence) => format!(in alloc; "{sequence}"),
        None => String::from_str(alloc, "-"),
    }
}

fn bundle_text(alloc: Global, shown: Shown, bundle: &Bundle) -> Result<String, AllocError> {
    if shown == Shown::Whole {
        let text = std::str::from_utf8(bundle.text()).unwrap_or("not UTF-8");
        return String::from_str(alloc, text);
    }
    let sequence = sequence_text(alloc, bundle.sequence())?;
    let count = bundle.authorities().len();
    format!(in alloc; "{sequence}/{count}")
}

/// How many bundles there are, and each name with its bundle, if there are at most nine.
pub fn snapshot_text(alloc: Global, shown: Shown, all: &Snapshot) -> Result<String, AllocError> {
    let mut text = format!(in alloc; "all {}", all.len())?;
    if all.len() > 9 {
        return Ok(text);
    }
    for (domain, bundle) in all.pairs() {
        text.push(' ')?;
        text.push_str(domain.as_str())?;
        text.push(' ')?;
        text.push_str(bundle_text(alloc, shown, bundle)?.as_str())?;
    }
    Ok(text)
}

/// The same of all that the map holds.
pub fn contents_text(
    alloc: Global,
    shown: Shown,
    contents: &Contents,
) -> Result<String, AllocError> {
    snapshot_text(alloc, shown, &contents.copy()?.into_snapshot()?)
}

fn expect_text(alloc: Global, expect: Expect) -> Result<String, AllocError> {
    match expect {
        Expect::Absent => String::from_str(alloc, "absent"),
        Expect::Unnumbered => String::from_str(alloc, "none"),
        Expect::Sequence(sequence) => format!(in alloc; "{sequence}"),
    }
}

/// The number of the refusal, and what it tells besides: `refused 31 5`, `refused 36 absent`.
fn refusal_text(alloc: Global, why: MapRefusal) -> Result<String, AllocError> {
    let number = why.number();
    match why {
        MapRefusal::Stale(sequence) => format!(in alloc; "refused {number} {sequence}"),
        MapRefusal::NotExpected(found) => {
            let found = expect_text(alloc, found)?;
            format!(in alloc; "refused {number} {found}")
        }
        _ => format!(in alloc; "refused {number}"),
    }
}

/// A reply: `stored`, `appended 6`, `found 6/1`, `all 1 a 6/1`, `same`, `refused 30`.
pub fn reply_text(alloc: Global, shown: Shown, reply: &Reply) -> Result<String, AllocError> {
    match reply {
        Reply::Stored => String::from_str(alloc, "stored"),
        Reply::Unchanged => String::from_str(alloc, "unchanged"),
        Reply::Appended(sequence) => {
            let sequence = sequence_text(alloc, *sequence)?;
            format!(in alloc; "appended {sequence}")
        }
        Reply::Removed => String::from_str(alloc, "removed"),
        Reply::Found(bundle) => {
            let bundle = bundle_text(alloc, shown, bundle)?;
            format!(in alloc; "found {bundle}")
        }
        Reply::All(all) => snapshot_text(alloc, shown, all),
        Reply::Same => String::from_str(alloc, "same"),
        Reply::Refused(why) => refusal_text(alloc, *why),
    }
}

/// An error: `memory`, `worn 0`, `moved 0 1 3`, `held 0 2` or `shut`.
fn error_text(alloc: Global, error: AskError) -> Result<String, AllocError> {
    match error {
        AskError::Memory => String::from_str(alloc, "memory"),
        AskError::Worn { shard } => format!(in alloc; "worn {shard}"),
        AskError::Moved {
            shard,
            first,
            second,
        } => format!(in alloc; "moved {shard} {first} {second}"),
        AskError::Held { shard, revision } => format!(in alloc; "held {shard} {revision}"),
        AskError::GateShut => String::from_str(alloc, "shut"),
    }
}

/// A reply or an error.
pub fn answer_text(
    alloc: Global,
    shown: Shown,
    answer: &Result<Reply, AskError>,
) -> Result<String, AllocError> {
    match answer {
        Ok(reply) => reply_text(alloc, shown, reply),
        Err(error) => error_text(alloc, *error),
    }
}
