//! What stands before a reply in the line of its operation.
ghost use Rattle.std.specs.Prelude.{◌≡◌, ◌+◌, ◌≤◌, ◌++◌, ℕ, List};
ghost use Rattle.arrayvec.specs.ArrayVec.{array_vec_len};
ghost use Rattle.trace_lines.specs.TraceText.{event_word};
ghost use Rattle.trace_lines.specs.Private.Puts.{record_words};

use step_core::OpRecord;
use wire::Head;
use wire::head::{head_of, put, put_number};

/// The number of the operation, who began it, and its first and its last event.
pub(crate) fn record_head(number: usize, entry: &OpRecord) -> Head
    ensures { (reply : List ℕ) → result.items ++ reply ≡ record_words number entry.now reply }
{
    let mut head = head_of(b"record ");
    put_number(&mut head, number as u64);
    put(&mut head, b" caller ");
    put_number(&mut head, u64::from(entry.caller));
    put(&mut head, b" first ");
    put_number(&mut head, entry.first);
    put(&mut head, b" last ");
    put_event(&mut head, entry.last);
    put(&mut head, b" reply ");
    head
}

/// Puts the number of an event, or a dash for none.
fn put_event(head: &mut Head, event: Option<u64>)
    requires { array_vec_len head.old ≤ 263 }
    ensures items { head.new.items ≡ head.old.items ++ event_word event }
    ensures few { array_vec_len head.new ≤ array_vec_len head.old + 20 }
{
    match event {
        Some(event) => put_number(head, event),
        None => put(head, b"-"),
    }
}
