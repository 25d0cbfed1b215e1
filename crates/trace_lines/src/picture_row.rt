//! The lines of a picture: its events, its callers, and the order.
ghost use Rattle.std.specs.Prelude.{◌≡◌, ◌+◌, ◌≤◌, ◌<◌, ◌^◌, ◌%◌, ◌++◌, codes, take, decimal, replicate};
ghost use Rattle.arrayvec.specs.ArrayVec.{array_vec_len};
ghost use Rattle.trace_lines.specs.Picture as drawing;

use crate::picture::{COLUMNS, LABEL};
use step_core::OpRecord;
use wire::Head;
use wire::head::{head_of, put, put_number};

/// Every how many events one is numbered.
const TICK: usize = 10;

/// The numbers of every tenth event, of so many from this one on.
pub(crate) fn event_line(from: usize, width: usize) -> Head
    requires few { from ≤ 960 }
    requires narrow { width ≤ 60 }
    ensures { result.items ≡ drawing.event_line from width }
{
    let mut line = head_of(b"event    ");
    let ticks = (width + (TICK - 1)) / TICK;
    for tick in 0..ticks {
        put_tick(&mut line, from + TICK * tick);
    }
    line
}

/// Puts a number whose last digit stands over its column.
fn put_tick(line: &mut Head, event: usize)
    requires room { array_vec_len line.old ≤ 263 }
    requires few { event < 10 ^ 4 }
    ensures items { line.new.items ≡ line.old.items ++ drawing.tick event }
    ensures few { array_vec_len line.new ≤ array_vec_len line.old + 10 }
{
    let number = number_of(event);
    put_spaces(line, TICK - number.len());
    put(line, number.as_slice());
}

/// A number in decimal.
fn number_of(number: usize) -> Head
    ensures { result.items ≡ decimal number }
{
    let mut digits = head_of(b"");
    put_number(&mut digits, number as u64);
    digits
}

fn put_spaces(line: &mut Head, count: usize)
    requires { array_vec_len line.old + count ≤ 283 }
    ensures items { line.new.items ≡ line.old.items ++ replicate count 32 }
    ensures few { array_vec_len line.new ≡ array_vec_len line.old + count }
{
    for _ in 0..count {
        line.push(b' ');
    }
}

/// The row of a caller.
pub(crate) fn caller_line(records: &[OpRecord], from: usize, width: usize, caller: u32) -> Head
    requires few { from ≤ 960 }
    requires narrow { width ≤ 60 }
    ensures { result.items ≡ drawing.caller_line records.now from width caller }
{
    let mut line = caller_label(caller);
    for event in from..from + width {
        line.push(caller_mark(records, caller, event as u64));
    }
    line
}

/// What stands before the columns of a caller.
fn caller_label(caller: u32) -> Head
    ensures items { result.items ≡ drawing.label (codes "caller " ++ decimal caller) }
    ensures few { array_vec_len result ≤ 18 }
{
    let mut line = head_of(b"caller ");
    put_number(&mut line, u64::from(caller));
    let room = LABEL - line.len();
    put_spaces(&mut line, room);
    line
}

/// What stands in the row of a caller, in the column of an event.
fn caller_mark(records: &[OpRecord], caller: u32, event: u64) -> u8
    ensures { result ≡ drawing.caller_mark records.now caller event }
{
    let shown = drawn(records);
    for entry in shown {
        if is_open(caller, event, entry) {
            return open_mark(event, entry);
        }
    }
    b'.'
}

/// The operations that are drawn. Each begins at an event of its own, so that the others begin after the last column.
pub(crate) fn drawn(records: &[OpRecord]) -> &[OpRecord]
    ensures { result.now ≡ take 960 records.now }
{
    if records.len() < COLUMNS {
        records
    } else {
        &records[..COLUMNS]
    }
}

/// Whether the operation is this caller's, has begun, and has not ended before this event.
fn is_open(caller: u32, event: u64, entry: &OpRecord) -> bool
    ensures { result ≡ drawing.is_open caller event entry.now }
{
    entry.caller == caller && entry.first <= event && is_not_after(entry.last, event)
}

fn is_not_after(last: Option<u64>, event: u64) -> bool
    ensures { result ≡ drawing.not_after last event }
{
    match last {
        Some(last) => event <= last,
        None => true,
    }
}

fn is_last(last: Option<u64>, event: u64) -> bool
    ensures { result ≡ drawing.is_last last event }
{
    match last {
        Some(last) => last == event,
        None => false,
    }
}

fn open_mark(event: u64, entry: &OpRecord) -> u8
    ensures { result ≡ drawing.open_mark event entry.now }
{
    if entry.first == event {
        b'['
    } else if is_last(entry.last, event) {
        b']'
    } else {
        b'-'
    }
}

/// The row of the order.
pub(crate) fn order_row(records: &[OpRecord], order: &[usize], from: usize, width: usize) -> Head
    requires few { from ≤ 960 }
    requires narrow { width ≤ 60 }
    ensures { result.items ≡ drawing.order_row records.now order.now from width }
{
    let mut line = head_of(b"order             ");
    for event in from..from + width {
        line.push(order_mark(records, order, event as u64));
    }
    line
}

/// What stands in the row of the order, in the column of an event.
fn order_mark(records: &[OpRecord], order: &[usize], event: u64) -> u8
    ensures { result ≡ drawing.order_mark records.now order.now event }
{
    let mut from = 0;
    for number in order {
        let at = moment(from, records, *number);
        if at == event {
            return digit(*number);
        }
        if event < at {
            return b'.';
        }
        from = at + 1;
    }
    b'.'
}

/// The last digit of a number.
fn digit(number: usize) -> u8
    ensures { result ≡ 48 + number % 10 }
{
    b'0' + (number % 10) as u8
}

/// The first event, from this one on, at which the operation may take effect.
fn moment(from: u64, records: &[OpRecord], number: usize) -> u64
    ensures { result ≡ drawing.moment from records.now number }
{
    match records.get(number) {
        Some(entry) => from.max(entry.first),
        None => from,
    }
}
