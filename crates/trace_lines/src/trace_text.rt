//! What is printed of a run: a line for each operation, and one for their order.
ghost use Rattle.std.specs.Prelude.{◌≡◌, ◌++◌, OnOk, IfErr};
ghost use Rattle.std.specs.Io.KnownBytes.{Appends};
ghost use Rattle.std.specs.List.{flat_map};
ghost use Rattle.wire.specs.Counted.{end_in, faults_in, next_count};
ghost use Rattle.wire.specs.Output.{WritesFront};
ghost use Rattle.wire.specs.Answers.{bundles_of};
ghost use Rattle.wire.specs.ReplyForm.{reply as said, line_of, IsLined};
ghost use Rattle.trace_lines.specs.TraceText.{trace_text, records_text, record_line, reply_words, answer_words, bundle_words, order_line, number_word, ended};
ghost use Rattle.trace_lines.specs.Private.Puts.{Puts, out_of};

use crate::record_head::record_head;
use crate::write_buffer::WriteBuffer;
use map_core::{AskError, Reply};
use spiffe_doc::{Bundle, TrustDomain};
use std::io::Write;
use step_core::{OpRecord, Trace};
use wire::head::{head_of, put, put_number};
use wire::{Counted, FrontError, ReplyForm};

/// Writes a line for each operation of a run, and one for the order that explains their replies. It takes no memory. If the
/// writer fails, a front of these lines is written.
pub fn put_trace<W: Write>(out: &mut Counted<W>, trace: &Trace) -> Result<(), FrontError>
    ensures ok { OnOk result (Appends (W.contents (end_in out.old)) (W.contents (end_in out.new)) (trace_text trace.now.ops.items trace.now.order.items)) }
    ensures quiet { OnOk result (faults_in out.new ≡ faults_in out.old) }
    ensures fault { IfErr result (λ fault. (fault ≡ FrontError.WriteFault) × (faults_in out.new ≡ next_count (faults_in out.old))) }
    ensures front { WritesFront (W.contents (end_in out.old)) (W.contents (end_in out.new)) (trace_text trace.now.ops.items trace.now.order.items) }
{
    let mut gathered = WriteBuffer::new();
    put_text(&mut gathered, out, trace)?;
    gathered.flush(out)
}

pub(crate) fn put_text<W: Write>(
    gathered: &mut WriteBuffer,
    out: &mut Counted<W>,
    trace: &Trace,
) -> Result<(), FrontError>
    ensures { Puts result (out_of W.contents out.old gathered.old) (out_of W.contents out.new gathered.new) (trace_text trace.now.ops.items trace.now.order.items) }
{
    put_records(gathered, out, trace.ops.as_slice())?;
    put_order(gathered, out, trace.order.as_slice())
}

fn put_records<W: Write>(
    gathered: &mut WriteBuffer,
    out: &mut Counted<W>,
    records: &[OpRecord],
) -> Result<(), FrontError>
    ensures { Puts result (out_of W.contents out.old gathered.old) (out_of W.contents out.new gathered.new) (records_text 0 records.now) }
{
    for (number, entry) in records.iter().enumerate() {
        put_record(gathered, out, number, entry)?;
    }
    Ok(())
}

fn put_record<W: Write>(
    gathered: &mut WriteBuffer,
    out: &mut Counted<W>,
    number: usize,
    entry: &OpRecord,
) -> Result<(), FrontError>
    ensures { Puts result (out_of W.contents out.old gathered.old) (out_of W.contents out.new gathered.new) (ended (record_line number entry.now)) }
{
    let head = record_head(number, entry);
    gathered.put(out, head.as_slice(), &[])?;
    put_reply(gathered, out, &entry.reply)?;
    gathered.put(out, b"\n", &[])
}

/// Puts a reply, or a dash for none.
fn put_reply<W: Write>(
    gathered: &mut WriteBuffer,
    out: &mut Counted<W>,
    reply: &Option<Result<Reply, AskError>>,
) -> Result<(), FrontError>
    ensures { Puts result (out_of W.contents out.old gathered.old) (out_of W.contents out.new gathered.new) (reply_words reply.now) }
{
    match reply {
        Some(answer) => put_answer(gathered, out, answer),
        None => gathered.put(out, b"-", &[]),
    }
}

/// Puts the line of a reply, and on it all bundles if it tells them.
fn put_answer<W: Write>(
    gathered: &mut WriteBuffer,
    out: &mut Counted<W>,
    answer: &Result<Reply, AskError>,
) -> Result<(), FrontError>
    ensures { Puts result (out_of W.contents out.old gathered.old) (out_of W.contents out.new gathered.new) (answer_words answer.now) }
{
    let form = ReplyForm::of_answer(answer);
    put_form(gathered, out, &form)?;
    put_bundles(gathered, out, bundles(answer))
}

/// The bundles that an answer tells beside its reply.
fn bundles(answer: &Result<Reply, AskError>) -> &[(TrustDomain, Bundle)]
    ensures { result.now ≡ bundles_of answer.now }
{
    match answer {
        Ok(Reply::All(snapshot)) => snapshot.pairs(),
        _ => &[],
    }
}

fn put_form<W: Write>(
    gathered: &mut WriteBuffer,
    out: &mut Counted<W>,
    form: &ReplyForm<'_>,
) -> Result<(), FrontError>
    requires lined { IsLined (said form.now) }
    ensures { Puts result (out_of W.contents out.old gathered.old) (out_of W.contents out.new gathered.new) (line_of (said form.now)) }
{
    match form.line_head() {
        Some(head) => gathered.put(out, head.as_slice(), form.text()),
        None => unreachable!(),
    }
}

fn put_bundles<W: Write>(
    gathered: &mut WriteBuffer,
    out: &mut Counted<W>,
    items: &[(TrustDomain, Bundle)],
) -> Result<(), FrontError>
    ensures { Puts result (out_of W.contents out.old gathered.old) (out_of W.contents out.new gathered.new) (flat_map bundle_words items.now) }
{
    for item in items {
        put_bundle(gathered, out, item)?;
    }
    Ok(())
}

fn put_bundle<W: Write>(
    gathered: &mut WriteBuffer,
    out: &mut Counted<W>,
    item: &(TrustDomain, Bundle),
) -> Result<(), FrontError>
    ensures { Puts result (out_of W.contents out.old gathered.old) (out_of W.contents out.new gathered.new) (bundle_words item.now) }
{
    let (domain, bundle) = item;
    let mut head = head_of(b" ");
    put(&mut head, domain.as_str().as_bytes());
    put(&mut head, b" ");
    gathered.put(out, head.as_slice(), bundle.text())
}

fn put_order<W: Write>(
    gathered: &mut WriteBuffer,
    out: &mut Counted<W>,
    order: &[usize],
) -> Result<(), FrontError>
    ensures { Puts result (out_of W.contents out.old gathered.old) (out_of W.contents out.new gathered.new) (ended (order_line order.now)) }
{
    gathered.put(out, b"order", &[])?;
    put_numbers(gathered, out, order)?;
    gathered.put(out, b"\n", &[])
}

fn put_numbers<W: Write>(
    gathered: &mut WriteBuffer,
    out: &mut Counted<W>,
    numbers: &[usize],
) -> Result<(), FrontError>
    ensures { Puts result (out_of W.contents out.old gathered.old) (out_of W.contents out.new gathered.new) (flat_map number_word numbers.now) }
{
    for number in numbers {
        put_next(gathered, out, *number)?;
    }
    Ok(())
}

/// Puts a number behind what stands before it.
fn put_next<W: Write>(
    gathered: &mut WriteBuffer,
    out: &mut Counted<W>,
    number: usize,
) -> Result<(), FrontError>
    ensures { Puts result (out_of W.contents out.old gathered.old) (out_of W.contents out.new gathered.new) (number_word number) }
{
    let mut word = head_of(b" ");
    put_number(&mut word, number as u64);
    gathered.put(out, word.as_slice(), &[])
}
