//! The command `ask`: requests are asked of a server, and its replies are shown.
ghost use Rattle.std.specs.Prelude.{◌≡◌, ◌==◌, drop, map, IfOk};
ghost use Rattle.std.specs.List.{list_any};
ghost use Rattle.commands.specs.Ask.{Asks, AsksWords, server, spaced as with_spaces};
ghost use Rattle.wire.specs.Output.{end_of};
ghost use Rattle.commands.specs.Streams.{streams};

use crate::ending::Outcome;
use crate::fault::{Fault, ServerFault};
use client::{AskFault, Asking, ServerStreams};
use std::alloc::{AllocError, Global};
use std::io::{Read, Write};
use wire::{Counted, FrontError, TextSource};

/// Asks the requests that the input has a line each of, with the texts that they name, and shows the replies; answers the exit
/// status: 0 if each request was done, 3 if some reply is a refusal, 1 after a fault.
pub fn ask_over<T: TextSource, R: Read, F: Read, S: Write, W: Write, E: Write>(
    alloc: Global,
    how: Asking,
    texts: &T,
    reader: &mut Counted<R>,
    link: &mut ServerStreams<F, S>,
    out: &mut Counted<W>,
    err: &mut Counted<E>,
) -> u8
    ensures { Asks (T.gives texts.now) how result
        (streams R.remaining W.contents E.contents reader.old out.old err.old)
        (streams R.remaining W.contents E.contents reader.new out.new err.new)
        (server F.remaining S.contents link.old) (server F.remaining S.contents link.new) }
{
    match link.ask_stream(alloc, how, texts, reader, out) {
        Ok(refused) => refused.status(),
        Err(AskFault::BadLine(line)) => Fault::BadLine(line).tell(err),
        Err(AskFault::Unreadable(line)) => Fault::UnreadText(line).tell(err),
        Err(AskFault::Server(error)) => Fault::Server(ServerFault::Client(error)).tell(err),
        Err(AskFault::Front(error)) => Fault::Front(error).tell(err),
    }
}

/// Asks the request whose words these are, and shows the reply; answers the exit status. A line feed in a word is a fault, and then
/// nothing is asked: what stands behind it would be another request.
pub fn ask_words_over<T: TextSource, F: Read, S: Write, W: Write, E: Write>(
    alloc: Global,
    how: Asking,
    texts: &T,
    words: &[&str],
    link: &mut ServerStreams<F, S>,
    out: &mut Counted<W>,
    err: &mut Counted<E>,
) -> u8
    ensures { AsksWords (T.gives texts.now) how (map (λ word. word.now) words.now) result
        (end_of W.contents out.old) (end_of W.contents out.new) (end_of E.contents err.old) (end_of E.contents err.new)
        (server F.remaining S.contents link.old) (server F.remaining S.contents link.new) }
{
    let Ok(text) = spaced(alloc, words) else {
        return Fault::Front(FrontError::Memory).tell(err);
    };
    let line = behind_first(text.as_slice());
    if has_line_feed(line) {
        return Fault::BadLine(1).tell(err);
    }
    let mut reader = Counted::new(line);
    ask_over(alloc, how, texts, &mut reader, link, out, err)
}

/// The words, each with a space before it.
fn spaced(alloc: Global, words: &[&str]) -> Result<Vec<u8>, AllocError>
    ensures { IfOk result (λ text. text.items ≡ with_spaces (map (λ word. word.now) words.now)) }
{
    let mut text = Vec::new(alloc);
    for (place, word) in words.iter().enumerate() {
        text.push(b' ')?;
        text.extend_from_slice(word.as_bytes())?;
    }
    Ok(text)
}

/// All but the first byte, if there is one.
fn behind_first(text: &[u8]) -> &[u8]
    ensures { result.now ≡ drop 1 text.now }
{
    match text {
        [_, line @ ..] => line,
        [] => text,
    }
}

fn has_line_feed(bytes: &[u8]) -> bool
    ensures { result ≡ list_any (λ byte. byte == 10) bytes.now }
{
    bytes.contains(&b'\n')
}
