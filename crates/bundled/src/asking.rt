//! The command `ask`: a client of a server that listens on this machine.
ghost use Rattle.std.specs.Prelude.{◌≡◌, IfOk, IfErr, option_map, string_bytes};
ghost use Rattle.wire.specs.Counted.{faults_in};
ghost use Rattle.bundled.specs.Ask.{AskRun, IsKnown, form};
ghost use Rattle.server.specs.Serve.{IsLoadFault};
ghost use Rattle.commands.specs.Streams.{streams};

use crate::patience::Patience;
use crate::server_stream::connect;
use client::{Asking, Form, ServerStreams};
use command_line::{Inquiry, ReplyStyle};
use commands::{Extent, Fault, FileTexts, ServerFault, ask_over, ask_words_over, read_input};
use frame_front::read_dump;
use sha2::{Digest, Sha256};
use std::alloc::Global;
use std::fs::{File, Files};
use std::io::{Read, Write};
use std::net::Net;
use std::time::Clock;
use wire::{Counted, FrontError};

/// Asks the server at a place of this machine, and answers the exit status: 0 if each request was done, 3 if some reply is a
/// refusal, 1 after a fault.
pub fn ask_server<H: Files + Net + Clock, R: Read, W: Write, E: Write>(
    alloc: Global,
    host: &H,
    reader: &mut Counted<R>,
    out: &mut Counted<W>,
    err: &mut Counted<E>,
    wanted: &Inquiry<'_>,
) -> u8
    ensures { AskRun wanted.now result
        (streams R.remaining W.contents E.contents reader.old out.old err.old)
        (streams R.remaining W.contents E.contents reader.new out.new err.new) }
{
    let known = match known_digest(alloc, host, wanted.unless) {
        Ok(known) => known,
        Err(fault) => return fault.tell(err),
    };
    let patience = Patience::new(host, wanted.timeout);
    let Ok((from, to)) = connect(host, wanted.place, &patience) else {
        return Fault::Server(ServerFault::NoConnection).tell(err);
    };
    let mut link = ServerStreams {
        from: Counted::new(from),
        to: Counted::new(to),
    };
    let how = Asking {
        form: form_of(wanted.style),
        retries: wanted.retries,
    };
    let texts = FileTexts::new(host);
    if let Some(digest) = known {
        let words = ["fetch", "unless", digest.as_str()];
        return ask_words_over(alloc, how, &texts, &words, &mut link, out, err);
    }
    let words = wanted.words.as_slice();
    if words.is_empty() {
        ask_over(alloc, how, &texts, reader, &mut link, out, err)
    } else {
        ask_words_over(alloc, how, &texts, words, &mut link, out, err)
    }
}

/// What replies are shown as.
fn form_of(style: ReplyStyle) -> Form
    ensures { result ≡ form style }
{
    match style {
        ReplyStyle::Lines => Form::Lines,
        ReplyStyle::Raw => Form::Frames,
        ReplyStyle::Text => Form::Texts,
    }
}

/// The digest of the dump that the file holds, which may have any length, in hexadecimal digits; none without a file.
fn known_digest<H: Files>(
    alloc: Global,
    host: &H,
    unless: Option<&str>,
) -> Result<Option<String>, Fault>
    ensures ok { IfOk result (λ known. IsKnown unless.entry (option_map string_bytes known)) }
    ensures err { IfErr result (λ fault. IsLoadFault fault) }
{
    let Some(path) = unless else {
        return Ok(None);
    };
    let Ok(file) = File::open(host, path) else {
        return Err(Fault::Front(FrontError::ReadFault));
    };
    let dump = read_input(alloc, Extent::Any, &mut Counted::new(file))?;
    let _domains = read_dump(alloc, dump.as_slice())?;
    Ok(Some(hex::encode(alloc, Sha256::digest(dump.as_slice()))?))
}
