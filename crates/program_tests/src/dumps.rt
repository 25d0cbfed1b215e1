//! The commands over memory: what comes in, what goes out, the fault line and the status.
mod changes;
mod checks;
mod dumps;
mod ends;
mod examples;
mod growths;
mod imports;

use commands::{check_over, diff_over, digest_over, import_over, map_over, pem_over};
use dump_views::Profile;
use spiffe_doc::TrustDomain;
use std::alloc::Global;
use std::test::Fail;
use test_kit::ends::{Left, Sink, Source};
use wire::{Counted, TextError, TextSource};

/// A command, with what its command line names.
#[derive(Clone, Copy)]
enum Command {
    Map(&'static [&'static str], Profile),
    Import,
    Pem(&'static str),
    Digest,
    Check(&'static [&'static str]),
    /// To this dump, or to one that cannot be read.
    Diff(Option<&'static [u8]>),
}

/// A command, its input, and what it leaves: its output, its fault line and its status.
type Row = (Command, &'static [u8], &'static [u8], &'static str, u8);

/// Files and their texts.
static FILES: [(&[u8], &[u8]); 4] = [
    (b"whole.json", examples::WHOLE),
    (b"part.json", examples::PART),
    (b"twice.json", examples::TWICE),
    (b"array.json", b"[]"),
];

/// The texts of these files. For that of `huge.json` there is no memory, and others cannot be read.
#[derive(Drop)]
struct Texts;

impl TextSource for Texts {
    ghost gives = { λ texts name found. Unit {0} };

    fn text(&self, alloc: Global, name: &[u8]) -> Result<Vec<u8>, TextError> {
        for &(file, text) in &FILES {
            if file == name {
                return match Vec::from_slice(alloc, text) {
                    Ok(text) => Ok(text),
                    Err(_) => Err(TextError::Memory),
                };
            }
        }
        if name == b"huge.json".as_slice() {
            return Err(TextError::Memory);
        }
        Err(TextError::Unreadable)
    }
}

fn domains_of(alloc: Global, names: &[&str]) -> Result<Vec<TrustDomain>, Fail> {
    let mut domains = Vec::new(alloc);
    for name in names {
        domains.push(TrustDomain::parse(alloc, name)?)?;
    }
    Ok(domains)
}

/// What a command leaves of these ends.
fn left_by(
    alloc: Global,
    command: Command,
    reader: Source<'_>,
    out: Sink,
    err: Sink,
) -> Result<Left, Fail> {
    let mut reader = Counted::new(reader);
    let mut out = Counted::new(out);
    let mut err = Counted::new(err);
    let status = match command {
        Command::Map(names, profile) => {
            let domains = domains_of(alloc, names)?;
            map_over(
                alloc,
                domains.as_slice(),
                profile,
                &mut reader,
                &mut out,
                &mut err,
            )
        }
        Command::Import => import_over(alloc, &mut reader, &mut out, &mut err),
        Command::Pem(name) => {
            let name = TrustDomain::parse(alloc, name)?;
            pem_over(alloc, &name, &mut reader, &mut out, &mut err)
        }
        Command::Digest => digest_over(alloc, &mut reader, &mut out, &mut err),
        Command::Check(files) => {
            check_over(alloc, &Texts, files, &mut reader, &mut out, &mut err)
        }
        Command::Diff(new) => {
            let new = match new {
                Some(new) => Source::new(new),
                None => Source::broken(b"", 0),
            };
            let mut new = Counted::new(new);
            diff_over(alloc, &mut reader, &mut new, &mut out, &mut err)
        }
    };
    Ok(Left {
        output: out.into_end().into_taken(),
        faults: err.into_end().into_taken(),
        status,
    })
}

/// Fails unless the command leaves this of what the reader gives. The case is told then.
fn leaves(
    alloc: Global,
    command: Command,
    reader: Source<'_>,
    row: (&[u8], &[u8], &str, u8),
) -> Result<(), Fail> {
    let (case, output, faults, status) = row;
    let left = left_by(alloc, command, reader, Sink::new(alloc), Sink::new(alloc))?;
    left.is(case, output, faults, status)
}

#[test]
fn commands_answer(rt: HostRuntime) -> Result<(), Fail> {
    for rows in [
        checks::ROWS.as_slice(),
        imports::ROWS.as_slice(),
        changes::ROWS.as_slice(),
    ] {
        for &(command, input, output, faults, status) in rows {
            let row = (input, output, faults, status);
            leaves(rt.alloc(), command, Source::new(input), row)?;
        }
    }
    for &(dump, rows) in &dumps::DUMPS {
        for &(command, output, faults, status) in rows {
            let row = (dump, output, faults, status);
            leaves(rt.alloc(), command, Source::new(dump), row)?;
        }
    }
    Ok(())
}
