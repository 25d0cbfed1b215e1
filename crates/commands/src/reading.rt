//! Dumps that are read frame by frame.
ghost use Rattle.std.specs.Prelude.{◌≡◌, ◌+◌, ◌<◌, ◌^◌, ◌++◌, ◌∷◌, [], ℕ, List, length, Err, IfOk, IfErr, OnOk};
ghost use Rattle.commands.specs.declared.input.Extent.TheVariants.{Any};
ghost use Rattle.commands.specs.Input.{IsInput, ReadsInput};
ghost use Rattle.commands.specs.declared.fault.Fault.TheVariants.{Front};
ghost use Rattle.commands.specs.Reading.{IsRead, Unread};
ghost use Rattle.frame_front.specs.Dump.{Domains, IsDump, HaveValidBundles, requests_for};
ghost use Rattle.frame_front.specs.DumpDecoder.{HasTaken, IsDrained};
ghost use Rattle.wire.specs.Counted.{end_in, faults_in, next_count, reads_of};
ghost use Rattle.wire.specs.Frame.{stream_of};
ghost use Rattle.wire.specs.declared.error.FrontError.TheVariants.{ReadFault, WriteFault};

use crate::Fault;
use crate::dump_sink::DumpSink;
use crate::input::{Extent, PIECE_BYTES};
use frame_front::{DumpDecoder, Migration};
use map_core::Snapshot;
use std::alloc::{AllocError, Global};
use std::io::Read;
use wire::{Counted, FrontError};

/// Gives the next piece of a dump to the sink, and each domain whose frame is whole now.
fn take_piece<S: DumpSink>(
    decoder: &mut DumpDecoder,
    piece: &[u8],
    sink: &mut S,
) -> Result<(), AllocError>
    ensures ok { OnOk result ((came : List ℕ) (items : Domains) → HasTaken decoder.old came items → S.holds sink.old came items
        → length came + length piece.now < 2 ^ 64
        → (all : Domains) × HasTaken decoder.new (came ++ piece.now) all × S.holds sink.new (came ++ piece.now) all) }
    ensures drained { OnOk result (IsDrained decoder.new) }
    ensures kept { S.kept sink.new ≡ S.kept sink.old }
{
    decoder.feed(piece)?;
    sink.take_bytes(piece);
    while let Some((domain, bundle)) = decoder.next_domain()? {
        sink.take_domain(domain, bundle)?;
    }
    Ok(())
}

/// Reads the dump that is the input, of any length, and gives the sink each piece and each domain as it comes: so no more than a
/// frame and a piece is kept here. What is no dump is read to its end too, and a failed read is told before a wrong frame.
pub fn read_dump_into<R: Read, S: DumpSink>(
    alloc: Global,
    reader: &mut Counted<R>,
    sink: &mut S,
) -> Result<(), Fault>
    requires { S.holds sink.old [] [] }
    ensures ok { OnOk result ((input : List ℕ) × (items : Domains) × IsInput Any input (R.remaining (end_in reader.old)) (R.remaining (end_in reader.new))
        × IsDump input items × HaveValidBundles items × S.holds sink.new input items) }
    ensures kept { S.kept sink.new ≡ S.kept sink.old }
    ensures err { IfErr result (λ fault. Unread Any fault (R.remaining (end_in reader.old)) (R.remaining (end_in reader.new))) }
    ensures reads { ReadsInput Any result (reads_of reader.old) (reads_of reader.new) }
    ensures read_fault { result ≡ Err (Front ReadFault) → faults_in reader.new ≡ next_count (faults_in reader.old) }
    ensures no_write_fault { result ≡ Err (Front WriteFault) → ⊥ }
{
    let _begun = reader.reads();
    let Ok(mut decoder) = DumpDecoder::new(alloc) else {
        return Err(Fault::Front(FrontError::Memory));
    };
    let mut piece = [0; PIECE_BYTES];
    for turn in 0..Extent::Any.most_reads() {
        let count = match reader.read(&mut piece) {
            Ok(count) => count,
            Err(_) => return Err(Fault::Front(FrontError::ReadFault)),
        };
        if count == 0 {
            return match decoder.finish() {
                Ok(()) => Ok(()),
                Err(error) => Err(Fault::Dump(error)),
            };
        }
        let (fresh, _) = piece.split_at(count);
        if let Err(_) = take_piece(&mut decoder, fresh, sink) {
            return Err(Fault::Front(FrontError::Memory));
        }
    }
    Err(Fault::Front(FrontError::TurnsUsed))
}

/// The domains of the dump that is the input, which may have any length.
pub(crate) fn read_domains<R: Read>(
    alloc: Global,
    reader: &mut Counted<R>,
) -> Result<Snapshot, Fault>
    ensures ok { IfOk result (λ items. IsRead Any items (R.remaining (end_in reader.old)) (R.remaining (end_in reader.new))) }
    ensures err { IfErr result (λ fault. Unread Any fault (R.remaining (end_in reader.old)) (R.remaining (end_in reader.new))) }
    ensures reads { ReadsInput Any result (reads_of reader.old) (reads_of reader.new) }
    ensures read_fault { result ≡ Err (Front ReadFault) → faults_in reader.new ≡ next_count (faults_in reader.old) }
    ensures no_write_fault { result ≡ Err (Front WriteFault) → ⊥ }
{
    let mut domains = Vec::new(alloc);
    match read_dump_into(alloc, reader, &mut domains) {
        Ok(()) => Ok(Snapshot::from_pairs(domains)),
        Err(fault) => Err(fault),
    }
}

/// The requests of version 2 that store again what the dump holds that is the input, which may have any length.
pub fn read_requests<R: Read>(alloc: Global, reader: &mut Counted<R>) -> Result<Vec<u8>, Fault>
    ensures ok { IfOk result (λ requests. (input : List ℕ) × (items : Domains)
        × IsInput Any input (R.remaining (end_in reader.old)) (R.remaining (end_in reader.new))
        × IsDump input items × HaveValidBundles items × (requests.items ≡ stream_of (requests_for items) [])) }
    ensures err { IfErr result (λ fault. Unread Any fault (R.remaining (end_in reader.old)) (R.remaining (end_in reader.new))) }
{
    let Ok(mut migration) = Migration::new(alloc) else {
        return Err(Fault::Front(FrontError::Memory));
    };
    read_dump_into(alloc, reader, &mut migration)?;
    Ok(migration.into_requests())
}
