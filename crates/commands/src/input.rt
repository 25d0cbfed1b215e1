//! Input that is read whole before it is judged.
ghost use Rattle.std.specs.Prelude.{◌≡◌, Err, IfOk, IfErr};
ghost use Rattle.wire.specs.Counted.{end_in, faults_in, next_count, reads_of};
ghost use Rattle.wire.specs.declared.error.FrontError.TheVariants.{ReadFault};
ghost use Rattle.commands.specs.Input.{IsInput, InputFault, ReadsInput, most_bytes, most_reads};
ghost use Rattle.commands.specs.declared.fault.Fault.TheVariants.{Front};

use crate::fault::Fault;
use std::alloc::Global;
use std::io::Read;
use wire::{Counted, FrontError};

/// The most bytes of one read.
pub(crate) const PIECE_BYTES: usize = 65_536;

/// How long an input may be.
#[derive(Clone, Copy)]
pub enum Extent {
    /// 16,777,216 bytes at most, in 1,000,000 reads.
    Limited,
    /// Any number of bytes, in 1,000,000,000 reads.
    Any,
}

impl Extent {
    /// The most bytes of an input.
    fn most_bytes(self) -> usize
        ensures { result ≡ most_bytes self }
    {
        match self {
            Extent::Limited => 16_777_216,
            Extent::Any => usize::MAX,
        }
    }

    /// The most reads that an input may take.
    pub(crate) fn most_reads(self) -> u64
        ensures { result ≡ most_reads self }
    {
        match self {
            Extent::Limited => 1_000_000,
            Extent::Any => 1_000_000_000,
        }
    }
}

/// All of the input.
pub fn read_input<R: Read>(
    alloc: Global,
    extent: Extent,
    reader: &mut Counted<R>,
) -> Result<Vec<u8>, Fault>
    ensures ok { IfOk result (λ input. IsInput extent input.items (R.remaining (end_in reader.old)) (R.remaining (end_in reader.new))) }
    ensures err { IfErr result (λ fault. InputFault extent fault (R.remaining (end_in reader.old)) (R.remaining (end_in reader.new))) }
    // A turn is one call of `read`.
    ensures reads { ReadsInput extent result (reads_of reader.old) (reads_of reader.new) }
    ensures read_fault { result ≡ Err (Front ReadFault) → faults_in reader.new ≡ next_count (faults_in reader.old) }
{
    let _begun = reader.reads();
    let mut input = Vec::new(alloc);
    let mut piece = [0; PIECE_BYTES];
    let most_bytes = extent.most_bytes();
    for turn in 0..extent.most_reads() {
        let count = match reader.read(&mut piece) {
            Ok(count) => count,
            Err(_) => return Err(Fault::Front(FrontError::ReadFault)),
        };
        if count == 0 {
            return Ok(input);
        }
        let (fresh, _) = piece.split_at(count);
        if most_bytes - input.len() < count {
            return Err(Fault::InputTooLong);
        }
        if let Err(_) = input.extend_from_slice(fresh) {
            return Err(Fault::Front(FrontError::Memory));
        }
    }
    Err(Fault::Front(FrontError::TurnsUsed))
}
