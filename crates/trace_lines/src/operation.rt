//! What a request asks of the map, once its name and its document are judged.
ghost use Rattle.wire.specs.RequestForm.{request};
ghost use Rattle.trace_lines.specs.Private.EventReading.{Reads, operation_of};

use map_core::Op;
use spiffe_doc::DocumentReader;
use std::alloc::Global;
use wire::{Judged, Refusal, RequestForm, Version};

/// Why one line gives no event.
#[derive(Drop)]
pub(crate) enum LineError {
    /// It is the line of no event.
    NoEvent,
    Memory,
}

/// The operation that a request asks for.
#[tactic(auto, unfolding(crate::specs::Private::EventReading::operation_of))]
pub(crate) fn read_operation(alloc: Global, form: &RequestForm<'_>) -> Result<Op, LineError>
    ensures { Reads result (operation_of (request form.now)) }
{
    let mut documents = DocumentReader::new(alloc);
    match form.judge(alloc, &mut documents, Version::Three) {
        Ok(Judged::Ask(op)) => Ok(op),
        Err(Refusal::Memory) => Err(LineError::Memory),
        _ => Err(LineError::NoEvent),
    }
}
