//! The numbers of errors, by which clients know them, and the place for which a document is refused.
use frame_front::DumpError;
use spiffe_doc::{DocError, NameError};
use std::test::Fail;
use test_kit::is_equal;
use wire::{FrontError, Refusal};

#[test]
fn numbers_of_errors(_rt: HostRuntime) -> Result<(), Fail> {
    let rows = [
        (FrontError::Memory.number(), 22),
        (FrontError::BadLength.number(), 50),
        (FrontError::Truncated.number(), 52),
        (FrontError::ReadFault.number(), 53),
        (FrontError::WriteFault.number(), 54),
        (FrontError::TurnsUsed.number(), 55),
        (DumpError::BadDump(7).number(), 63),
        (DumpError::Memory.number(), 22),
    ];
    for &(found, wanted) in &rows {
        is_equal(&found, &wanted)?;
    }
    Ok(())
}

#[test]
fn numbers_and_places_of_refusals(_rt: HostRuntime) -> Result<(), Fail> {
    let rows = [
        (Refusal::BadRequest, 51, None),
        (Refusal::BadName(NameError::Empty), 1, None),
        (Refusal::BadName(NameError::BadChar(2)), 3, Some(2)),
        (Refusal::BadDocument(DocError::BadEntry(4)), 16, Some(4)),
        (Refusal::PassedOver, 23, None),
        (Refusal::Memory, 22, None),
    ];
    for (refusal, number, place) in &rows {
        is_equal(&(refusal.number(), refusal.place()), &(*number, *place))?;
    }
    Ok(())
}
