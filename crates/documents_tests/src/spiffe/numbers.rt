//! The numbers by which replies and fault lines name the refusals.
use super::is_equal_at;
use spiffe_doc::{DocError, IdError, NameError};

static NAMES: [(NameError, u8); 4] = [
    (NameError::Empty, 1),
    (NameError::TooLong, 2),
    (NameError::BadChar(4), 3),
    (NameError::Memory, 22),
];

static IDS: [(IdError, u8); 6] = [
    (IdError::Empty, 1),
    (IdError::TooLong, 2),
    (IdError::BadChar(1), 3),
    (IdError::NotSpiffe, 4),
    (IdError::BadPath(2), 5),
    (IdError::Memory, 22),
];

static DOCUMENTS: [(DocError, u8); 13] = [
    (DocError::TooLong, 10),
    (DocError::NotJson, 11),
    (DocError::NotObject, 12),
    (DocError::NoKeys, 13),
    (DocError::BadSequence, 14),
    (DocError::BadHint, 15),
    (DocError::BadEntry(2), 16),
    (DocError::BadKey(3), 17),
    (DocError::BadX5c(4), 18),
    (DocError::BadKid(5), 19),
    (DocError::KidTwice(6), 20),
    (DocError::TooMany, 21),
    (DocError::Memory, 22),
];

#[test]
fn numbers(rt: HostRuntime) {
    for &(error, number) in &NAMES {
        is_equal_at(&rt, &error.number(), &number, &error);
    }
    for &(error, number) in &IDS {
        is_equal_at(&rt, &error.number(), &number, &error);
    }
    for &(error, number) in &DOCUMENTS {
        is_equal_at(&rt, &error.number(), &number, &error);
    }
}
