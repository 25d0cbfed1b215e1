//! Worked examples of relationships, due times and refreshes.
//!
//! A map is lent to what may fail and is then dropped by a call of `drop`: where a scope drops it, the prover follows all its parts
//! on each way out.
mod beside_readers;
mod relationships;

use map_core::{Ask, AskError, Contents, Op, Reply};
use refresh::{
    Outcome, Relationship, Schedule, Source, SourceFault, What, next_due, refresh_at, refresh_once,
};
use spiffe_doc::TrustDomain;
use std::alloc::{AllocError, Global};
use std::fmt::Debug;
use std::process::Abort;
use std::test::Fail;

/// What was found in this case is what is wanted.
fn is_equal_at<T: PartialEq + Debug, C: Debug>(rt: &impl Abort, found: &T, wanted: &T, case: &C) {
    assert!(rt;
        *found == *wanted,
        "{case:?}: {found:?}, and not {wanted:?}"
    );
}

/// It is so.
fn holds(rt: &impl Abort, is_so: bool) {
    assert!(rt; is_so);
}

/// Gives the document that is kept for a trust domain, and counts its fetches.
#[derive(Drop)]
struct Folder<'a> {
    alloc: Global,
    documents: &'a [(&'a str, &'a str)],
    fetches: u64,
}

impl<'a> Source for Folder<'a> {
    ghost fetches = { λ before relationship document after. Unit {0} };

    fn fetch(&mut self, relationship: &Relationship) -> Result<Vec<u8>, SourceFault> {
        self.fetches = self.fetches.saturating_add(1);
        for (name, document) in self.documents {
            if relationship.domain().as_str() == *name {
                return match document.as_bytes().to_vec(self.alloc) {
                    Ok(bytes) => Ok(bytes),
                    Err(_) => Err(SourceFault),
                };
            }
        }
        Err(SourceFault)
    }
}

/// Gives no map: each operation is refused so.
#[derive(Drop)]
struct Refuses(AskError);

impl Ask for Refuses {
    ghost use Rattle.std.specs.Prelude.{None, Option};
    ghost use Rattle.map_core.specs.PlainMap.{PlainMap};

    ghost answers = { λ before op answer after. Unit {0} };

    ghost shows = { λ m. None };

    ghost answers_plainly = { λ old op result new m shown answer. absurd (cc shown) };

    fn ask(&mut self, op: Op) -> Result<Reply, AskError> {
        drop(op);
        Err(self.0)
    }
}

fn web(alloc: Global, domain: &str) -> Result<Relationship, Fail> {
    let read = Relationship::read(
        alloc,
        domain,
        "https://bundles.example/a",
        "https_web",
        None,
    );
    Ok(read?)
}

/// A time, a refresh hint, and when the next refresh is due.
static DUE_TIMES: [(u64, Option<u64>, u64); 10] = [
    (1000, Some(0), 1001),
    (1000, Some(1), 1001),
    (1000, Some(2), 1002),
    (1000, None, 1300),
    (0, Some(60), 60),
    (18446744073709551605, Some(60), 18446744073709551615),
    (18446744073709551615, Some(0), 18446744073709551615),
    (18446744073709551615, None, 18446744073709551615),
    (0, Some(18446744073709551615), 18446744073709551615),
    (1, Some(18446744073709551615), 18446744073709551615),
];

#[test]
fn due_times(rt: HostRuntime) {
    for &(now, hint, due) in &DUE_TIMES {
        is_equal_at(&rt, &next_due(now, hint), &due, &now);
    }
}

/// The number of an outcome: 1 stored, 2 unchanged, 4 no answer, else the number of its refusal.
fn outcome_number(outcome: &Outcome) -> u64 {
    match &outcome.what {
        What::Taken(Reply::Stored) => 1,
        What::Taken(Reply::Unchanged) => 2,
        What::Taken(Reply::Refused(why)) => u64::from(why.number()),
        What::Taken(_) => 0,
        What::BadDocument(error) => u64::from(error.number()),
        What::NoAnswer => 4,
        What::Asked(error) => u64::from(error.number()),
    }
}

/// What endpoints give, which of two relationships is refreshed and when, what it comes to, when it is due again, and
/// which is next then.
type Step = (
    &'static [(&'static str, &'static str)],
    usize,
    u64,
    u64,
    u64,
    (usize, u64),
);

const HINTED: &[(&str, &str)] = &[("a", "{\"keys\":[],\"spiffe_refresh_hint\":60}")];

static STEPS: [Step; 4] = [
    (HINTED, 0, 1000, 1, 1060, (1, 0)),
    (HINTED, 1, 1000, 4, 1300, (0, 1060)),
    (HINTED, 0, 1060, 2, 1120, (0, 1120)),
    (&[("a", "[]")], 0, 1060, 12, 1360, (1, 1300)),
];

/// Refreshes two relationships over an empty map.
fn refreshes_two(
    rt: &impl Abort,
    alloc: Global,
    map: &mut Contents,
    schedule: &mut Schedule,
) -> Result<(), AllocError> {
    is_equal_at(
        rt,
        &(schedule.len(), schedule.next()),
        &(2, Some((0, 0))),
        &"first",
    );
    for &(documents, place, now, number, due, next) in &STEPS {
        let mut source = Folder {
            alloc,
            documents,
            fetches: 0,
        };
        assert!(rt; place < schedule.len());
        let outcome = refresh_at(alloc, &mut source, map, schedule, place, now)?;
        let found = (
            outcome_number(&outcome),
            outcome.due,
            schedule.due(place),
            schedule.next(),
            source.fetches,
        );
        is_equal_at(rt, &found, &(number, due, due, Some(next), 1), &now);
    }
    assert!(rt; 1 < schedule.len());
    let second = schedule.relationship(1).domain().as_str();
    is_equal_at(rt, &(second, map.len()), &("b", 1), &"in all");
    Ok(())
}

/// Two relationships, and the second's endpoint gives nothing.
#[test]
fn two_relationships(rt: HostRuntime) -> Result<(), Fail> {
    let relationships = vec![in rt.alloc(); web(rt.alloc(), "a")?, web(rt.alloc(), "b")?]?;
    let mut schedule = Schedule::new(rt.alloc(), relationships)?;
    let mut map = Contents::new(rt.alloc());
    let is_so = refreshes_two(&rt, rt.alloc(), &mut map, &mut schedule);
    drop(map);
    drop(schedule);
    Ok(is_so?)
}

/// An endpoint for each domain `d0` to `d999`: what it gives depends on the number of the domain and on how many
/// fetches there have been.
#[derive(Drop)]
struct Endpoints {
    alloc: Global,
    fetches: u64,
}

impl Endpoints {
    fn document(&self, number: u64) -> Option<String> {
        let fetches = self.fetches;
        let made = match number % 5 {
            0 => format!(in self.alloc;
                "{{\"keys\":[],\"spiffe_sequence\":{fetches},\"spiffe_refresh_hint\":{}}}",
                10 + number % 50
            ),
            1 => format!(in self.alloc; "{{\"keys\":[]}}"),
            2 => format!(in self.alloc;
                "{{\"keys\":[],\"spiffe_sequence\":{},\"spiffe_refresh_hint\":{}}}",
                9 + fetches % 3,
                number % 97
            ),
            3 => format!(in self.alloc; "[]"),
            _ => return None,
        };
        made.ok()
    }
}

impl Source for Endpoints {
    ghost fetches = { λ before relationship document after. Unit {0} };

    fn fetch(&mut self, relationship: &Relationship) -> Result<Vec<u8>, SourceFault> {
        self.fetches = self.fetches.saturating_add(1);
        let Some(digits) = relationship.domain().as_str().strip_prefix("d") else {
            return Err(SourceFault);
        };
        let Ok(number) = digits.parse::<u64>() else {
            return Err(SourceFault);
        };
        match self.document(number) {
            Some(text) => Ok(text.into_bytes()),
            None => Err(SourceFault),
        }
    }
}

/// The hash FNV-1a, of whole numbers in place of bytes.
fn hash_with(hash: u64, value: u64) -> u64 {
    (hash ^ value).wrapping_mul(1_099_511_628_211)
}

/// The hash after each 1,000 refreshes.
static HASHES: [u64; 10] = [
    10_429_078_414_123_294_372,
    3_475_901_908_210_728_064,
    6_898_065_092_472_164_811,
    6_728_568_976_754_935_236,
    9_464_064_057_376_746_143,
    3_197_192_746_810_455_316,
    15_648_196_741_047_738_872,
    17_436_450_552_786_703_693,
    15_488_748_206_951_795_731,
    6_236_970_780_191_813_919,
];

/// Refreshes 1,000 relationships over an empty map, and compares the hashes.
fn refreshes_ten_thousand(rt: &impl Abort, alloc: Global, map: &mut Contents) -> Result<(), Fail> {
    let mut relationships = Vec::new(alloc);
    for number in 0..1000 {
        let name = format!(in alloc; "d{number}")?;
        relationships.push(web(alloc, name.as_str())?)?;
    }
    let mut schedule = Schedule::new(alloc, relationships)?;
    let mut source = Endpoints { alloc, fetches: 0 };
    let mut hash = 14_695_981_039_346_656_037;
    let mut now = 0;
    for &expected in &HASHES {
        for _ in 0..1000 {
            let Some((place, due)) = schedule.next() else {
                return Err(Fail::from("a relationship is next"));
            };
            now = due.max(now);
            let outcome = refresh_at(alloc, &mut source, map, &mut schedule, place, now)?;
            is_equal_at(rt, &schedule.due(place), &outcome.due, &place);
            hash = hash_with(hash, place as u64);
            hash = hash_with(hash, outcome_number(&outcome));
            hash = hash_with(hash, outcome.due);
        }
        is_equal_at(rt, &hash, &expected, &now);
    }
    is_equal_at(rt, &source.fetches, &10_000, &now);
    Ok(())
}

/// 1,000 relationships and 10,000 refreshes, each when it is due. A program of another language made the table: the
/// hash of all places, outcomes and due times so far, after each 1,000 refreshes.
#[test]
fn ten_thousand_refreshes(rt: HostRuntime) -> Result<(), Fail> {
    let mut map = Contents::new(rt.alloc());
    let is_so = refreshes_ten_thousand(&rt, rt.alloc(), &mut map);
    drop(map);
    is_so
}

/// What a refresh with this document comes to, and when it is due again.
fn outcome_of<A: Ask>(
    alloc: Global,
    map: &mut A,
    relationship: &Relationship,
    document: &str,
    now: u64,
) -> Result<(u64, u64), AllocError> {
    let mut source = Folder {
        alloc,
        documents: &[("a", document)],
        fetches: 0,
    };
    let outcome = refresh_once(alloc, &mut source, map, relationship, now)?;
    Ok((outcome_number(&outcome), outcome.due))
}

/// A map that refuses is told as it refuses; out of memory is an error.
fn is_refused(rt: &impl Abort, alloc: Global, named: &Relationship) -> Result<(), AllocError> {
    let document = "{\"keys\":[],\"spiffe_refresh_hint\":60}";
    let mut held = Refuses(AskError::Held {
        shard: 0,
        revision: 3,
    });
    let found = outcome_of(alloc, &mut held, named, document, 1000)?;
    is_equal_at(rt, &found, &(42, 1060), &"held");
    let mut full = Refuses(AskError::Memory);
    holds(
        rt,
        outcome_of(alloc, &mut full, named, document, 1000).is_err(),
    );
    Ok(())
}

/// What `a` has: the sequence of its bundle, if it has one.
fn sequence_of_a(alloc: Global, map: &mut Contents) -> Result<Option<u64>, Fail> {
    let get = Op::Get(TrustDomain::parse(alloc, "a")?);
    match map.ask(get)? {
        Reply::Found(bundle) => Ok(bundle.sequence()),
        _ => Ok(None),
    }
}

/// A document, when it is fetched, what that comes to, and when the next refresh is due.
static OLDER: [(&str, u64, u64, u64); 2] = [
    ("{\"keys\":[],\"spiffe_sequence\":7}", 0, 1, 300),
    (
        "{\"keys\":[],\"spiffe_sequence\":6,\"spiffe_refresh_hint\":5}",
        300,
        31,
        305,
    ),
];

/// Refreshes over an empty map by a document and then by an older one, which is refused: the bundle that is held stays.
fn refuses_older(
    rt: &impl Abort,
    alloc: Global,
    map: &mut Contents,
    named: &Relationship,
) -> Result<(), Fail> {
    for &(document, now, number, due) in &OLDER {
        let found = outcome_of(alloc, map, named, document, now)?;
        is_equal_at(rt, &found, &(number, due), &document);
        is_equal_at(rt, &sequence_of_a(alloc, map)?, &Some(7), &document);
    }
    Ok(())
}

#[test]
fn refused_documents(rt: HostRuntime) -> Result<(), Fail> {
    let relationship = web(rt.alloc(), "a")?;
    let mut map = Contents::new(rt.alloc());
    let is_so = refuses_older(&rt, rt.alloc(), &mut map, &relationship);
    let is_told = is_refused(&rt, rt.alloc(), &relationship);
    drop(map);
    drop(relationship);
    is_so?;
    Ok(is_told?)
}

/// What a domain with a name of over 24 bytes gives.
const LONG: &[(&str, &str)] = &[(
    "a-trust-domain-of-over-24-bytes",
    "{\"keys\":[{\"use\":\"jwt-svid\",\"kty\":\"RSA\",\"kid\":\"k\",\"n\":\"AQAB\",\"e\":\"AQAB\"}]}",
)];

/// Refreshes over an empty map, and again if memory runs out, which is told as an error.
fn refreshes_again(
    rt: &impl Abort,
    alloc: Global,
    map: &mut Contents,
    schedule: &mut Schedule,
) -> Result<(), AllocError> {
    let mut source = Folder {
        alloc,
        documents: LONG,
        fetches: 0,
    };
    let mut tries = 1;
    assert!(rt; 0 < schedule.len());
    let first = refresh_at(alloc, &mut source, map, schedule, 0, 1000);
    let number = first.as_ref().map_or(22, outcome_number);
    drop(first);
    if number != 1 {
        // The source is refused memory too, and has no other word for it.
        let due = if number == 4 { 1300 } else { 0 };
        let found = (number == 4 || number == 22, schedule.next(), map.len());
        is_equal_at(rt, &found, &(true, Some((0, due)), 0), &number);
        tries = 2;
        let again = refresh_at(alloc, &mut source, map, schedule, 0, 1000)?;
        is_equal_at(rt, &outcome_number(&again), &1, &"again");
    }
    let found = (schedule.next(), map.len(), source.fetches);
    is_equal_at(rt, &found, &(Some((0, 1300)), 1, tries), &"stored");
    if tries == 2 {
        return Err(AllocError);
    }
    Ok(())
}

/// A refresh that memory was refused to has changed nothing besides the source, and is made again.
#[test]
fn a_refused_growth_changes_nothing(rt: HostRuntime) -> Result<(), Fail> {
    let name = "a-trust-domain-of-over-24-bytes";
    let mut schedule = Schedule::new(rt.alloc(), vec![in rt.alloc(); web(rt.alloc(), name)?]?)?;
    let mut map = Contents::new(rt.alloc());
    let is_so = refreshes_again(&rt, rt.alloc(), &mut map, &mut schedule);
    drop(map);
    drop(schedule);
    Ok(is_so?)
}
