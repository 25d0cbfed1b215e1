//! Lists of relationships, and the lines of refreshes.
use client::Client;
use map_core::{Ask, AskError, MapRefusal, Op, Reply};
use refresh::{
    LineDetails, ListError, RefreshError, RelationError, Remark, Sender, Server, Target, What,
    outcome_line, read_list,
};
use spiffe_doc::{DocError, NameError, TrustDomain, read_document};
use std::alloc::Global;
use std::fmt::Debug;
use std::process::Abort;
use std::test::Fail;
use wire::{Counted, FaultyWriter, FrontError};

/// What was found in this case is what is wanted.
fn is_equal_at<T: PartialEq + Debug, C: Debug>(rt: &impl Abort, found: &T, wanted: &T, case: &C) {
    assert!(rt;
        *found == *wanted,
        "{case:?}: {found:?}, and not {wanted:?}"
    );
}

/// It is so in this case.
fn holds_at<C: Debug>(rt: &impl Abort, is_so: bool, case: &C) {
    assert!(rt; is_so, "{case:?}");
}

/// How many relationships a list has, or why it is refused.
fn count_of(alloc: Global, list: &[u8]) -> Result<usize, ListError> {
    Ok(read_list(alloc, list)?.len())
}

static LISTS: [(&[u8], Result<usize, ListError>); 20] = [
    (b"", Ok(0)),
    (b"\n\n  \t\r\n", Ok(0)),
    (b"# a https://x.example https_web", Ok(0)),
    (b"a https://x.example https_web", Ok(1)),
    (b"a https://x.example https_web\n", Ok(1)),
    (
        b"a https://x.example https_web\r\nb https://x.example https_web\r\n",
        Ok(2),
    ),
    (b" a\t https://x.example  https_web # not b", Ok(1)),
    (b"a https://x.example#b https_web", Ok(1)),
    (
        b"a https://x.example https_web#",
        Err(ListError::BadRelationship(RelationError::BadProfile, 1)),
    ),
    (b"a https://x.example https_spiffe spiffe://a/b", Ok(1)),
    (b"a https://x.example https_web ignored", Ok(1)),
    (b"a", Err(ListError::BadLine(1))),
    (b"a https://x.example", Err(ListError::BadLine(1))),
    (
        b"\na https://x.example https_web b c",
        Err(ListError::BadLine(2)),
    ),
    (
        b"a https://x.example https_web\n\n#\na https://y.example https_web",
        Err(ListError::BadLine(4)),
    ),
    (
        b"a https://x.example https_web\n\xff",
        Err(ListError::BadLine(2)),
    ),
    (
        b"A https://x.example https_web",
        Err(ListError::BadRelationship(RelationError::Domain(NameError::BadChar(0)), 1)),
    ),
    (
        b"\na http://x.example https_web",
        Err(ListError::BadRelationship(RelationError::BadUrl, 2)),
    ),
    (
        b"a https://x.example https_spiffe",
        Err(ListError::BadRelationship(RelationError::NoEndpointId, 1)),
    ),
    (
        b"a https://x.example https_web\na http://x.example https_web",
        Err(ListError::BadRelationship(RelationError::BadUrl, 2)),
    ),
];

#[test]
fn lists(rt: HostRuntime) {
    for &(list, wanted) in &LISTS {
        is_equal_at(&rt, &count_of(rt.alloc(), list), &wanted, &list);
    }
}

/// What a refresh came to.
#[derive(Clone, Copy)]
enum Came {
    Stored,
    Unchanged,
    Refused(MapRefusal),
    Bad(DocError),
    NoAnswer,
    Asked(AskError),
}

fn what_of(came: Came) -> What {
    match came {
        Came::Stored => What::Taken(Reply::Stored),
        Came::Unchanged => What::Taken(Reply::Unchanged),
        Came::Refused(why) => What::Taken(Reply::Refused(why)),
        Came::Bad(error) => What::BadDocument(error),
        Came::NoAnswer => What::NoAnswer,
        Came::Asked(error) => What::Asked(error),
    }
}

/// What a refresh came to, whether a bundle is only sent, whether it took all authorities from a domain, a remark, and the
/// line.
type Row = (Came, bool, bool, Option<Remark>, &'static str);

static LINES: [Row; 18] = [
    (
        Came::Stored,
        false,
        false,
        None,
        "1000 a.example stored due 1300\n",
    ),
    (
        Came::Unchanged,
        false,
        false,
        None,
        "1000 a.example unchanged due 1300\n",
    ),
    (
        Came::Refused(MapRefusal::Stale(7)),
        false,
        false,
        None,
        "1000 a.example refused 31 7 due 1300\n",
    ),
    (
        Came::Bad(DocError::NotJson),
        false,
        false,
        None,
        "1000 a.example bad document 11 due 1300\n",
    ),
    (
        Came::Bad(DocError::BadX5c(2)),
        false,
        false,
        None,
        "1000 a.example bad document 18 at 2 due 1300\n",
    ),
    (
        Came::NoAnswer,
        false,
        false,
        None,
        "1000 a.example no answer due 1300\n",
    ),
    (
        Came::Asked(AskError::Held {
            shard: 3,
            revision: 5,
        }),
        false,
        false,
        None,
        "1000 a.example given up held 3 5 due 1300\n",
    ),
    (
        Came::Asked(AskError::Moved {
            shard: 3,
            first: 5,
            second: 6,
        }),
        false,
        false,
        None,
        "1000 a.example given up moved 3 5 6 due 1300\n",
    ),
    (
        Came::Asked(AskError::Worn { shard: 3 }),
        false,
        false,
        None,
        "1000 a.example given up worn 3 due 1300\n",
    ),
    (
        Came::Asked(AskError::GateShut),
        false,
        false,
        None,
        "1000 a.example given up refused 56 due 1300\n",
    ),
    (
        Came::Stored,
        false,
        true,
        None,
        "1000 a.example stored empty due 1300\n",
    ),
    (
        Came::Stored,
        true,
        false,
        None,
        "1000 a.example sent due 1300\n",
    ),
    (
        Came::Stored,
        true,
        true,
        None,
        "1000 a.example sent empty due 1300\n",
    ),
    (
        Came::Unchanged,
        true,
        true,
        Some(Remark::Unreadable),
        "1000 a.example unchanged due 1300\n",
    ),
    (
        Came::NoAnswer,
        false,
        false,
        Some(Remark::LongName),
        "1000 a.example no answer due 1300 (the name is too long for a file)\n",
    ),
    (
        Came::NoAnswer,
        false,
        false,
        Some(Remark::Denied),
        "1000 a.example no answer due 1300 (permission denied)\n",
    ),
    (
        Came::NoAnswer,
        false,
        false,
        Some(Remark::Memory),
        "1000 a.example no answer due 1300 (out of memory)\n",
    ),
    (
        Came::NoAnswer,
        false,
        false,
        Some(Remark::Unreadable),
        "1000 a.example no answer due 1300 (the file cannot be read)\n",
    ),
];

#[test]
fn lines(rt: HostRuntime) -> Result<(), Fail> {
    let domain = TrustDomain::parse(rt.alloc(), "a.example")?;
    for &(came, is_sent, has_emptied, remark, wanted) in &LINES {
        let told = LineDetails {
            time: 1000,
            due: 1300,
            domain: &domain,
            is_sent,
            has_emptied,
            remark,
        };
        let what = what_of(came);
        let line = outcome_line(&what, &told);
        drop(what);
        is_equal_at(&rt, &line.as_slice(), &wanted.as_bytes(), &wanted);
    }
    Ok(())
}

fn set(alloc: Global, domain: &str, document: &[u8]) -> Result<Op, Fail> {
    let domain = TrustDomain::parse(alloc, domain)?;
    Ok(Op::Set(domain, read_document(alloc, document)?))
}

/// A document with one authority.
const FULL: &[u8] =
    b"{\"keys\":[{\"use\":\"jwt-svid\",\"kty\":\"RSA\",\"kid\":\"k\",\"n\":\"AQAB\",\"e\":\"AQAB\"}]}";

/// A document, and whether its bundle takes all authorities from a domain.
static SENT: [(&[u8], bool); 2] = [(FULL, false), (b"{\"keys\": []}", true)];

#[test]
fn senders(rt: HostRuntime) -> Result<(), Fail> {
    let mut out = Counted::new(Vec::new(rt.alloc()));
    let mut sender = Sender::new(rt.alloc(), &mut out);
    for &(document, has_emptied) in &SENT {
        let op = set(rt.alloc(), "a", document)?;
        let is_stored = matches!(sender.ask(op), Ok(Reply::Stored));
        let told = (is_stored, sender.has_emptied(), sender.fault());
        is_equal_at(&rt, &told, &(true, has_emptied, None), &document);
    }
    let end = b"\x00\x00\x00\x0eS\x01a{\"keys\":[]}".as_slice();
    holds_at(&rt, out.end().as_slice().ends_with(end), &end);
    Ok(())
}

#[test]
fn a_sender_whose_write_fails(rt: HostRuntime) -> Result<(), Fail> {
    let op = set(rt.alloc(), "a", FULL)?;
    let mut short = Counted::new(FaultyWriter::new(rt.alloc(), 5));
    let mut sender = Sender::new(rt.alloc(), &mut short);
    let is_shut = matches!(sender.ask(op), Err(AskError::GateShut));
    let told = (is_shut, sender.fault());
    let wanted = (true, Some(RefreshError::Front(FrontError::WriteFault)));
    is_equal_at(&rt, &told, &wanted, &"after 5 bytes");
    Ok(())
}

/// A document, the replies, and whether its bundle takes all authorities from a domain. The server asks for what stands
/// there before it sets a bundle with no authorities.
static SERVED: [(&[u8], &[u8], bool); 4] = [
    (FULL, b"\x00\x00\x00\x01s", false),
    (
        b"{\"keys\":[]}",
        b"\x00\x00\x00\x01\x1e\x00\x00\x00\x01s",
        false,
    ),
    (
        b"{\"keys\":[]}",
        b"\x00\x00\x00\x0cf{\"keys\":[]}\x00\x00\x00\x01s",
        false,
    ),
    (
        b"{\"keys\":[]}",
        b"\x00\x00\x00\x4af{\"keys\":[{\"e\":\"AQAB\",\"kid\":\"k\",\"kty\":\"RSA\",\"n\":\"AQAB\",\"use\":\"jwt-svid\"}]}\x00\x00\x00\x01s",
        true,
    ),
];

#[test]
fn servers(rt: HostRuntime) -> Result<(), Fail> {
    for &(document, replies, has_emptied) in &SERVED {
        let op = set(rt.alloc(), "a", document)?;
        let writer = Counted::new(Vec::new(rt.alloc()));
        let mut server = Server::new(Client::new(rt.alloc(), Counted::new(replies), writer));
        let is_stored = matches!(server.ask(op), Ok(Reply::Stored));
        let told = (is_stored, server.has_emptied(), server.fault());
        is_equal_at(&rt, &told, &(true, has_emptied, None), &document);
    }
    Ok(())
}
