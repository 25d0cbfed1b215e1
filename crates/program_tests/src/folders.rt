//! Snapshots in a folder that tells what is done in it, and at servers that answer otherwise.
ghost use Rattle.std.specs.Prelude.{◌≡◌, IfErr};
ghost use Rattle.snapshots.specs.declared.error.FolderError.TheVariants.{Unusable};

use client::{Client, ClientError};
use map_core::AskError;
use snapshots::{FetchError, Folder, FolderError, fetch, has_files, update};
use spiffe_doc::{Bundle, TrustDomain, read_document};
use std::alloc::{AllocError, Global};
use std::io;
use std::test::Fail;
use test_kit::{holds_at, is_equal_at};
use wire::Counted;

/// A folder that keeps a line for each deed, and refuses one after so many.
#[derive(Drop)]
struct Told {
    alloc: Global,
    lines: String,
    left: usize,
    /// The deeds by which the current snapshot came.
    current: &'static [&'static str],
}

impl Told {
    fn new(alloc: Global, left: usize, current: &'static [&'static str]) -> Told {
        Told {
            alloc,
            lines: String::new(alloc),
            left,
            current,
        }
    }

    fn tell(&mut self, line: &str) -> Result<(), FolderError>
        ensures { IfErr result (λ error. error ≡ Unusable → self.old.left ≡ 0) }
    {
        if self.left == 0 {
            return Err(FolderError::Unusable);
        }
        self.left -= 1;
        match self.lines.push_str(line) {
            Ok(()) => Ok(()),
            Err(_) => Err(FolderError::Memory),
        }
    }

    /// Whether these are its deeds, and no others.
    fn has_done(&self, deeds: &[&str]) -> bool {
        let mut lines = self.lines.as_str();
        for deed in deeds {
            lines = lines.strip_prefix(deed).unwrap_or("another deed");
        }
        lines.is_empty()
    }
}

fn line_of(alloc: Global, name: &str, bytes: &[u8]) -> Result<String, AllocError> {
    let text = str::from_utf8(bytes).unwrap_or("?");
    format!(in alloc; "put {name} {text}\n")
}

impl Folder for Told {
    ghost use Rattle.std.specs.Prelude.{None};

    ghost done = { λ _. None };

    ghost shows = { λ folder file yes. Unit {0} };

    ghost fails = { λ folder. folder.left ≡ 0 };

    fn holds(&self, name: &str, bytes: &[u8]) -> Result<bool, FolderError> {
        match line_of(self.alloc, name, bytes) {
            Ok(line) => Ok(self.current.contains(&line.as_str())),
            Err(_) => Err(FolderError::Memory),
        }
    }

    fn begin(&mut self) -> Result<(), FolderError> {
        self.tell("begin\n")
    }

    fn put(&mut self, name: &str, bytes: &[u8]) -> Result<(), FolderError> {
        match line_of(self.alloc, name, bytes) {
            Ok(line) => self.tell(line.as_str()),
            Err(_) => Err(FolderError::Memory),
        }
    }

    fn show(&mut self) -> Result<(), FolderError> {
        self.tell("show\n")
    }
}

const SEVEN: &str = r#"{"keys":[],"spiffe_sequence":7}"#;

const EIGHT: &str = r#"{"keys":[],"spiffe_sequence":8}"#;

const NINE: &str = r#"{"keys":[],"spiffe_sequence":9}"#;

/// A certificate of three bytes, 1, 2 and 3: `AQID` in base64.
const X509: &str =
    r#"{"keys":[{"use":"x509-svid","kty":"RSA","n":"AQAB","e":"AQAB","x5c":["AQID"]}]}"#;

/// The deeds for `a` of sequence 7.
const ONE: &[&str] = &[
    "begin\n",
    "put map {\"trust_domains\":{\"a\":{\"keys\":[],\"spiffe_sequence\":7}}}\n\n",
    "put a.json {\"keys\":[],\"spiffe_sequence\":7}\n",
    "put a.pem \n",
    "show\n",
];

/// The deeds for `a` of sequence 7 and `b` of sequence 8.
const TWO: &[&str] = &[
    "begin\n",
    "put map {\"trust_domains\":{\"a\":{\"keys\":[],\"spiffe_sequence\":7},\"b\":{\"keys\":[],\"spiffe_sequence\":8}}}\n\n",
    "put a.json {\"keys\":[],\"spiffe_sequence\":7}\n",
    "put a.pem \n",
    "put b.json {\"keys\":[],\"spiffe_sequence\":8}\n",
    "put b.pem \n",
    "show\n",
];

/// Names and documents, the deeds by which the current snapshot came, whether there is a new one, and the deeds for it.
type Row = (
    &'static [(&'static str, &'static str)],
    &'static [&'static str],
    bool,
    &'static [&'static str],
);

/// A snapshot is a map, two files of each domain, and then it is shown. If each file is as it was, nothing is done; if one is
/// not, all are written.
static ROWS: [Row; 6] = [
    (
        &[(".", SEVEN), ("map", EIGHT)],
        &[],
        true,
        &[
            "begin\n",
            "put map {\"trust_domains\":{\".\":{\"keys\":[],\"spiffe_sequence\":7},\"map\":{\"keys\":[],\"spiffe_sequence\":8}}}\n\n",
            "put ..json {\"keys\":[],\"spiffe_sequence\":7}\n",
            "put ..pem \n",
            "put map.json {\"keys\":[],\"spiffe_sequence\":8}\n",
            "put map.pem \n",
            "show\n",
        ],
    ),
    (
        &[("a", X509)],
        &[],
        true,
        &[
            "begin\n",
            "put map {\"trust_domains\":{\"a\":{\"keys\":[{\"e\":\"AQAB\",\"kty\":\"RSA\",\"n\":\"AQAB\",\"use\":\"x509-svid\",\"x5c\":[\"AQID\"]}]}}}\n\n",
            "put a.json {\"keys\":[{\"e\":\"AQAB\",\"kty\":\"RSA\",\"n\":\"AQAB\",\"use\":\"x509-svid\",\"x5c\":[\"AQID\"]}]}\n",
            "put a.pem -----BEGIN CERTIFICATE-----\nAQID\n-----END CERTIFICATE-----\n\n",
            "show\n",
        ],
    ),
    (&[("a", SEVEN), ("b", EIGHT)], &[], true, TWO),
    (&[("a", SEVEN), ("b", EIGHT)], TWO, false, &[]),
    (
        &[("a", SEVEN), ("b", NINE)],
        TWO,
        true,
        &[
            "begin\n",
            "put map {\"trust_domains\":{\"a\":{\"keys\":[],\"spiffe_sequence\":7},\"b\":{\"keys\":[],\"spiffe_sequence\":9}}}\n\n",
            "put a.json {\"keys\":[],\"spiffe_sequence\":7}\n",
            "put a.pem \n",
            "put b.json {\"keys\":[],\"spiffe_sequence\":9}\n",
            "put b.pem \n",
            "show\n",
        ],
    ),
    (&[("a", SEVEN)], &[], true, ONE),
];

fn domains_of(
    alloc: Global,
    documents: &[(&str, &str)],
) -> Result<Vec<(TrustDomain, Bundle)>, Fail> {
    let mut domains = Vec::new(alloc);
    for &(name, document) in documents {
        let bundle = read_document(alloc, document.as_bytes())?;
        domains.push((TrustDomain::parse(alloc, name)?, bundle))?;
    }
    Ok(domains)
}

/// What an update of the folder to these domains and documents gives.
fn updated(
    alloc: Global,
    folder: &mut Told,
    documents: &[(&str, &str)],
) -> Result<Result<bool, FolderError>, Fail> {
    let domains = domains_of(alloc, documents)?;
    Ok(update(alloc, folder, domains.as_slice()))
}

#[test]
fn snapshots_are_written(rt: HostRuntime) -> Result<(), Fail> {
    let alloc = rt.alloc();
    for &(documents, current, is_new, deeds) in &ROWS {
        let mut folder = Told::new(alloc, 100, current);
        let found = updated(alloc, &mut folder, documents)?;
        is_equal_at(&found, &Ok(is_new), &deeds)?;
        holds_at(folder.has_done(deeds), &folder.lines)?;
    }
    Ok(())
}

static DEEDS: &[&str] = ONE;

/// Whichever deed fails, nothing comes after it, and nothing is shown.
#[test]
fn folders_that_fail(rt: HostRuntime) -> Result<(), Fail> {
    let alloc = rt.alloc();
    for left in 0..DEEDS.len() {
        let mut folder = Told::new(alloc, left, &[]);
        let found = updated(alloc, &mut folder, &[("a", SEVEN)])?;
        is_equal_at(&found, &Err(FolderError::Unusable), &left)?;
        let (deeds, _) = DEEDS.split_at(left);
        holds_at(folder.left == 0 && folder.has_done(deeds), &folder.lines)?;
    }
    Ok(())
}

/// How many bytes a name has, and whether it has files.
static SIZES: [(usize, bool); 4] = [(250, true), (251, false), (254, false), (255, false)];

/// A name of 250 bytes has files, and a longer one has none: it is in the map, and the domains before and behind it have theirs.
#[test]
fn long_names(rt: HostRuntime) -> Result<(), Fail> {
    let alloc = rt.alloc();
    for &(size, has) in &SIZES {
        let name = "b".repeat(alloc, size)?;
        is_equal_at(
            &has_files(&TrustDomain::parse(alloc, name.as_str())?),
            &has,
            &size,
        )?;
        let documents = [("a", SEVEN), (name.as_str(), EIGHT), ("c", NINE)];
        let map = format!(in alloc;
            "put map {{\"trust_domains\":{{\"a\":{SEVEN},\"{name}\":{EIGHT},\"c\":{NINE}}}}}\n\n"
        )?;
        let json = format!(in alloc; "put {name}.json {EIGHT}\n")?;
        let pem = format!(in alloc; "put {name}.pem \n")?;
        let (json, pem) = if has {
            (json.as_str(), pem.as_str())
        } else {
            ("", "")
        };
        let deeds = [
            "begin\n",
            map.as_str(),
            "put a.json {\"keys\":[],\"spiffe_sequence\":7}\n",
            "put a.pem \n",
            json,
            pem,
            "put c.json {\"keys\":[],\"spiffe_sequence\":9}\n",
            "put c.pem \n",
            "show\n",
        ];
        let mut folder = Told::new(alloc, 100, &[]);
        is_equal_at(&updated(alloc, &mut folder, &documents)?, &Ok(true), &size)?;
        holds_at(folder.has_done(&deeds), &folder.lines)?;
    }
    Ok(())
}

const ALL_OF_ONE: &[u8] = b"\0\0\0\x09a\0\0\0\0\0\0\0\x01\0\0\0\x0ei\x01a{\"keys\":[]}";

/// A reply, how many of its bytes are sent, and what a fetch gives: how many domains, or why none.
static REPLIES: [(&[u8], usize, Result<usize, FetchError>); 8] = [
    (b"\0\0\0\x09a\0\0\0\0\0\0\0\0", 13, Ok(0)),
    (ALL_OF_ONE, 31, Ok(1)),
    (
        ALL_OF_ONE,
        30,
        Err(FetchError::Ended(ClientError::Truncated)),
    ),
    (
        ALL_OF_ONE,
        13,
        Err(FetchError::Ended(ClientError::Truncated)),
    ),
    (b"", 0, Err(FetchError::Ended(ClientError::Truncated))),
    (
        b"\0\0\0\0",
        4,
        Err(FetchError::Ended(ClientError::BadLength)),
    ),
    (
        b"\0\0\0\x01s",
        5,
        Err(FetchError::Ended(ClientError::BadReply)),
    ),
    (
        b"\0\0\0\x01\x16",
        5,
        Err(FetchError::Refused(AskError::Memory)),
    ),
];

/// What a fetch gives of these bytes that a server sends.
fn fetched(alloc: Global, reply: &[u8]) -> Result<usize, FetchError> {
    let mut client = Client::new(alloc, Counted::new(reply), Counted::new(io::sink()));
    Ok(fetch(&mut client, None)?.map_or(0, |domains| domains.len()))
}

/// Replies, whole and torn off, and refusals.
#[test]
fn replies(rt: HostRuntime) -> Result<(), Fail> {
    for (reply, size, wanted) in &REPLIES {
        let (sent, _) = reply.split_at(reply.len().min(*size));
        is_equal_at(&fetched(rt.alloc(), sent), wanted, reply)?;
    }
    Ok(())
}

/// If memory runs out, nothing is shown, and no domains are given.
#[test]
fn a_refused_growth_shows_nothing(rt: HostRuntime) -> Result<(), Fail> {
    let alloc = rt.alloc();
    let mut folder = Told::new(alloc, 100, &[]);
    let found = updated(alloc, &mut folder, &[("a", X509)])?;
    let was_refused = found.is_err();
    let is_told = match found {
        Ok(is_new) => is_new && folder.lines.as_str().ends_with("show\n"),
        Err(error) => { error == FolderError::Memory && !folder.lines.as_str().contains("show") }
    };
    holds_at(is_told, &folder.lines)?;
    let ended = fetched(alloc, ALL_OF_ONE);
    let was_refused = was_refused || ended.is_err();
    let is_given = match ended {
        Ok(count) => count == 1,
        Err(FetchError::Refused(why)) => why == AskError::Memory,
        Err(FetchError::Ended(why)) => why == ClientError::Memory,
    };
    holds_at(is_given, &"a fetch")?;
    if was_refused {
        return Err(Fail::from(AllocError));
    }
    Ok(())
}
