//! A line of a list of relationships.
ghost use Rattle.std.specs.Prelude.{◌≡◌, ◌∷◌, [], MatchOption, None, IfOk, IfErr, OnErr};
ghost use Rattle.std.specs.Str.Iter.{split_ascii_whitespace_text};
ghost use Rattle.refresh.specs.List.{begins_comment, listed_by, listed_in, words_of};
ghost use Rattle.refresh.specs.Private.Listing.{IsLineFault, refusal, words_in, words_read};

use crate::error::RelationError;
use crate::list::ListError;
use crate::relationship::Relationship;
use std::alloc::Global;
use std::str::SplitAsciiWhitespace;

/// The words of a line that is to list a relationship.
#[derive(Clone, Copy)]
struct Words<'a> {
    domain: &'a str,
    url: &'a str,
    profile: &'a str,
    endpoint_id: Option<&'a str>,
}

/// A line is not UTF-8, or has too few or too many words.
#[derive(Clone, Copy)]
struct Malformed;

/// The relationship of the line with this number, if it has one.
pub(crate) fn read_line(
    alloc: Global,
    line: &[u8],
    number: u64,
) -> Result<Option<Relationship>, ListError>
    ensures ok { IfOk result (λ found. listed_in line.now ≡ Ok found) }
    ensures err { IfErr result (λ error. IsLineFault number (listed_in line.now) error) }
{
    match read_words(line) {
        Ok(Some(words)) => read_relationship(alloc, &words, number),
        Ok(None) => Ok(None),
        Err(Malformed) => Err(ListError::BadLine(number)),
    }
}

/// The relationship that the words of the line with this number are.
fn read_relationship(
    alloc: Global,
    words: &Words<'_>,
    number: u64,
) -> Result<Option<Relationship>, ListError>
    ensures ok { IfOk result (λ found. listed_by (words_in words.now) ≡ Ok found) }
    ensures err { IfErr result (λ error. IsLineFault number (listed_by (words_in words.now)) error) }
{
    match Relationship::read(
        alloc,
        words.domain,
        words.url,
        words.profile,
        words.endpoint_id,
    ) {
        Ok(relationship) => Ok(Some(relationship)),
        Err(error) => Err(refused_by(error, number)),
    }
}

/// The error of the line with this number, whose words are not a relationship.
fn refused_by(error: RelationError, number: u64) -> ListError
    ensures { result ≡ refusal number error }
{
    match error {
        RelationError::Memory => ListError::Memory,
        _ => ListError::BadRelationship(error, number),
    }
}

/// The words of a line, if it has any.
fn read_words(line: &[u8]) -> Result<Option<Words<'_>>, Malformed>
    ensures ok { IfOk result (λ words. listed_in line.now ≡ listed_by (words_read words)) }
    ensures err { OnErr result (listed_in line.now ≡ Err None) }
{
    let Ok(text) = str::from_utf8(line) else {
        return Err(Malformed);
    };
    let mut words = text.split_ascii_whitespace();
    let Some(domain) = next_word(&mut words) else {
        return Ok(None);
    };
    let Some(url) = next_word(&mut words) else {
        return Err(Malformed);
    };
    let Some(profile) = next_word(&mut words) else {
        return Err(Malformed);
    };
    let endpoint_id = next_word(&mut words);
    if endpoint_id.is_some() && next_word(&mut words).is_some() {
        return Err(Malformed);
    }
    Ok(Some(Words {
        domain,
        url,
        profile,
        endpoint_id,
    }))
}

/// The next word of a line, unless a comment begins there.
fn next_word<'a>(words: &mut SplitAsciiWhitespace<'a>) -> Option<&'a str>
    ensures { MatchOption result (words_of (split_ascii_whitespace_text words.old) ≡ [])
        (λ word. words_of (split_ascii_whitespace_text words.old) ≡ word.now ∷ words_of (split_ascii_whitespace_text words.new)) }
{
    match words.next() {
        Some(word) if !is_comment(word) => Some(word),
        _ => None,
    }
}

/// Whether a word begins a comment.
fn is_comment(word: &str) -> bool
    ensures { result ≡ begins_comment word.now }
{
    word.starts_with('#')
}
