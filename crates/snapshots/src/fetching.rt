//! All domains of a server, as they stood at one moment.
ghost use Rattle.std.specs.Prelude.{◌≡◌, ◌≢◌, None, MatchOption};
ghost use Rattle.frame_front.specs.Dump.{Domains};
ghost use Rattle.map_core.specs.declared.reply.Reply.TheVariants.{All, Same};
ghost use Rattle.snapshots.specs.Fetch.{Fetches, fetch_op as op};

use client::{Client, ClientError};
use map_core::{Ask, AskError, DumpDigest, Op, Reply, Snapshot};
use std::io::{Read, Write};
use thiserror::Error;

/// Why there are no domains.
#[derive(Clone, Copy, Debug, PartialEq, Eq, Drop, Error)]
pub enum FetchError {
    /// The server refuses, or memory ran out before the request was begun.
    #[error("the request is refused: {0}")]
    Refused(AskError),
    /// The client has ended: a stream failed, or what came is no reply.
    #[error("the client has ended: {0}")]
    Ended(ClientError),
}

/// Asks a client that hasn't ended for all domains, once. If a digest is known, they come only if they have another one, and none
/// means that they have it. A reply that is torn off or malformed is an error.
pub fn fetch<R: Read, W: Write>(
    client: &mut Client<R, W>,
    known: Option<DumpDigest>,
) -> Result<Option<Snapshot>, FetchError>
    requires { client.old.ended ≡ None }
    ensures { Fetches known result client.old client.new }
{
    match client.ask(fetch_op(known)) {
        Ok(reply) => match fetched_by(reply) {
            Some(fetched) => Ok(fetched),
            None => unreachable!(),
        },
        Err(why) => match client.ended() {
            Some(error) => Err(FetchError::Ended(error)),
            None => Err(FetchError::Refused(why)),
        },
    }
}

/// A fetch-all, or one that knows a digest.
fn fetch_op(known: Option<DumpDigest>) -> Op
    ensures { result ≡ op known }
{
    match known {
        Some(known) => Op::FetchUnless(known),
        None => Op::FetchAll,
    }
}

/// The domains that a reply has, or none if they are the same, if it is the reply to a fetch-all.
fn fetched_by(reply: Reply) -> Option<Option<Snapshot>>
    ensures { MatchOption result (((items : Domains) → reply ≢ All items) × (reply ≢ Same))
        (λ told. MatchOption told (reply ≡ Same) (λ items. reply ≡ All items)) }
{
    match reply {
        Reply::All(domains) => Some(Some(domains)),
        Reply::Same => Some(None),
        _ => None,
    }
}
