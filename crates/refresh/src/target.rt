//! Where the bundles that were read go: to a server, or as frames to standard output.
ghost use Rattle.std.specs.Prelude.{◌≡◌, false, option_copied};
ghost use Rattle.wire.specs.Counted.{end_in, faults_in};
ghost use Rattle.refresh.specs.Target.{Looks, SenderState, Sends, ServerState, emptied_by, has_authorities as reply_has_authorities};

use crate::error::RefreshError;
use client::{Client, write_request};
use map_core::{Ask, AskError, Op, Reply};
use spiffe_doc::TrustDomain;
use std::alloc::Global;
use std::io::{Read, Write};
use std::marker::Model;
use wire::{Counted, FrontError};

/// Whoever is asked to set a bundle.
pub trait Target: Ask {
    ghost use Rattle.std.specs.Prelude.{◌≡◌, Bool, Option};
    ghost use Rattle.refresh.specs.declared.error.RefreshError.{RefreshError};

    // Why nothing more can be asked in a state, if that is so.
    ghost fault_in: { Self → Option RefreshError };

    // Whether the last Set took all its authorities from a domain that had some.
    ghost empties_in: { Self → Bool };

    // Whether a bundle that was set is only sent, and nobody answers.
    ghost only_sends: { Bool };

    /// Why nothing more can be asked, if that is so.
    fn fault(&self) -> Option<RefreshError>
        ensures { result ≡ fault_in self.now };

    /// Whether the last Set took all its authorities from a domain that had some.
    fn has_emptied(&self) -> bool
        ensures { result ≡ empties_in self.now };

    /// Whether a bundle that was set is only sent, and nobody answers.
    fn is_sender(&self) -> bool
        ensures { result ≡ only_sends };
}

/// The domain for which the operation sets a bundle with no authorities, if it does.
fn emptied(op: &Op) -> Option<&TrustDomain>
    ensures { option_copied result ≡ emptied_by op.now }
{
    match op {
        Op::Set(domain, bundle) => {
            if bundle.authorities().is_empty() {
                Some(domain)
            } else {
                None
            }
        }
        _ => None,
    }
}

/// Whether the reply is a bundle with authorities.
fn has_authorities(reply: &Reply) -> bool
    ensures { result ≡ reply_has_authorities reply.now }
{
    match reply {
        Reply::Found(held) => !held.authorities().is_empty(),
        _ => false,
    }
}

/// Writes requests as frames, and gets no answer: `Stored` says only that the frame is written.
#[derive(Drop)]
pub struct Sender<'a, W: Write> {
    alloc: Global,
    out: &'a mut Counted<W>,
    has_failed: bool,
    has_emptied: bool,
}

impl<'a, W: Write> Sender<'a, W> {
    pub fn new(alloc: Global, out: &'a mut Counted<W>) -> Sender<'a, W>
        ensures { result ≡ record { held = W.contents (end_in out.old); has_failed = false; has_emptied = false } }
    {
        Sender {
            alloc,
            out,
            has_failed: false,
            has_emptied: false,
        }
    }

    fn send(&mut self, op: &Op) -> Result<Reply, AskError>
        ensures { Sends self.old op.now result self.new }
    {
        let Op::Set(_, bundle) = op else {
            return Err(AskError::GateShut);
        };
        if self.has_failed {
            return Err(AskError::GateShut);
        }
        match write_request(self.alloc, self.out, op) {
            Ok(()) => {
                self.has_emptied = bundle.authorities().is_empty();
                Ok(Reply::Stored)
            }
            Err(_) => {
                self.has_failed = true;
                Err(AskError::GateShut)
            }
        }
    }
}

impl<'a, W: Write> Model for Sender<'a, W> {
    ghost use Rattle.std.specs.Prelude.{◌≡◌, false};
    ghost use Rattle.wire.specs.Counted.{end_in, faults_in};
    ghost use Rattle.refresh.specs.Target.{SenderState};

    ghost Value = { SenderState };

    ghost view = { λ s. record { held = W.contents (end_in s.out.now); has_failed = s.has_failed; has_emptied = s.has_emptied } };
}

impl<W: Write> Ask for Sender<'_, W> {
    ghost use Rattle.std.specs.Prelude.{None};
    ghost use Rattle.refresh.specs.Target.{Sends};
    ghost use Rattle.map_core.specs.AskLaws.{shows_nothing};

    ghost answers = { Sends };

    ghost shows = { λ m. None };

    ghost answers_plainly = { shows_nothing Sends };

    fn ask(&mut self, op: Op) -> Result<Reply, AskError> {
        let answer = self.send(&op);
        drop(op);
        answer
    }
}

impl<W: Write> Target for Sender<'_, W> {
    ghost use Rattle.std.specs.Prelude.{true};
    ghost use Rattle.refresh.specs.Target.{SenderState, sender_fault};

    ghost fault_in = { λ s. sender_fault s.has_failed };

    ghost empties_in = { λ s. s.has_emptied };

    ghost only_sends = { true };

    fn fault(&self) -> Option<RefreshError> {
        self.has_failed
            .then_some(RefreshError::Front(FrontError::WriteFault))
    }

    /// Whether the last bundle that was sent has no authorities: what stood there is not known.
    fn has_emptied(&self) -> bool {
        self.has_emptied
    }

    fn is_sender(&self) -> bool {
        true
    }
}

/// A server at the other end of a stream. Before a bundle with no authorities is set, it is asked for the bundle that
/// stands there.
#[derive(Drop)]
pub struct Server<R: Read, W: Write> {
    client: Client<R, W>,
    has_emptied: bool,
}

impl<R: Read, W: Write> Model for Server<R, W> {
    ghost use Rattle.refresh.specs.Target.{ServerState};

    ghost Value = { ServerState };

    ghost view = { λ s. record { client = s.client; has_emptied = s.has_emptied } };
}

impl<R: Read, W: Write> Server<R, W> {
    pub fn new(client: Client<R, W>) -> Server<R, W>
        ensures { result ≡ record { client = client; has_emptied = false } }
    {
        Server {
            client,
            has_emptied: false,
        }
    }
}

/// Whether the operation takes all its authorities from a domain that has some: a server is asked what stands there before a
/// bundle with no authorities is set.
fn empties<R: Read, W: Write>(client: &mut Client<R, W>, op: &Op) -> Result<bool, AskError>
    ensures { Looks client.old op.now result client.new }
{
    let Some(domain) = emptied(op) else {
        return Ok(false);
    };
    let domain = domain.copy()?;
    let found = client.ask(Op::Get(domain))?;
    Ok(has_authorities(&found))
}

impl<R: Read, W: Write> Ask for Server<R, W> {
    ghost use Rattle.std.specs.Prelude.{None};
    ghost use Rattle.refresh.specs.Target.{AsksServer};
    ghost use Rattle.map_core.specs.AskLaws.{shows_nothing};

    ghost answers = { AsksServer };

    ghost shows = { λ m. None };

    ghost answers_plainly = { shows_nothing AsksServer };

    fn ask(&mut self, op: Op) -> Result<Reply, AskError> {
        match empties(&mut self.client, &op) {
            Ok(empties) => self.has_emptied = empties,
            Err(why) => {
                drop(op);
                return Err(why);
            }
        }
        self.client.ask(op)
    }
}

impl<R: Read, W: Write> Target for Server<R, W> {
    ghost use Rattle.std.specs.Prelude.{false};
    ghost use Rattle.refresh.specs.Target.{ServerState, server_fault};

    ghost fault_in = { λ s. server_fault s.client.ended };

    ghost empties_in = { λ s. s.has_emptied };

    ghost only_sends = { false };

    fn fault(&self) -> Option<RefreshError> {
        match self.client.ended() {
            Some(why) => Some(RefreshError::Client(why)),
            None => None,
        }
    }

    fn has_emptied(&self) -> bool {
        self.has_emptied
    }

    fn is_sender(&self) -> bool {
        false
    }
}
