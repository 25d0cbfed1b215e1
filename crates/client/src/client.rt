//! A client: asks whoever serves the other end of a stream.
ghost use Rattle.std.specs.Prelude.{◌≡◌, ◌≤◌, None, length, OnOk, IfErr};
ghost use Rattle.wire.specs.Counted.{end_in, faults_in};
ghost use Rattle.wire.specs.Answers.{answer_frames};
ghost use Rattle.wire.specs.Output.{end_of};
ghost use Rattle.client.specs.Client.{Asks, Breaks, reply_preface, reply_bytes, Exchange, ends, ends_of};
ghost use Rattle.client.specs.Private.Reads.{ReadsWhole, StopsReading, ReadsReply};
ghost use Rattle.client.specs.Private.Requests.{document_part};

use crate::answer::{First, judge_payload};
use crate::listing::read_listing;
use crate::reply::is_version;
use crate::reply_room::ReplyRoom;
use crate::request::{request_document, send_request, version_for};
use crate::{ClientError, ServerStreams};
use map_core::{Ask, AskError, Op, Reply, Snapshot};
use std::alloc::Global;
use std::io::{Read, Write};
use std::marker::Model;
use wire::Counted;

/// Asks a map whose session is served at the other end of a stream: each operation is one request, and
/// its reply is read before the next. Documents are sent and taken as canonical texts only. An append of an
/// authority whose text has over 1,048,576 bytes is not asked, as no server reads it: the client answers
/// that the gate is shut, and goes on.
///
/// Room for replies, 1,049,000 bytes, is taken before the first request is begun, and room for the text of
/// an authority before each append. If memory runs out, the client says so, has done nothing, and goes on.
///
/// Once an exchange fails, the client has ended: it asks nothing more, and answers that the gate is shut.
/// Whether the request that failed took effect is not known.
#[derive(Drop)]
pub struct Client<R: Read, W: Write> {
    alloc: Global,
    server: ServerStreams<R, W>,
    /// From the first request on.
    room: Option<ReplyRoom>,
    ended: Option<ClientError>,
}

impl<R: Read, W: Write> Model for Client<R, W> {
    ghost use Rattle.client.specs.Client.{ClientState, ends_of};

    ghost Value = { ClientState };

    ghost view = { λ c. record { ends = ends_of R.remaining W.contents c.server; ended = c.ended } };
}

impl<R: Read, W: Write> Client<R, W> {
    /// Has asked nothing yet.
    pub fn new(alloc: Global, reader: Counted<R>, writer: Counted<W>) -> Client<R, W>
        ensures ends { result.ends ≡ ends (R.remaining (end_in reader)) (W.contents (end_in writer)) (faults_in reader) (faults_in writer) }
        ensures open { result.ended ≡ None }
    {
        Client {
            alloc,
            server: ServerStreams {
                from: reader,
                to: writer,
            },
            room: None,
            ended: None,
        }
    }

    /// Why the client has ended, if it has.
    pub fn ended(&self) -> Option<ClientError>
        ensures { result ≡ self.now.ended }
    {
        self.ended
    }

    /// Asks an operation that stays the caller's.
    fn ask_lent(&mut self, op: &Op) -> Result<Reply, AskError>
        ensures { Asks self.old op.now result self.new }
    {
        if self.ended.is_some() {
            return Err(AskError::GateShut);
        }
        let Some(document) = request_document(self.alloc, op)? else {
            return Err(AskError::GateShut);
        };
        let mut room = match self.room.take() {
            Some(room) => room,
            None => ReplyRoom::new(self.alloc)?,
        };
        let document = document.as_slice();
        let asked = exchange(self.alloc, &mut self.server, &mut room, op, document);
        self.room = Some(room);
        match asked {
            Ok(answer) => answer,
            Err(why) => {
                self.ended = Some(why);
                Err(AskError::GateShut)
            }
        }
    }

    /// Gives the ends back.
    pub fn into_ends(self) -> (Counted<R>, Counted<W>)
        ensures { self.ends ≡ ends (R.remaining (end_in result.0)) (W.contents (end_in result.1)) (faults_in result.0) (faults_in result.1) }
    {
        let Client { server, .. } = self;
        (server.from, server.to)
    }
}

impl<R: Read, W: Write> Ask for Client<R, W> {
    ghost use Rattle.std.specs.Prelude.{None};
    ghost use Rattle.client.specs.Client.{Asks};
    ghost use Rattle.map_core.specs.AskLaws.{shows_nothing};

    ghost answers = { Asks };

    ghost shows = { λ _. None };

    ghost answers_plainly = { shows_nothing Asks };

    fn ask(&mut self, op: Op) -> Result<Reply, AskError> {
        let answer = self.ask_lent(&op);
        drop(op);
        answer
    }
}

/// Reads the reply to the request that sets the version, if one comes before the operation's.
fn read_preface<R: Read>(
    reader: &mut Counted<R>,
    room: &mut ReplyRoom,
    op: &Op,
) -> Result<(), ClientError>
    ensures ok { OnOk result (ReadsWhole (end_of R.remaining reader.old) (end_of R.remaining reader.new) (reply_preface op.now)) }
    ensures err { IfErr result (λ why. StopsReading (Breaks op.now (reply_bytes op.now)) why (end_of R.remaining reader.old) (end_of R.remaining reader.new)) }
{
    let Some(version) = version_for(op) else {
        return Ok(());
    };
    let payload = room.read(reader)?;
    if is_version(payload, version) {
        Ok(())
    } else {
        Err(ClientError::BadReply)
    }
}

/// Reads the reply to the operation's own request.
fn read_own<R: Read>(
    alloc: Global,
    reader: &mut Counted<R>,
    room: &mut ReplyRoom,
    op: &Op,
) -> Result<Result<Reply, AskError>, ClientError>
    ensures { ReadsReply op.now answer_frames result (end_of R.remaining reader.old) (end_of R.remaining reader.new) }
{
    let payload = room.read(reader)?;
    match judge_payload(alloc, op, payload)? {
        First::Reply(reply) => Ok(Ok(reply)),
        First::Error(error) => Ok(Err(error)),
        First::Count(count) => {
            let items = read_listing(alloc, reader, room, count)?;
            Ok(Ok(Reply::All(Snapshot::from_pairs(items))))
        }
    }
}

/// Reads the reply to an operation.
fn read_reply<R: Read>(
    alloc: Global,
    reader: &mut Counted<R>,
    room: &mut ReplyRoom,
    op: &Op,
) -> Result<Result<Reply, AskError>, ClientError>
    ensures { ReadsReply op.now (reply_bytes op.now) result (end_of R.remaining reader.old) (end_of R.remaining reader.new) }
{
    read_preface(reader, room, op)?;
    read_own(alloc, reader, room, op)
}

/// Writes the request for an operation, which ends with the document, and reads the reply.
fn exchange<R: Read, W: Write>(
    alloc: Global,
    server: &mut ServerStreams<R, W>,
    room: &mut ReplyRoom,
    op: &Op,
    document: &[u8],
) -> Result<Result<Reply, AskError>, ClientError>
    requires document { document.now ≡ document_part op.now }
    requires short { length document.now ≤ 1048576 }
    ensures { Exchange op.now result (ends_of R.remaining W.contents server.old) (ends_of R.remaining W.contents server.new) }
{
    match send_request(&mut server.to, op, document) {
        Ok(()) => read_reply(alloc, &mut server.from, room, op),
        Err(_) => Err(ClientError::WriteFault),
    }
}
