//! The calls on a plugin that reads a line for each, and answers with one.
ghost use Rattle.std.specs.Prelude.{◌≡◌, ◌≤◌, ⊤, false, IfOk, IsErrOf};
ghost use Rattle.kr_base.specs.Faults.{Rose};
ghost use Rattle.kr_base.specs.Numbering.{next_number};
ghost use Rattle.kr_kms.specs.Limits.{IsWithinLimits};
ghost use Rattle.kr_kms_wire.specs.declared.replies.Asked.{Asked};
ghost use Rattle.kr_kms_wire.specs.declared.replies.Reply.{Reply};
ghost use Rattle.kr_kms_wire.specs.declared.requests.Request.{Request};
ghost use Rattle.kr_kms.specs.declared.plugin.KmsNo.{KmsNo};
ghost use Rattle.kr_edge.specs.Lines.{ends_of};
ghost use Rattle.kr_edge.specs.Plugins.{AnswersRequest, CountsFailures};
ghost use Rattle.kr_edge.specs.Wiped.{IsWiped};

use crate::answer_room::AnswerRoom;
use crate::exchange::Exchange;
use kr_base::{Bytes, FaultCount, NoMemory, Text};
use kr_kms::{KmsNo, Status, Wrapped, WrappedRef, is_within_limits};
use kr_kms_wire::{Asked, Reply, ReplyNo, Request, read_reply, request_line};
use std::alloc::Global;
use std::io::{Read, Write};

/// The calls on a plugin over two ends, of which the one takes requests and the other gives
/// replies. An exchange that was cut off, and a line that is no reply to what was asked, leave it
/// broken, so that each later call fails too; a refusal, and a wrap above the limits, are faults
/// that leave it whole.
#[derive(Drop)]
pub struct PluginLines<W, R> {
    exchange: Exchange<W, R>,
    uid: u64,
    faults: FaultCount,
}

impl<W: Write, R: Read> PluginLines<W, R> {
    /// Over these ends, of a plugin that failed so often before.
    pub fn new(input: W, output: R, room: AnswerRoom, faults: u64) -> PluginLines<W, R>
        ensures input { result.exchange.input.writer ≡ input }
        ensures output { result.exchange.output.reader ≡ output }
        ensures whole { result.exchange.broken ≡ false }
        ensures uid { result.uid ≡ 0 }
        ensures faults { result.faults ≡ faults }
    {
        PluginLines {
            exchange: Exchange::new(input, output, room),
            uid: 0,
            faults: FaultCount::from_count(faults),
        }
    }

    /// How often it failed so far, up to the greatest number.
    pub fn faults(&self) -> u64
        ensures { result ≡ self.now.faults }
    {
        self.faults.count()
    }

    /// Asks for the status.
    pub fn status(&mut self, alloc: Global) -> Result<Status, KmsNo>
        ensures later { self.old.faults ≤ self.new.faults }
        ensures failed { IsErrOf result KmsNo.Failed → Rose self.old.faults self.new.faults }
        ensures once { CountsFailures result self.old.faults self.new.faults }
        ensures answers { AnswersRequest Reply.Status (λ _. ⊤)
            (ends_of W.contents R.remaining self.old.exchange)
            (ends_of W.contents R.remaining self.new.exchange)
            Asked.Status Request.Status result }
        ensures uid { self.new.uid ≡ self.old.uid }
        ensures wiped { IsWiped self.new.exchange.line.line.items }
    {
        match self.ask(alloc, Asked::Status, &Request::Status) {
            Ok(Reply::Status(status)) => Ok(status),
            Ok(other) => {
                drop(other);
                self.exchange.abandon();
                self.faults.rise();
                Err(KmsNo::Failed)
            }
            Err(why) => Err(why),
        }
    }

    /// Wraps plain bytes. Requests to wrap and to unwrap are numbered from 1 up to the greatest
    /// number.
    pub fn wrap(&mut self, alloc: Global, plain: &[u8]) -> Result<Wrapped, KmsNo>
        ensures later { self.old.faults ≤ self.new.faults }
        ensures failed { IsErrOf result KmsNo.Failed → Rose self.old.faults self.new.faults }
        ensures once { CountsFailures result self.old.faults self.new.faults }
        ensures answers { AnswersRequest Reply.Encrypt IsWithinLimits
            (ends_of W.contents R.remaining self.old.exchange)
            (ends_of W.contents R.remaining self.new.exchange)
            Asked.Encrypt (Request.Encrypt plain.now (next_number self.old.uid)) result }
        ensures uid { self.new.uid ≡ next_number self.old.uid }
        ensures wiped { IsWiped self.new.exchange.line.line.items }
    {
        let uid = self.next_uid();
        let Ok(plain) = Bytes::copy(alloc, plain) else {
            self.exchange.wipe();
            return Err(KmsNo::NoMemory);
        };
        let request = Request::Encrypt { plain, uid };
        let answered = self.ask(alloc, Asked::Encrypt, &request);
        drop(request);
        match answered {
            Ok(Reply::Encrypt(wrapped)) => {
                if is_within_limits(&wrapped) {
                    Ok(wrapped)
                } else {
                    drop(wrapped);
                    self.faults.rise();
                    Err(KmsNo::Failed)
                }
            }
            Ok(other) => {
                drop(other);
                self.exchange.abandon();
                self.faults.rise();
                Err(KmsNo::Failed)
            }
            Err(why) => Err(why),
        }
    }

    /// Unwraps what was wrapped under its key id with its annotations.
    pub fn unwrap_source(&mut self, alloc: Global, wrapped: &WrappedRef<'_>) -> Result<Bytes, KmsNo>
        ensures later { self.old.faults ≤ self.new.faults }
        ensures failed { IsErrOf result KmsNo.Failed → Rose self.old.faults self.new.faults }
        ensures once { CountsFailures result self.old.faults self.new.faults }
        ensures answers { AnswersRequest Reply.Decrypt (λ _. ⊤)
            (ends_of W.contents R.remaining self.old.exchange)
            (ends_of W.contents R.remaining self.new.exchange)
            Asked.Decrypt (Request.Decrypt wrapped.now.cipher.now wrapped.now.key_id.now
            wrapped.now.annotations.now (next_number self.old.uid)) result }
        ensures uid { self.new.uid ≡ next_number self.old.uid }
        ensures wiped { IsWiped self.new.exchange.line.line.items }
    {
        let uid = self.next_uid();
        let Ok(request) = decrypt_request(alloc, wrapped, uid) else {
            self.exchange.wipe();
            return Err(KmsNo::NoMemory);
        };
        let answered = self.ask(alloc, Asked::Decrypt, &request);
        drop(request);
        match answered {
            Ok(Reply::Decrypt(plain)) => Ok(plain),
            Ok(other) => {
                drop(other);
                self.exchange.abandon();
                self.faults.rise();
                Err(KmsNo::Failed)
            }
            Err(why) => Err(why),
        }
    }

    /// The number of the next request.
    fn next_uid(&mut self) -> u64
        ensures next { result ≡ next_number self.old.uid }
        ensures kept { self.new.uid ≡ result }
        ensures exchange { self.new.exchange ≡ self.old.exchange }
        ensures faults { self.new.faults ≡ self.old.faults }
    {
        self.uid = self.uid.saturating_add(1);
        self.uid
    }

    /// Asks the plugin, reads its reply, and lets nothing of it stand in its room.
    fn ask(&mut self, alloc: Global, asked: Asked, request: &Request) -> Result<Reply, KmsNo>
        ensures later { self.old.faults ≤ self.new.faults }
        ensures failed { IsErrOf result KmsNo.Failed → Rose self.old.faults self.new.faults }
        ensures once { CountsFailures result self.old.faults self.new.faults }
        ensures answers { AnswersRequest (λ reply. reply) (λ _. ⊤)
            (ends_of W.contents R.remaining self.old.exchange)
            (ends_of W.contents R.remaining self.new.exchange) asked request.now result }
        ensures uid { self.new.uid ≡ self.old.uid }
        ensures wiped { IsWiped self.new.exchange.line.line.items }
    {
        let answered = ask_once(&mut self.exchange, alloc, asked, request);
        self.exchange.wipe();
        match answered {
            Ok(reply) => Ok(reply),
            Err(KmsNo::NoMemory) => Err(KmsNo::NoMemory),
            Err(KmsNo::Failed) => {
                self.faults.rise();
                Err(KmsNo::Failed)
            }
        }
    }
}

/// Exchanges the request's line for one, and reads that as its reply. What is no reply breaks the
/// exchange off, and so does what memory lacked to read.
fn ask_once<W: Write, R: Read>(
    exchange: &mut Exchange<W, R>,
    alloc: Global,
    asked: Asked,
    request: &Request,
) -> Result<Reply, KmsNo>
    ensures { AnswersRequest (λ reply. reply) (λ _. ⊤)
        (ends_of W.contents R.remaining exchange.old)
        (ends_of W.contents R.remaining exchange.new) asked request.now result }
{
    let line = match request_line(alloc, request) {
        Ok(line) => line,
        Err(_) => return Err(KmsNo::NoMemory),
    };
    let exchanged = exchange.ask(line.as_slice());
    drop(line);
    let Ok(size) = exchanged else {
        return Err(KmsNo::Failed);
    };
    match read_reply(alloc, asked, exchange.answer(size)) {
        Ok(reply) => Ok(reply),
        Err(ReplyNo::Error(text)) => {
            drop(text);
            Err(KmsNo::Failed)
        }
        Err(ReplyNo::NotJson) | Err(ReplyNo::Shape) => {
            exchange.abandon();
            Err(KmsNo::Failed)
        }
        Err(ReplyNo::NoMemory) => {
            exchange.abandon();
            Err(KmsNo::NoMemory)
        }
    }
}

/// The request to unwrap.
fn decrypt_request(alloc: Global, wrapped: &WrappedRef<'_>, uid: u64) -> Result<Request, NoMemory>
    ensures { IfOk result (λ request. request ≡ Request.Decrypt wrapped.now.cipher.now
        wrapped.now.key_id.now wrapped.now.annotations.now uid) }
{
    let source = Bytes::copy(alloc, wrapped.cipher)?;
    let Ok(key_id) = Text::copy(alloc, wrapped.key_id) else {
        drop(source);
        return Err(NoMemory);
    };
    match wrapped.annotations.copy(alloc) {
        Ok(annotations) => Ok(Request::Decrypt {
            source,
            key_id,
            annotations,
            uid,
        }),
        Err(NoMemory) => {
            drop(source);
            drop(key_id);
            Err(NoMemory)
        }
    }
}
