//! What a plugin answers to a line.
ghost use Rattle.std.specs.Prelude.{◌≡◌, length, codes, IfOk, if◌then◌else◌};
ghost use Rattle.std.specs.Result.{result_ok};
ghost use Rattle.std.specs.Str.{bytes_eq};
ghost use Rattle.kr_aes.specs.InverseCipher.{inverse_cipher};
ghost use Rattle.kr_aes.specs.KeyExpansion.{IsSchedule};
ghost use Rattle.kr_kms_wire.specs.Requests.{request_of};
ghost use Rattle.kr_keywrap.specs.Answer.{answer, line_answer, request_answer, unwrap_answer};
ghost use Rattle.kr_keywrap.specs.Answer.{wrap_answer, wrapped_bytes};
ghost use Rattle.kr_keywrap.specs.KeyWrap.{IsWrappable, key_unwrap};

use crate::key_link::healthy_status;
use crate::key_wrap::{WrapNo, is_wrappable};
use crate::keys::{ROOM, unwrap_by_words, wrap_bytes};
use kr_aes::Rounds;
use kr_base::{Annotations, Bytes, NoMemory, Text};
use kr_kms::Wrapped;
use kr_kms_wire::{Answered, Reply, Request, RequestNo, read_request, reply_line};
use std::alloc::Global;

/// The line that answers a line.
pub(crate) fn answer(
    alloc: Global,
    words: &[u32; 60],
    rounds: Rounds,
    key_id: &str,
    line: &[u8],
) -> Result<Bytes, NoMemory>
    requires { IsSchedule words.now rounds }
    ensures { IfOk result (λ bytes. bytes
        ≡ answer (record { words = words.now; rounds = rounds; key_id = key_id.now }) line.now) }
{
    let answered = match answer_line(alloc, words, rounds, key_id, line) {
        Ok(answered) => answered,
        Err(_) => return Err(NoMemory),
    };
    match reply_line(alloc, &answered) {
        Ok(bytes) => return Ok(bytes),
        Err(_) => return Err(NoMemory),
    }
}

fn answer_line(
    alloc: Global,
    words: &[u32; 60],
    rounds: Rounds,
    key_id: &str,
    line: &[u8],
) -> Result<Answered, NoMemory>
    requires { IsSchedule words.now rounds }
    ensures { IfOk result (λ answered. answered ≡ line_answer
        (record { words = words.now; rounds = rounds; key_id = key_id.now })
        (result_ok (request_of line.now))) }
{
    let found = match line_request(alloc, line) {
        Ok(found) => found,
        Err(_) => return Err(NoMemory),
    };
    match found {
        Some(request) => return answer_request(alloc, words, rounds, key_id, &request),
        None => return refuse(alloc, "request"),
    }
}

/// The request of a line, if it is one.
fn line_request(alloc: Global, line: &[u8]) -> Result<Option<Request>, NoMemory>
    ensures { IfOk result (λ found. found ≡ result_ok (request_of line.now)) }
{
    match read_request(alloc, line) {
        Ok(request) => return Ok(Some(request)),
        Err(RequestNo::NotJson) => return Ok(None),
        Err(RequestNo::Shape) => return Ok(None),
        Err(RequestNo::NoMemory) => return Err(NoMemory),
    }
}

fn answer_request(
    alloc: Global,
    words: &[u32; 60],
    rounds: Rounds,
    key_id: &str,
    request: &Request,
) -> Result<Answered, NoMemory>
    requires { IsSchedule words.now rounds }
    ensures { IfOk result (λ answered. answered ≡ request_answer
        (record { words = words.now; rounds = rounds; key_id = key_id.now }) request.now) }
{
    match request {
        Request::Status => Ok(Answered::Reply(Reply::Status(healthy_status(alloc, key_id)?))),
        Request::Encrypt { plain, .. } => answer_wrap(
            alloc,
            words,
            rounds,
            key_id,
            plain.as_slice(),
        ),
        Request::Decrypt {
            source,
            key_id: asked,
            ..
        } => answer_unwrap(
            alloc,
            words,
            rounds,
            key_id,
            asked.as_str(),
            source.as_slice(),
        ),
    }
}

fn answer_wrap(
    alloc: Global,
    words: &[u32; 60],
    rounds: Rounds,
    key_id: &str,
    plain: &[u8],
) -> Result<Answered, NoMemory>
    requires { IsSchedule words.now rounds }
    ensures { IfOk result (λ answered. answered ≡ wrap_answer
        (record { words = words.now; rounds = rounds; key_id = key_id.now }) plain.now) }
{
    if !is_wrappable(plain.len()) {
        return refuse(alloc, "length");
    }
    match wrapped_bytes(alloc, words, rounds, key_id, plain) {
        Ok(wrapped) => return Ok(Answered::Reply(Reply::Encrypt(wrapped))),
        Err(_) => return Err(NoMemory),
    }
}

/// What plain bytes are wrapped into.
fn wrapped_bytes(
    alloc: Global,
    words: &[u32; 60],
    rounds: Rounds,
    key_id: &str,
    plain: &[u8],
) -> Result<Wrapped, NoMemory>
    requires schedule { IsSchedule words.now rounds }
    requires wrappable { IsWrappable (length plain.now) }
    ensures { IfOk result (λ wrapped. wrapped ≡ wrapped_bytes
        (record { words = words.now; rounds = rounds; key_id = key_id.now }) plain.now) }
{
    Ok(Wrapped {
        cipher: wrap_bytes(alloc, words, rounds, plain)?,
        key_id: Text::copy(alloc, key_id)?,
        annotations: Annotations::new(alloc),
    })
}

fn answer_unwrap(
    alloc: Global,
    words: &[u32; 60],
    rounds: Rounds,
    key_id: &str,
    asked: &str,
    source: &[u8],
) -> Result<Answered, NoMemory>
    requires { IsSchedule words.now rounds }
    ensures { IfOk result (λ answered. answered ≡ (if bytes_eq asked.now key_id.now
        then unwrap_answer (key_unwrap (inverse_cipher words.now rounds) source.now)
        else Answered.Error (codes "key id"))) }
{
    if asked != key_id {
        return refuse(alloc, "key id");
    }
    answer_body(alloc, words, rounds, source)
}

fn answer_body(
    alloc: Global,
    words: &[u32; 60],
    rounds: Rounds,
    source: &[u8],
) -> Result<Answered, NoMemory>
    requires { IsSchedule words.now rounds }
    ensures { IfOk result (λ answered. answered
        ≡ unwrap_answer (key_unwrap (inverse_cipher words.now rounds) source.now)) }
{
    let mut room = [0; ROOM];
    let size = match unwrap_by_words(words, rounds, source, &mut room) {
        Ok(size) => size,
        Err(why) => return refuse_body(alloc, why),
    };
    match Bytes::copy(alloc, &room[..size]) {
        Ok(plain) => return Ok(Answered::Reply(Reply::Decrypt(plain))),
        Err(_) => return Err(NoMemory),
    }
}

fn refuse_body(alloc: Global, why: WrapNo) -> Result<Answered, NoMemory>
    ensures { IfOk result (λ answered. answered ≡ unwrap_answer (Err why)) }
{
    match why {
        WrapNo::Length => refuse(alloc, "length"),
        WrapNo::Check => refuse(alloc, "check"),
    }
}

/// A refusal with this text.
fn refuse(alloc: Global, text: &str) -> Result<Answered, NoMemory>
    ensures { IfOk result (λ answered. answered ≡ Answered.Error text.now) }
{
    Ok(Answered::Error(Text::copy(alloc, text)?))
}
