//! Replies of a plugin, as lines: a plugin writes them, and a link reads them.
ghost use Rattle.std.specs.Prelude.{◌≡◌, ◌⊎◌, IfOk};
ghost use Rattle.serde_json.specs.View.{view, members_view};
ghost use Rattle.kr_kms_wire.specs.Replies.{annotations_in, status_in, wrapped_in, shaped_reply};
ghost use Rattle.kr_kms_wire.specs.Replies.{IsReply, reply_kind, reply_members, answer_members};
ghost use Rattle.kr_kms_wire.specs.Replies.{answer_text, IsReplyReadBack};
ghost use Rattle.kr_kms_wire.specs.inner.Shapes.{Reads};
ghost use Rattle.kr_kms_wire.specs.inner.Written.{IsAnswerOfBytes};

use crate::members::{
    MemberNo, ShapeNo, annotation_members, annotation_pairs, member_bytes, member_text,
    members_line, own_member_text, put_bytes, put_text, read_value, tell_pairs,
};
use kr_base::{Annotations, Bytes, NoMemory, Text};
use kr_kms::{Status, Wrapped};
use serde_json::{Map, Value, put};
use std::alloc::Global;

/// What a plugin was asked for, so the kind of a reply to it.
#[derive(Clone, Copy, Debug, PartialEq, Eq)]
pub enum Asked {
    /// For the status.
    Status,
    /// To wrap.
    Encrypt,
    /// To unwrap.
    Decrypt,
}

/// What a plugin answers.
#[derive(Drop)]
pub enum Reply {
    /// Its status.
    Status(Status),
    /// What it made of plain bytes. It may pass the limits: that is for the link to judge.
    Encrypt(Wrapped),
    /// The plain bytes of a source.
    Decrypt(Bytes),
}

/// What a plugin's loop answers.
#[derive(Drop)]
pub enum Answered {
    /// A reply.
    Reply(Reply),
    /// A refusal, with its text.
    Error(Text),
}

/// Why a line is no reply.
#[derive(Debug, Drop)]
pub enum ReplyNo {
    /// It isn't JSON in UTF-8.
    NotJson,
    /// It hasn't the shape of a reply to the call.
    Shape,
    /// The plugin refused, with this text.
    Error(Text),
    /// There was no memory for it.
    NoMemory,
}

/// Reads a line, with or without its LF, as the reply to a call of this kind.
pub fn read_reply(alloc: Global, asked: Asked, line: &[u8]) -> Result<Reply, ReplyNo>
    ensures reply { IsReply asked line.now result }
    ensures kind { IfOk result (λ reply. reply_kind reply ≡ asked) }
{
    let value = match read_value(alloc, line) {
        Ok(value) => value,
        Err(MemberNo::NotJson) => return Err(ReplyNo::NotJson),
        Err(MemberNo::NoMemory) => return Err(ReplyNo::NoMemory),
    };
    if let Some(text) = member_text(&value, "error") {
        return Err(refusal(alloc, text));
    }
    match read_shape(alloc, asked, &value) {
        Ok(reply) => Ok(reply),
        Err(ShapeNo::Shape) => Err(ReplyNo::Shape),
        Err(ShapeNo::NoMemory) => Err(ReplyNo::NoMemory),
    }
}

/// A plugin's refusal with its text.
fn refusal(alloc: Global, text: &str) -> ReplyNo
    ensures { (result ≡ ReplyNo.Error text.now) ⊎ (result ≡ ReplyNo.NoMemory) }
{
    match Text::copy(alloc, text) {
        Ok(text) => ReplyNo::Error(text),
        Err(_) => ReplyNo::NoMemory,
    }
}

/// The reply, where the value has the shape of one to the call.
fn read_shape(alloc: Global, asked: Asked, value: &Value) -> Result<Reply, ShapeNo>
    ensures { Reads (shaped_reply asked (view value.now)) result }
{
    match asked {
        Asked::Status => Ok(Reply::Status(read_status(alloc, value)?)),
        Asked::Encrypt => Ok(Reply::Encrypt(read_wrapped(alloc, value)?)),
        Asked::Decrypt => Ok(Reply::Decrypt(member_bytes(alloc, value, "plaintext")?)),
    }
}

fn read_status(alloc: Global, value: &Value) -> Result<Status, ShapeNo>
    ensures { Reads (status_in (view value.now)) result }
{
    let version = own_member_text(alloc, value, "version")?;
    let healthz = own_member_text(alloc, value, "healthz")?;
    let key_id = own_member_text(alloc, value, "key_id")?;
    Ok(Status {
        version,
        healthz,
        key_id,
    })
}

fn read_wrapped(alloc: Global, value: &Value) -> Result<Wrapped, ShapeNo>
    ensures { Reads (wrapped_in (view value.now)) result }
{
    let key_id = own_member_text(alloc, value, "key_id")?;
    let annotations = read_annotations(alloc, value)?;
    let cipher = member_bytes(alloc, value, "ciphertext")?;
    Ok(Wrapped {
        cipher,
        key_id,
        annotations,
    })
}

/// The annotations, none where the member is missing.
fn read_annotations(alloc: Global, value: &Value) -> Result<Annotations, ShapeNo>
    ensures { Reads (annotations_in (view value.now)) result }
{
    let Some(given) = value.get("annotations") else {
        return Ok(Annotations::new(alloc));
    };
    annotation_pairs(alloc, given)
}

/// The line that answers it, with its LF. The annotations of a wrap are always there.
pub fn reply_line(alloc: Global, answered: &Answered) -> Result<Bytes, NoMemory>
    ensures text { IfOk result (λ line. line ≡ answer_text answered.now) }
    ensures read { IfOk result (λ line. IsReplyReadBack line answered.now) }
{
    tell_bytes(answered);
    let members = reply_member_map(alloc, answered)?;
    members_line(alloc, members)
}

/// Tells what its types keep.
fn tell_bytes(answered: &Answered)
    ensures { IsAnswerOfBytes answered.now }
{
    match answered {
        Answered::Reply(Reply::Status(_)) => {}
        Answered::Reply(Reply::Encrypt(wrapped)) => {
            wrapped.cipher.known();
            tell_pairs(&wrapped.annotations);
        }
        Answered::Reply(Reply::Decrypt(plain)) => plain.known(),
        Answered::Error(_) => {}
    }
}

fn reply_member_map(alloc: Global, answered: &Answered) -> Result<Map<String, Value>, NoMemory>
    ensures { IfOk result (λ members. members_view members.entries
        ≡ answer_members answered.now) }
{
    match answered {
        Answered::Reply(Reply::Status(status)) => status_members(alloc, status),
        Answered::Reply(Reply::Encrypt(wrapped)) => wrapped_members(alloc, wrapped),
        Answered::Reply(Reply::Decrypt(plain)) => plain_members(alloc, plain),
        Answered::Error(text) => error_members(alloc, text),
    }
}

fn status_members(alloc: Global, status: &Status) -> Result<Map<String, Value>, NoMemory>
    ensures { IfOk result (λ members. members_view members.entries
        ≡ reply_members (Reply.Status status.now)) }
{
    let mut members = Map::new(alloc);
    put_text(&mut members, alloc, "healthz", status.healthz.as_str())?;
    put_text(&mut members, alloc, "key_id", status.key_id.as_str())?;
    put_text(&mut members, alloc, "version", status.version.as_str())?;
    Ok(members)
}

fn wrapped_members(alloc: Global, wrapped: &Wrapped) -> Result<Map<String, Value>, NoMemory>
    ensures { IfOk result (λ members. members_view members.entries
        ≡ reply_members (Reply.Encrypt wrapped.now)) }
{
    let pairs = annotation_members(alloc, &wrapped.annotations)?;
    let mut members = Map::new(alloc);
    put(&mut members, alloc, "annotations", Value::Object(pairs))?;
    put_bytes(&mut members, alloc, "ciphertext", wrapped.cipher.as_slice())?;
    put_text(&mut members, alloc, "key_id", wrapped.key_id.as_str())?;
    Ok(members)
}

fn plain_members(alloc: Global, plain: &Bytes) -> Result<Map<String, Value>, NoMemory>
    ensures { IfOk result (λ members. members_view members.entries
        ≡ reply_members (Reply.Decrypt plain.now)) }
{
    let mut members = Map::new(alloc);
    put_bytes(&mut members, alloc, "plaintext", plain.as_slice())?;
    Ok(members)
}

fn error_members(alloc: Global, text: &Text) -> Result<Map<String, Value>, NoMemory>
    ensures { IfOk result (λ members. members_view members.entries
        ≡ answer_members (Answered.Error text.now)) }
{
    let mut members = Map::new(alloc);
    put_text(&mut members, alloc, "error", text.as_str())?;
    Ok(members)
}
