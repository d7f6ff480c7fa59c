//! Requests to a plugin, as lines: a link writes them, and a plugin reads them.
ghost use Rattle.std.specs.Prelude.{◌≡◌, ◌++◌, ◌∷◌, [], Ok, IfOk};
ghost use Rattle.serde_json.specs.View.{view, members_view};
ghost use Rattle.kr_kms_wire.specs.Requests.{request_members, request_text, request_of, IsRequest};
ghost use Rattle.kr_kms_wire.specs.Requests.{request_in, encrypt_in, decrypt_in};
ghost use Rattle.kr_kms_wire.specs.inner.Shapes.{Reads};
ghost use Rattle.kr_kms_wire.specs.inner.Written.{IsRequestOfBytes};

use crate::members::{
    MemberNo, ShapeNo, annotation_members, member_bytes, member_number, member_pairs, member_text,
    members_line, own_member_text, put_bytes, put_number, put_text, read_value, tell_pairs,
};
use kr_base::{Annotations, Bytes, NoMemory, Text};
use serde_json::{Map, Value, put};
use std::alloc::Global;

/// What a plugin is asked.
#[derive(Drop)]
pub enum Request {
    /// To tell its status.
    Status,
    /// To wrap plain bytes.
    Encrypt {
        plain: Bytes,
        uid: u64,
    },
    /// To unwrap a source that it made under this key id with these annotations.
    Decrypt {
        source: Bytes,
        key_id: Text,
        annotations: Annotations,
        uid: u64,
    },
}

/// Why a line is no request.
#[derive(Clone, Copy, Debug, PartialEq, Eq)]
pub enum RequestNo {
    /// It isn't JSON in UTF-8.
    NotJson,
    /// It hasn't the shape of a request.
    Shape,
    /// There was no memory for it.
    NoMemory,
}

/// The line that asks it, with its LF. A link numbers its requests to wrap and to unwrap from 1, by
/// the uid.
pub fn request_line(alloc: Global, request: &Request) -> Result<Bytes, NoMemory>
    ensures text { IfOk result (λ line. line ≡ request_text request.now) }
    ensures read { IfOk result (λ line. request_of line ≡ Ok request.now) }
{
    tell_bytes(request);
    let members = request_member_map(alloc, request)?;
    members_line(alloc, members)
}

/// Tells what its types keep.
fn tell_bytes(request: &Request)
    ensures { IsRequestOfBytes request.now }
{
    match request {
        Request::Status => {}
        Request::Encrypt { plain, uid } => {
            plain.known();
            let _uid = *uid;
        }
        Request::Decrypt {
            source,
            key_id: _,
            annotations,
            uid,
        } => {
            source.known();
            tell_pairs(annotations);
            let _uid = *uid;
        }
    }
}

fn request_member_map(alloc: Global, request: &Request) -> Result<Map<String, Value>, NoMemory>
    ensures { IfOk result (λ members. members_view members.entries
        ≡ request_members request.now) }
{
    match request {
        Request::Status => status_members(alloc),
        Request::Encrypt { plain, uid } => encrypt_members(alloc, plain, *uid),
        Request::Decrypt {
            source,
            key_id,
            annotations,
            uid,
        } => decrypt_members(alloc, source, key_id, annotations, *uid),
    }
}

fn status_members(alloc: Global) -> Result<Map<String, Value>, NoMemory>
    ensures { IfOk result (λ members. members_view members.entries
        ≡ request_members Request.Status) }
{
    let mut members = Map::new(alloc);
    put_text(&mut members, alloc, "call", "status")?;
    Ok(members)
}

fn encrypt_members(alloc: Global, plain: &Bytes, uid: u64) -> Result<Map<String, Value>, NoMemory>
    ensures { IfOk result (λ members. members_view members.entries
        ≡ request_members (Request.Encrypt plain.now uid)) }
{
    let mut members = Map::new(alloc);
    put_text(&mut members, alloc, "call", "encrypt")?;
    put_bytes(&mut members, alloc, "plaintext", plain.as_slice())?;
    put_number(&mut members, alloc, "uid", uid)?;
    Ok(members)
}

fn decrypt_members(
    alloc: Global,
    source: &Bytes,
    key_id: &Text,
    annotations: &Annotations,
    uid: u64,
) -> Result<Map<String, Value>, NoMemory>
    ensures { IfOk result (λ members. members_view members.entries
        ≡ request_members (Request.Decrypt source.now key_id.now annotations.now uid)) }
{
    let pairs = annotation_members(alloc, annotations)?;
    let mut members = Map::new(alloc);
    put(&mut members, alloc, "annotations", Value::Object(pairs))?;
    put_text(&mut members, alloc, "call", "decrypt")?;
    put_bytes(&mut members, alloc, "ciphertext", source.as_slice())?;
    put_text(&mut members, alloc, "key_id", key_id.as_str())?;
    put_number(&mut members, alloc, "uid", uid)?;
    Ok(members)
}

/// Reads a line, with or without its LF, as a request.
pub fn read_request(alloc: Global, line: &[u8]) -> Result<Request, RequestNo>
    ensures { IsRequest line.now result }
{
    let value = match read_value(alloc, line) {
        Ok(value) => value,
        Err(MemberNo::NotJson) => return Err(RequestNo::NotJson),
        Err(MemberNo::NoMemory) => return Err(RequestNo::NoMemory),
    };
    match read_call(alloc, &value) {
        Ok(request) => Ok(request),
        Err(ShapeNo::Shape) => Err(RequestNo::Shape),
        Err(ShapeNo::NoMemory) => Err(RequestNo::NoMemory),
    }
}

/// The request, where the value has the shape of one.
fn read_call(alloc: Global, value: &Value) -> Result<Request, ShapeNo>
    ensures { Reads (request_in (view value.now)) result }
{
    let Some(call) = member_text(value, "call") else {
        return Err(ShapeNo::Shape);
    };
    match call {
        "status" => Ok(Request::Status),
        "encrypt" => read_encrypt(alloc, value),
        "decrypt" => read_decrypt(alloc, value),
        _ => Err(ShapeNo::Shape),
    }
}

fn read_encrypt(alloc: Global, value: &Value) -> Result<Request, ShapeNo>
    ensures { Reads (encrypt_in (view value.now)) result }
{
    let plain = member_bytes(alloc, value, "plaintext")?;
    match member_number(value, "uid") {
        Some(uid) => Ok(Request::Encrypt { plain, uid }),
        None => Err(ShapeNo::Shape),
    }
}

fn read_decrypt(alloc: Global, value: &Value) -> Result<Request, ShapeNo>
    ensures { Reads (decrypt_in (view value.now)) result }
{
    let source = member_bytes(alloc, value, "ciphertext")?;
    let key_id = own_member_text(alloc, value, "key_id")?;
    let annotations = member_pairs(alloc, value, "annotations")?;
    match member_number(value, "uid") {
        Some(uid) => Ok(Request::Decrypt {
            source,
            key_id,
            annotations,
            uid,
        }),
        None => Err(ShapeNo::Shape),
    }
}
