//! Lines to and from a plugin.
use crate::tests::making::{annotate, both, gives, text};
use kr_base::{Annotations, Bytes, NoMemory};
use kr_kms::Status;
use kr_kms_wire::{
    Answered, Asked, Reply, ReplyNo, Request, RequestNo, read_reply, read_request, reply_line,
    request_line,
};
use std::alloc::Global;

/// A request or an answer, each of which is told by a line.
trait Told: Drop {
    fn line(&self, alloc: Global) -> Result<Bytes, NoMemory>;
}

impl Told for Request {
    fn line(&self, alloc: Global) -> Result<Bytes, NoMemory> {
        request_line(alloc, self)
    }
}

impl Told for Answered {
    fn line(&self, alloc: Global) -> Result<Bytes, NoMemory> {
        reply_line(alloc, self)
    }
}

/// Whether the value is made, and told by this line.
fn tells<T: Told>(alloc: Global, value: Option<T>, line: &[u8]) -> bool {
    match value {
        Some(value) => {
            let told = value.line(alloc);
            drop(value);
            gives(told, line)
        }
        None => false,
    }
}

fn encrypt(alloc: Global) -> Option<Request> {
    match Bytes::copy(alloc, b"hi") {
        Ok(plain) => Some(Request::Encrypt { plain, uid: 3 }),
        Err(_) => None,
    }
}

/// The annotations `b.io` and `a.io`, put in this order.
fn annotations(alloc: Global) -> Option<Annotations> {
    let mut all = Annotations::new(alloc);
    if annotate(alloc, &mut all, "b.io", b"") && annotate(alloc, &mut all, "a.io", b"\x01") {
        Some(all)
    } else {
        drop(all);
        None
    }
}

/// A decrypt of `hi` with them.
fn decrypt(alloc: Global) -> Option<Request> {
    let source = both(Bytes::copy(alloc, b"hi").ok(), text(alloc, "\""));
    match both(source, annotations(alloc)) {
        Some((source, annotations)) => {
            let (source, key_id) = source;
            Some(Request::Decrypt {
                source,
                key_id,
                annotations,
                uid: u64::MAX,
            })
        }
        None => None,
    }
}

const ENCRYPT: &[u8] = b"{\"call\":\"encrypt\",\"plaintext\":\"aGk=\",\"uid\":\"3\"}\n";

const DECRYPT: &[u8] = b"{\"annotations\":{\"a.io\":\"AQ==\",\"b.io\":\"\"},\"call\":\"decrypt\",\
    \"ciphertext\":\"aGk=\",\"key_id\":\"\\\"\",\"uid\":\"18446744073709551615\"}\n";

#[test]
fn writes_requests(rt: HostRuntime) {
    let alloc = rt.alloc();
    assert!(rt; tells(alloc, Some(Request::Status), b"{\"call\":\"status\"}\n"));
    assert!(rt; tells(alloc, encrypt(alloc), ENCRYPT));
    assert!(rt; tells(alloc, decrypt(alloc), DECRYPT));
}

/// What a line is read as, in a word: its kind, and its text or its bytes.
fn reads(alloc: Global, call: Asked, line: &[u8], kind: &str, content: &[u8]) -> bool {
    match read_reply(alloc, call, line) {
        Ok(reply) => {
            let is = is_reply(&reply, kind, content);
            drop(reply);
            is
        }
        Err(why) => {
            let is = is_refusal(&why, kind, content);
            drop(why);
            is
        }
    }
}

fn is_reply(reply: &Reply, kind: &str, content: &[u8]) -> bool {
    match reply {
        Reply::Status(status) => kind == "status" && is_v2(status, content),
        Reply::Encrypt(wrapped) => kind == "wrapped" && wrapped.cipher.as_slice() == content,
        Reply::Decrypt(plain) => kind == "plain" && plain.as_slice() == content,
    }
}

fn is_refusal(why: &ReplyNo, kind: &str, content: &[u8]) -> bool {
    match why {
        ReplyNo::NotJson => kind == "no JSON",
        ReplyNo::Shape => kind == "shape",
        ReplyNo::Error(text) => kind == "error" && text.as_str().as_bytes() == content,
        ReplyNo::NoMemory => false,
    }
}

fn is_v2(status: &Status, key_id: &[u8]) -> bool {
    status.version.as_str() == "v2"
        && status.healthz.as_str() == "ok"
        && status.key_id.as_str().as_bytes() == key_id
}

fn is_wrapped(alloc: Global, line: &[u8]) -> bool {
    reads(alloc, Asked::Encrypt, line, "wrapped", b"hi")
}

#[test]
fn reads_replies(rt: HostRuntime) {
    let alloc = rt.alloc();
    let call = Asked::Status;
    let line = b"{\"version\":\"v2\",\"more\":[],\"healthz\":\"ok\",\"key_id\":\"k1\"}\n";
    assert!(rt; reads(alloc, call, line, "status", b"k1"));
    let line = b"{\"ciphertext\":\"aGk=\",\"key_id\":\"k1\"}";
    assert!(rt; is_wrapped(alloc, line));
    let line = b"{\"annotations\":{\"a.io\":\"AQ==\"},\"ciphertext\":\"aGk=\",\"key_id\":\"k1\"}";
    assert!(rt; is_wrapped(alloc, line));
    let call = Asked::Decrypt;
    assert!(rt; reads(alloc, call, b"{\"plaintext\":\"aGk=\"}", "plain", b"hi"));
    assert!(rt;
        reads(
            alloc,
            call,
            b"{\"plaintext\":\"\",\"error\":1}",
            "plain",
            b""
        )
    );
}

fn is_shapeless(alloc: Global, call: Asked, line: &[u8]) -> bool {
    reads(alloc, call, line, "shape", b"")
}

fn is_no_json(alloc: Global, line: &[u8]) -> bool {
    reads(alloc, Asked::Decrypt, line, "no JSON", b"")
}

// The padding is missing, and bits behind the end aren't zero.
fn are_shapeless(alloc: Global) -> bool {
    let call = Asked::Decrypt;
    is_shapeless(alloc, call, b"[]")
        && is_shapeless(alloc, call, b"{\"call\":\"status\"}")
        && is_shapeless(alloc, call, b"{\"plaintext\":\"aGk\"}")
        && is_shapeless(alloc, call, b"{\"plaintext\":\"aGl=\"}")
}

fn are_no_json(alloc: Global) -> bool {
    is_no_json(alloc, b"{")
        && is_no_json(alloc, b"{\"plaintext\":\"\xff\"}")
        && is_no_json(alloc, b"")
}

#[test]
fn refuses_replies(rt: HostRuntime) {
    let alloc = rt.alloc();
    let call = Asked::Decrypt;
    assert!(rt; reads(alloc, call, b"{\"error\":\"no\"}", "error", b"no"));
    let line = b"{\"plaintext\":\"aGk=\",\"error\":\"\"}";
    assert!(rt; reads(alloc, call, line, "error", b""));
    assert!(rt; are_shapeless(alloc) && are_no_json(alloc));
}

#[test]
fn refuses_annotations(rt: HostRuntime) {
    let alloc = rt.alloc();
    let call = Asked::Encrypt;
    let line = b"{\"annotations\":null,\"ciphertext\":\"\",\"key_id\":\"k1\"}";
    assert!(rt; is_shapeless(alloc, call, line));
    let line = b"{\"annotations\":{\"a.io\":1},\"ciphertext\":\"\",\"key_id\":\"k1\"}";
    assert!(rt; is_shapeless(alloc, call, line));
    let line = b"{\"annotations\":{\"a.io\":\"A\"},\"ciphertext\":\"\",\"key_id\":\"k1\"}";
    assert!(rt; is_shapeless(alloc, call, line));
}

/// What a line is read as, in a word: the call of a request, or why it is none.
fn call_word(alloc: Global, line: &[u8]) -> &'static str {
    match read_request(alloc, line) {
        Ok(request) => {
            let call = request_name(&request);
            drop(request);
            call
        }
        Err(RequestNo::NotJson) => "no JSON",
        Err(RequestNo::Shape) => "shape",
        Err(RequestNo::NoMemory) => "memory",
    }
}

fn request_name(request: &Request) -> &'static str {
    match request {
        Request::Status => "status",
        Request::Encrypt { .. } => "encrypt",
        Request::Decrypt { .. } => "decrypt",
    }
}

// A uid with a leading zero, and a call that there isn't.
fn are_no_requests(alloc: Global) -> bool {
    let line = b"{\"call\":\"encrypt\",\"plaintext\":\"aGk=\",\"uid\":\"03\"}";
    call_word(alloc, line) == "shape"
        && call_word(alloc, b"{\"call\":\"rotate\"}") == "shape"
        && call_word(alloc, b"[]") == "shape"
        && call_word(alloc, b"{") == "no JSON"
}

#[test]
fn reads_requests(rt: HostRuntime) {
    let alloc = rt.alloc();
    assert!(rt; call_word(alloc, b"{\"call\":\"status\",\"more\":1}\n") == "status");
    let line = b"{\"call\":\"encrypt\",\"plaintext\":\"aGk=\",\"uid\":\"3\"}";
    assert!(rt; call_word(alloc, line) == "encrypt");
    assert!(rt; are_no_requests(alloc));
}

fn refusal(alloc: Global) -> Option<Answered> {
    match text(alloc, "request") {
        Some(why) => Some(Answered::Error(why)),
        None => None,
    }
}

fn status(alloc: Global) -> Option<Answered> {
    let health = both(text(alloc, "v2"), text(alloc, "ok"));
    match both(health, text(alloc, "example-1")) {
        Some((health, key_id)) => {
            let (version, healthz) = health;
            Some(Answered::Reply(Reply::Status(Status {
                version,
                healthz,
                key_id,
            })))
        }
        None => None,
    }
}

const STATUS: &[u8] = b"{\"healthz\":\"ok\",\"key_id\":\"example-1\",\"version\":\"v2\"}\n";

#[test]
fn writes_answers(rt: HostRuntime) {
    let alloc = rt.alloc();
    assert!(rt; tells(alloc, refusal(alloc), b"{\"error\":\"request\"}\n"));
    assert!(rt; tells(alloc, status(alloc), STATUS));
}
