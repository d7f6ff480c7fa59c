//! The wire format of protocol buffers: taking varints and fields from the front of bytes.
ghost use Rattle.std.specs.Prelude.{◌≡◌, ◌≤◌, ◌<◌, ◌^◌, ℕ, length, nat_lt, take, position, MatchOption};
ghost use Rattle.kr_envelope.specs.Wire.{number};
ghost use Rattle.kr_envelope.specs.inner.Taking.{TakesVarint, TakesPayload, TakesField};

/// What a field holds, by its wire type.
#[derive(Clone, Copy, Debug)]
pub enum Payload<'a> {
    Varint(u64),
    Fixed64(&'a [u8]),
    Bytes(&'a [u8]),
    Fixed32(&'a [u8]),
}

/// A field of a message, its bytes lent.
#[derive(Clone, Copy, Debug)]
pub struct WireField<'a> {
    pub number: u64,
    pub payload: Payload<'a>,
}

/// The greatest number of a field.
const NUMBERS: u64 = 536_870_911;

/// The field at the front, and what follows it.
pub fn take_field<'a>(bytes: &'a [u8]) -> Option<(WireField<'a>, &'a [u8])>
    ensures { TakesField bytes.now result }
{
    let Some((key, rest)) = take_varint(bytes) else {
        return None;
    };
    let number = key / 8;
    if number == 0 || number > NUMBERS {
        return None;
    }
    let Some((payload, rest)) = take_payload(key % 8, rest) else {
        return None;
    };
    Some((WireField { number, payload }, rest))
}

/// The payload of this wire type at the front, and what follows it.
fn take_payload<'a>(kind: u64, bytes: &'a [u8]) -> Option<(Payload<'a>, &'a [u8])>
    ensures { TakesPayload kind bytes.now result }
{
    match kind {
        0 => {
            let Some((n, rest)) = take_varint(bytes) else {
                return None;
            };
            Some((Payload::Varint(n), rest))
        }
        1 => {
            if bytes.len() < 8 {
                return None;
            }
            let (content, rest) = bytes.split_at(8);
            Some((Payload::Fixed64(content), rest))
        }
        2 => {
            let Some((length, rest)) = take_varint(bytes) else {
                return None;
            };
            if length > rest.len() as u64 {
                return None;
            }
            let (content, rest) = rest.split_at(length as usize);
            Some((Payload::Bytes(content), rest))
        }
        5 => {
            if bytes.len() < 4 {
                return None;
            }
            let (content, rest) = bytes.split_at(4);
            Some((Payload::Fixed32(content), rest))
        }
        _ => None,
    }
}

/// The varint at the front, and what follows it.
pub fn take_varint<'a>(bytes: &'a [u8]) -> Option<(u64, &'a [u8])>
    ensures { TakesVarint bytes.now result }
{
    let Some(last) = last_group(bytes) else {
        return None;
    };
    if last >= 10 {
        return None;
    }
    let (groups, rest) = bytes.split_at(last + 1);
    let Some(value) = groups_value(groups) else {
        return None;
    };
    Some((value, rest))
}

/// Where the first group stands that is the last of its number.
fn last_group(bytes: &[u8]) -> Option<usize>
    ensures { result ≡ position (λ byte. nat_lt byte 128) bytes.now }
{
    bytes.iter().position(|byte| *byte < 128)
}

/// The number of the groups, where it is below 2^64.
fn groups_value(groups: &[u8]) -> Option<u64>
    ensures { MatchOption result (2 ^ 64 ≤ number groups.now)
        (λ value. (value ≡ number groups.now) × (value < 2 ^ 64)) }
{
    let mut at = groups.len();
    let mut value: u64 = 0;
    while at > 0 {
        if value >= 1 << 57 {
            return None;
        }
        at -= 1;
        value = u64::from(groups[at] % 128) + 128 * value;
    }
    Some(value)
}
