//! The summary of a load.
ghost use Rattle.std.specs.Prelude.{◌≡◌, ◌<◌, ◌≤◌, IfOk, count_by, map};
ghost use Rattle.std.specs.String.{string_bytes};
ghost use Rattle.kr_script.specs.Fleets.{worker_of};
ghost use Rattle.kr_workload.specs.Summaries.{IsSummary, WritesSummary, count_gets, hex_digit, hex_text};
ghost use Rattle.kr_workload.specs.Summaries.{is_got, is_put_reply, count_puts, summary_text};

use crate::digest::digest_replies;
use kr_base::{List, NoMemory, Sink, write_all};
use kr_script::{Part, Told, WriteNo};
use std::alloc::Global;

/// Writes the summary: the seed and the size, how many puts and gets were done, and the digest over
/// what was got.
pub fn write_summary<K: Sink>(
    alloc: Global,
    sink: &mut K,
    seed: u64,
    size: u32,
    parts: &[Part],
    replies: &[List<Told>],
) -> Result<(), WriteNo>
    ensures written { WritesSummary seed size (map worker_of parts.now) replies.now
        (K.held sink.old) (K.held sink.new) (K.count sink.old) (K.count sink.new) result }
    ensures later { K.count sink.old ≤ K.count sink.new }
{
    match load_summary(alloc, seed, size, parts, replies) {
        Ok(text) => match write_all(sink, text.as_bytes()) {
            Ok(()) => Ok(()),
            Err(_) => Err(WriteNo::Failed),
        },
        Err(NoMemory) => Err(WriteNo::NoMemory),
    }
}

fn load_summary(
    alloc: Global,
    seed: u64,
    size: u32,
    parts: &[Part],
    replies: &[List<Told>],
) -> Result<String, NoMemory>
    ensures { IfOk result (λ text. IsSummary seed size (map worker_of parts.now) replies.now
        (string_bytes text)) }
{
    let digest = digest_replies(alloc, parts, replies)?;
    let puts = count_puts(replies);
    let gets = count_gets(replies);
    let text = summary_text(alloc, seed, size, puts, gets, &digest)?;
    Ok(text)
}

/// The lines, by what they tell.
fn summary_text(
    alloc: Global,
    seed: u64,
    size: u32,
    puts: u128,
    gets: u128,
    digest: &[u8],
) -> Result<String, NoMemory>
    ensures { IfOk result (λ text. string_bytes text
        ≡ summary_text seed size puts gets digest.now) }
{
    let hex = hex_digits(alloc, digest)?;
    Ok(format!(in alloc; "gen {seed} {size}\nputs {puts}\ngets {gets}\ndigest {hex}\n")?)
}

/// How many puts were done.
fn count_puts(replies: &[List<Told>]) -> u128
    ensures { result ≡ count_puts replies.now }
{
    let mut puts = 0u128;
    for told in replies {
        puts += count_worker_puts(told.as_slice()) as u128;
    }
    puts
}

fn count_worker_puts(replies: &[Told]) -> usize
    ensures { result ≡ count_by is_put_reply replies.now }
{
    let mut puts = 0;
    for reply in replies {
        if is_put_reply(reply) {
            puts += 1;
        }
    }
    puts
}

/// How many gets gave data.
fn count_gets(replies: &[List<Told>]) -> u128
    ensures { result ≡ count_gets replies.now }
{
    let mut gets = 0u128;
    for told in replies {
        gets += count_worker_gets(told.as_slice()) as u128;
    }
    gets
}

fn count_worker_gets(replies: &[Told]) -> usize
    ensures { result ≡ count_by is_got replies.now }
{
    let mut gets = 0;
    for reply in replies {
        if is_got(reply) {
            gets += 1;
        }
    }
    gets
}

#[tactic(auto, unfolding(crate::specs::Summaries::is_put_reply))]
fn is_put_reply(reply: &Told) -> bool
    ensures { result ≡ is_put_reply reply.now }
{
    matches!(reply, Told::Put { .. })
}

#[tactic(auto, unfolding(crate::specs::Summaries::is_got))]
fn is_got(reply: &Told) -> bool
    ensures { result ≡ is_got reply.now }
{
    matches!(reply, Told::Got { .. })
}

/// Two digits of base 16 for each byte.
fn hex_digits(alloc: Global, bytes: &[u8]) -> Result<String, NoMemory>
    ensures { IfOk result (λ text. string_bytes text ≡ hex_text bytes.now) }
{
    let mut text = String::new(alloc);
    for byte in bytes {
        text.push(hex_digit(*byte / 16))?;
        text.push(hex_digit(*byte % 16))?;
    }
    Ok(text)
}

/// The digit of a number below 16.
fn hex_digit(number: u8) -> char
    requires { number < 16 }
    ensures { result ≡ hex_digit number }
{
    if number < 10 {
        (b'0' + number) as char
    } else {
        (b'a' + (number - 10)) as char
    }
}
