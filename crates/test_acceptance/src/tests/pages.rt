//! What a bench has room for: more keys than it has pages, two configurations in turn, and data.
ghost use Rattle.std.specs.Prelude.{◌≡◌, ◌≤◌, false, length, IfSome, IsSome, IsTrue};
ghost use Rattle.kr_base.specs.Limits.{value_limit};
ghost use Rattle.kr_config.specs.Kept.{rows_of};
ghost use Rattle.kr_provider.specs.Publication.{names_plugin};

use super::{AESCBC, IV};
use kr_base::{Bytes, List, MemDice};
use kr_config::{Settings, read};
use kr_kms::TablePlugin;
use kr_provider::{Bench, Links, Published, SealNo, Shared, names_plugin, publish};
use std::alloc::Global;
use std::test::Fail;

/// Two keys of aescbc, of which the second is `AESCBC`'s.
const TWO: &str =
    r#"{"apiVersion":"apiserver.config.k8s.io/v1","kind":"EncryptionConfiguration","resources":[{"resources":["secrets"],"providers":[{"aescbc":{"keys":[{"name":"key2","secret":"c2VjcmV0IGlzIHNlY3VyZQ=="},{"name":"key1","secret":"AAECAwQFBgcICQoLDA0ODxAREhMUFRYXGBkaGxwdHh8="}]}}]}]}"#;

/// Two keys of a rotation, of which the first writes; the second alone; and a third beside both.
const BOTH: &str =
    r#"{"apiVersion":"apiserver.config.k8s.io/v1","kind":"EncryptionConfiguration","resources":[{"resources":["secrets"],"providers":[{"aescbc":{"keys":[{"name":"key1","secret":"c2VjcmV0IGlzIHNlY3VyZQ=="},{"name":"key2","secret":"dGhpcyBpcyBwYXNzd29yZA=="}]}},{"identity":{}}]}]}"#;

const LAST: &str =
    r#"{"apiVersion":"apiserver.config.k8s.io/v1","kind":"EncryptionConfiguration","resources":[{"resources":["secrets"],"providers":[{"aescbc":{"keys":[{"name":"key2","secret":"dGhpcyBpcyBwYXNzd29yZA=="}]}},{"identity":{}}]}]}"#;

const THREE: &str =
    r#"{"apiVersion":"apiserver.config.k8s.io/v1","kind":"EncryptionConfiguration","resources":[{"resources":["secrets"],"providers":[{"aescbc":{"keys":[{"name":"key1","secret":"c2VjcmV0IGlzIHNlY3VyZQ=="},{"name":"key2","secret":"dGhpcyBpcyBwYXNzd29yZA=="},{"name":"key3","secret":"AAECAwQFBgcICQoLDA0ODw=="}]}}]}]}"#;

/// What values of the two keys begin with.
const BY_KEY1: &[u8] = b"k8s:enc:aescbc:v1:key1:";

const BY_KEY2: &[u8] = b"k8s:enc:aescbc:v1:key2:";

type Worker = Bench<TablePlugin, MemDice>;

/// A bench that adopted nothing yet, whose random source gives `IV` so many times.
fn new_bench(alloc: Global, pages: u32, times: usize) -> Option<Worker>
    requires { times ≤ 4096 }
{
    let bytes = Bytes::from_vec(IV.repeat(alloc, times).ok()?);
    let dice = MemDice::new(bytes, List::new(alloc));
    match Bench::new(alloc, Links::new(alloc), dice, pages, 1) {
        Ok(bench) => Some(bench),
        Err((_, links, _)) => {
            links.end();
            None
        }
    }
}

/// Gives a bench's links and random source back.
fn close(bench: Worker) {
    let (mut links, _) = bench.close();
    while let Some(_) = links.take() {}
    links.end();
}

/// What a new bench is asked.
#[derive(Clone, Copy)]
enum Asked {
    /// Whether it refuses a second key, and seals by its first one then.
    SecondKey,
    /// Whether it takes up two keys in turn, and is full at three.
    ThreeKeys,
}

/// What a new bench of so many pages, whose random source gives `IV` so many times, says to it.
fn answered(alloc: Global, pages: u32, times: usize, asked: Asked) -> Option<bool>
    requires { times ≤ 4096 }
{
    let mut bench = new_bench(alloc, pages, times)?;
    let answer = match asked {
        Asked::SecondKey => refuses(alloc, &mut bench),
        Asked::ThreeKeys => is_full_at_three(alloc, &mut bench),
    };
    close(bench);
    answer
}

/// Settings that name no plugin, published.
fn published(alloc: Global, text: &str) -> Option<Shared<Published>>
    ensures { IfSome result (λ p. names_plugin p.rows ≡ false) }
{
    let settings = read(alloc, text.as_bytes()).ok()?;
    if names_plugin(&settings) {
        return None;
    }
    published_bare(alloc, Shared::new(alloc, settings).ok()?)
}

fn published_bare(alloc: Global, settings: Shared<Settings>) -> Option<Shared<Published>>
    requires { names_plugin (rows_of settings.entries.0) ≡ false }
    ensures { IfSome result (λ p. names_plugin p.rows ≡ false) }
{
    let mut links = Links::<TablePlugin>::new(alloc);
    let mut dice = MemDice::new(Bytes::new(alloc), List::new(alloc));
    let made = publish(alloc, settings, &mut links, &mut dice);
    links.end();
    Shared::new(alloc, made.ok()?).ok()
}

/// Whether the bench adopts it.
fn adopts(bench: &mut Worker, published: &Shared<Published>) -> bool
    requires { names_plugin published.now.rows ≡ false }
    ensures adopted { IsTrue result → IsSome bench.new.published }
    ensures kept { IsSome bench.old.published → IsSome bench.new.published }
{
    match published.share() {
        Ok(published) => bench.adopt(published).is_ok(),
        Err(_) => false,
    }
}

/// What the bench makes of a secret, where it reads it back.
fn sealed(alloc: Global, bench: &mut Worker) -> Option<Bytes>
    requires { IsSome bench.old.published }
    ensures { IsSome bench.new.published }
{
    let Ok(value) = bench.seal(alloc, "secrets", "/a", b"hello") else {
        return None;
    };
    if opens(alloc, bench, value.as_slice()) {
        Some(value)
    } else {
        drop(value);
        None
    }
}

/// Whether the bench reads a value back that it made of a secret.
fn opens(alloc: Global, bench: &mut Worker, value: &[u8]) -> bool
    requires adopted { IsSome bench.old.published }
    requires fits { length value.now ≤ value_limit }
    ensures { IsSome bench.new.published }
{
    match bench.unseal(alloc, "secrets", "/a", value) {
        Ok(opened) => {
            let is = opened.plain.as_slice() == b"hello".as_slice() && !opened.stale;
            drop(opened);
            is
        }
        Err(why) => {
            drop(why);
            false
        }
    }
}

/// Whether a bench of one page refuses two keys, and then seals by its one key the same bytes.
fn refuses_second(
    alloc: Global,
    bench: &mut Worker,
    one: &Shared<Published>,
    two: &Shared<Published>,
) -> Option<bool>
    requires one { names_plugin one.now.rows ≡ false }
    requires two { names_plugin two.now.rows ≡ false }
{
    if !adopts(bench, one) {
        return None;
    }
    let before = sealed(alloc, bench)?;
    if adopts(bench, two) || bench.keys() != 1 {
        drop(before);
        return Some(false);
    }
    let Some(after) = sealed(alloc, bench) else {
        drop(before);
        return None;
    };
    let is = before.as_slice() == after.as_slice();
    drop(before);
    drop(after);
    Some(is)
}

fn refuses(alloc: Global, bench: &mut Worker) -> Option<bool> {
    let one = published(alloc, AESCBC)?;
    let Some(two) = published(alloc, TWO) else {
        drop(one);
        return None;
    };
    let refuses = refuses_second(alloc, bench, &one, &two);
    drop(one);
    drop(two);
    refuses
}

#[test]
fn more_keys_than_pages(rt: HostRuntime) -> Result<(), Fail> {
    assert_eq!(rt; answered(rt.alloc(), 1, 4, Asked::SecondKey), Some(true));
    Ok(())
}

/// Whether the bench seals by the key of this prefix, and reads it back.
fn seals_with_prefix(alloc: Global, bench: &mut Worker, prefix: &[u8]) -> bool
    requires { IsSome bench.old.published }
    ensures { IsSome bench.new.published }
{
    match sealed(alloc, bench) {
        Some(value) => {
            let is = value.as_slice().starts_with(prefix);
            drop(value);
            is
        }
        None => false,
    }
}

/// Whether the bench adopts it, and then seals by the key of this prefix.
fn adopts_published(
    alloc: Global,
    bench: &mut Worker,
    published: &Shared<Published>,
    prefix: &[u8],
) -> bool
    requires { names_plugin published.now.rows ≡ false }
    ensures { IsTrue result → IsSome bench.new.published }
{
    if !adopts(bench, published) {
        return false;
    }
    seals_with_prefix(alloc, bench, prefix)
}

/// Whether the bench has too few pages for its keys.
fn is_too_many(bench: &mut Worker, published: &Shared<Published>) -> bool
    requires { names_plugin published.now.rows ≡ false }
    ensures { IsSome bench.old.published → IsSome bench.new.published }
{
    match published.share() {
        Ok(published) => bench.adopt(published).is_err(),
        Err(_) => false,
    }
}

/// Whether a bench takes up both in turn, a thousand times each, and seals by each.
fn takes_turns(
    alloc: Global,
    bench: &mut Worker,
    both: &Shared<Published>,
    last: &Shared<Published>,
) -> bool
    requires both { names_plugin both.now.rows ≡ false }
    requires last { names_plugin last.now.rows ≡ false }
    ensures { IsTrue result → IsSome bench.new.published }
{
    for _ in 0..999 {
        if !adopts_published(alloc, bench, both, BY_KEY1)
            || !adopts_published(alloc, bench, last, BY_KEY2)
        {
            return false;
        }
    }
    adopts_published(alloc, bench, both, BY_KEY1) && adopts_published(alloc, bench, last, BY_KEY2)
}

/// Whether a bench of two pages takes turns so, refuses three keys then, and still seals by the
/// last one's.
fn is_full_then(
    alloc: Global,
    bench: &mut Worker,
    both: &Shared<Published>,
    last: &Shared<Published>,
    three: &Shared<Published>,
) -> bool
    requires both { names_plugin both.now.rows ≡ false }
    requires last { names_plugin last.now.rows ≡ false }
    requires three { names_plugin three.now.rows ≡ false }
{
    if !takes_turns(alloc, bench, both, last) {
        return false;
    }
    is_too_many(bench, three) && seals_with_prefix(alloc, bench, BY_KEY2)
}

fn is_full_at_three(alloc: Global, bench: &mut Worker) -> Option<bool> {
    let both = published(alloc, BOTH)?;
    let last = published(alloc, LAST)?;
    let three = published(alloc, THREE)?;
    Some(is_full_then(alloc, bench, &both, &last, &three))
}

// Each of the 2,000 adoptions is followed by a sealing, and so is the refusal.
#[test]
fn two_thousand_adoptions_and_a_refusal(rt: HostRuntime) -> Result<(), Fail> {
    assert_eq!(rt; answered(rt.alloc(), 2, 2001, Asked::ThreeKeys), Some(true));
    Ok(())
}

/// How many bytes of data are too many, where the bench says so of these.
fn too_many(alloc: Global, bench: &mut Worker, data: &[u8]) -> Option<u64> {
    let one = published(alloc, AESCBC)?;
    if !adopts(bench, &one) {
        return None;
    }
    match bench.seal(alloc, "secrets", "/a", data) {
        Err(SealNo::TooLarge { length }) => Some(length),
        _ => None,
    }
}

#[test]
fn data_above_the_limit_is_too_large(rt: HostRuntime) -> Result<(), Fail> {
    let data = vec![in rt.alloc(); 7u8; 2_097_153]?;
    let mut bench = new_bench(rt.alloc(), 1, 2).ok_or("no bench")?;
    let above = too_many(rt.alloc(), &mut bench, data.as_slice());
    let at = too_many(rt.alloc(), &mut bench, &data.as_slice()[1..]);
    close(bench);
    assert_eq!(rt; above, Some(2_097_153));
    assert_eq!(rt; at, None);
    Ok(())
}
