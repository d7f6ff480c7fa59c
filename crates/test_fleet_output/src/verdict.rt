//! Verdicts, in the words in which they are printed.
use kr_base::{Bytes, both};
use kr_config::{Class, Who};
use kr_judge::Verdict;
use std::alloc::Global;
use test_support::{Wrong, kept, parse_number, two_words};

/// The verdict of a line's last words, as `verdict_text` prints it: `pass`, or the reason with its
/// generation or path, its class and its provider.
pub fn parse_verdict(alloc: Global, text: &str) -> Result<Verdict, Wrong> {
    if text == "pass" {
        return Ok(Verdict::Pass);
    }
    let (word, rest) = two_words(text)?;
    match word {
        "drops-stored" => stored(alloc, rest),
        "drops-writer" => {
            let (generation, class, who) = numbered(alloc, rest)?;
            Ok(Verdict::DropsWriter {
                generation,
                class,
                who,
            })
        }
        "unread" => {
            let (generation, class, who) = numbered(alloc, rest)?;
            Ok(Verdict::Unread {
                generation,
                class,
                who,
            })
        }
        _ => Err(Wrong::Form),
    }
}

/// `PATH WHO`.
fn stored(alloc: Global, rest: &str) -> Result<Verdict, Wrong> {
    let (path, who) = two_words(rest)?;
    match both(kept(alloc, path), parse_provider(alloc, who)) {
        Ok((path, who)) => Ok(Verdict::DropsStored { path, who }),
        Err(why) => Err(why),
    }
}

/// `GENERATION CLASS WHO`.
fn numbered(alloc: Global, rest: &str) -> Result<(u32, Class, Who), Wrong> {
    let (generation, rest) = two_words(rest)?;
    let generation = parse_number(generation)?;
    let (class, who) = two_words(rest)?;
    match both(parse_class(alloc, class), parse_provider(alloc, who)) {
        Ok((class, who)) => Ok((generation, class, who)),
        Err(why) => Err(why),
    }
}

fn parse_class(alloc: Global, text: &str) -> Result<Class, Wrong> {
    if text == "*.*" {
        return Ok(Class::Rest);
    }
    match text.strip_prefix("*.") {
        Some(group) => Ok(Class::Group(kept(alloc, group)?)),
        None => Ok(Class::Exact(kept(alloc, text)?)),
    }
}

/// A provider by its kind and name; a key's secret is empty.
fn parse_provider(alloc: Global, text: &str) -> Result<Who, Wrong> {
    if text == "identity" {
        return Ok(Who::Identity);
    }
    let Some((kind, name)) = text.split_once(':') else {
        return Err(Wrong::Form);
    };
    let name = kept(alloc, name)?;
    match kind {
        "aescbc" => Ok(Who::Aescbc(name, Bytes::new(alloc))),
        "aesgcm" => Ok(Who::Aesgcm(name, Bytes::new(alloc))),
        "kms" => Ok(Who::Kms(name)),
        _ => {
            drop(name);
            Err(Wrong::Form)
        }
    }
}
