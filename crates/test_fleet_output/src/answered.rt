//! What the core answered.
//!
//!     absent, released, failed, nothing, refused VERDICT
//!     found REVISION, written REVISION, changed REVISION, full BYTES
//!     adopted GENERATION, reloaded GENERATION, joined GENERATION, moved GENERATION,
//!     present GENERATION, departed GENERATION, gone REPLICA
use crate::verdict::parse_verdict;
use kr_rollout::Gave;
use std::alloc::Global;
use test_support::{Wrong, parse_long, parse_number, two_words};

/// Reads an answer; a number behind a word that takes none, or a word not listed, is no form.
pub fn parse_gave(alloc: Global, text: &str) -> Result<Gave, Wrong> {
    match text {
        "absent" => Ok(Gave::Absent),
        "released" => Ok(Gave::Released),
        "failed" => Ok(Gave::StoreFailed),
        "nothing" => Ok(Gave::Nothing),
        _ => with_more(alloc, text),
    }
}

/// An answer of a word and what stands behind it.
fn with_more(alloc: Global, text: &str) -> Result<Gave, Wrong> {
    let (word, rest) = two_words(text)?;
    match word {
        "refused" => Ok(Gave::Refused(parse_verdict(alloc, rest)?)),
        "found" | "written" | "changed" | "full" => of_store(word, parse_long(rest)?),
        _ => of_replica(word, parse_number(rest)?),
    }
}

fn of_store(word: &str, revision: u64) -> Result<Gave, Wrong> {
    match word {
        "found" => Ok(Gave::Found { revision }),
        "written" => Ok(Gave::Written { revision }),
        "changed" => Ok(Gave::Changed { revision }),
        _ => Ok(Gave::StoreFull { needed: revision }),
    }
}

fn of_replica(word: &str, generation: u32) -> Result<Gave, Wrong> {
    match word {
        "adopted" => Ok(Gave::Adopted { generation }),
        "reloaded" => Ok(Gave::Reloaded { generation }),
        "joined" => Ok(Gave::Joined { generation }),
        "moved" => Ok(Gave::Moved { generation }),
        "present" => Ok(Gave::Present { generation }),
        "departed" => Ok(Gave::Departed { generation }),
        "gone" => Ok(Gave::Gone {
            replica: generation,
        }),
        _ => Err(Wrong::Form),
    }
}
