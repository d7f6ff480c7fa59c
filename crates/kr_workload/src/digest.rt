//! The digest over what the workers of a load got.
ghost use Rattle.std.specs.Prelude.{◌≡◌, ◌++◌, IfOk, OnOk, map};
ghost use Rattle.std.specs.List.{flat_map};
ghost use Rattle.std.specs.List.Sorted.{IsPermutation, IsSorted};
ghost use Rattle.sha2.specs.Hashers.{Holds256};
ghost use Rattle.sha2.specs.Sha256.{sha256};
ghost use Rattle.kr_script.specs.Fleets.{worker_of};
ghost use Rattle.kr_workload.specs.Summaries.{IsDigest, object_cmp, got_lines, replied_objects};
ghost use Rattle.kr_workload.specs.Summaries.{objects_in, objects_of};
ghost use Rattle.kr_workload.specs.inner.Listing.{Bytes, lent_list, lent_pairs};

use kr_base::{List, NoMemory};
use kr_script::{Part, ScriptLine, Told};
use sha2::{Digest, Sha256};
use std::alloc::Global;

/// The path of a `get` and the data of its reply.
type ToldObject<'a> = (&'a str, &'a [u8]);

/// SHA-256 of the path and the data of each `get` reply with an LF behind both, in the order of the
/// paths' bytes.
pub fn digest_replies(
    alloc: Global,
    parts: &[Part],
    replies: &[List<Told>],
) -> Result<[u8; 32], NoMemory>
    ensures { IfOk result (IsDigest (objects_of (map worker_of parts.now) replies.now)) }
{
    let mut all = Vec::new(alloc);
    add_all(parts, replies, &mut all)?;
    order(&mut all);
    Ok(digest_objects(all.as_slice()))
}

/// Brings them into the order of the listing.
#[tactic(auto, using(crate::proofs::Gathering::same_objects, crate::proofs::Gathering::sorted_objects))]
fn order(all: &mut Vec<ToldObject<'_>>)
    ensures same { IsPermutation (lent_pairs all.old.items) (lent_pairs all.new.items) }
    ensures sorted { IsSorted object_cmp (lent_pairs all.new.items) }
{
    all.sort_unstable();
}

fn add_all<'a>(
    parts: &'a [Part],
    replies: &'a [List<Told>],
    all: &mut Vec<ToldObject<'a>>,
) -> Result<(), NoMemory>
    ensures { OnOk result (lent_pairs all.new.items ≡ lent_pairs all.old.items
        ++ objects_of (map worker_of parts.now) replies.now) }
{
    let mut rest = replies;
    for part in parts {
        let [told, more @ ..] = rest else {
            return Ok(());
        };
        add_objects(part.lines.as_slice(), told.as_slice(), all)?;
        rest = more;
    }
    Ok(())
}

fn add_objects<'a>(
    lines: &'a [ScriptLine],
    replies: &'a [Told],
    all: &mut Vec<ToldObject<'a>>,
) -> Result<(), NoMemory>
    ensures { OnOk result (lent_pairs all.new.items
        ≡ lent_pairs all.old.items ++ objects_in lines.now replies.now) }
{
    let mut rest = replies;
    for asked in lines {
        let [reply, more @ ..] = rest else {
            return Ok(());
        };
        add_one(replied_object(asked, reply), all)?;
        rest = more;
    }
    Ok(())
}

fn add_one<'a>(
    object: Option<ToldObject<'a>>,
    all: &mut Vec<ToldObject<'a>>,
) -> Result<(), NoMemory>
    ensures { OnOk result (lent_pairs all.new.items
        ≡ lent_pairs all.old.items ++ lent_list object.entry) }
{
    let Some(object) = object else {
        return Ok(());
    };
    all.push(object)?;
    Ok(())
}

/// The path and the data, if the line is a `get` that was replied to with data.
fn replied_object<'a>(asked: &'a ScriptLine, reply: &'a Told) -> Option<ToldObject<'a>>
    ensures { lent_list result ≡ replied_objects asked.now reply.now }
{
    match (asked, reply) {
        (ScriptLine::Get { path }, Told::Got { revision: _, plain }) => {
            Some((path.as_str(), plain.as_slice()))
        }
        _ => None,
    }
}

fn digest_objects(all: &[ToldObject<'_>]) -> [u8; 32]
    ensures { result ≡ sha256 (flat_map got_lines (lent_pairs all.now)) }
{
    let mut hasher = Sha256::new();
    for object in all {
        feed(&mut hasher, object.0, object.1);
    }
    hasher.finalize()
}

/// Adds the path and the data with their LFs.
fn feed(hasher: &mut Sha256, path: &str, plain: &[u8])
    ensures { (front : Bytes) → Holds256 hasher.old front
        → Holds256 hasher.new (front ++ got_lines (path.now, plain.now)) }
{
    hasher.update(path.as_bytes());
    hasher.update(b"\n");
    hasher.update(plain);
    hasher.update(b"\n");
}
