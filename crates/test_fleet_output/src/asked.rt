//! What a seat did, by its kind and what it is about.
//!
//!     adopt REPLICA, leave REPLICA, reload REPLICA, join REPLICA, letgo
//!     fetch PATH, after PATH, delete PATH, put PATH RESOURCE HEX, replace PATH REVISION
use crate::configuration::published;
use kr_base::Text;
use kr_rollout::Did;
use std::alloc::Global;
use test_support::{Wrong, own_text_or_empty, parse_long, parse_number, split_put, two_words};

/// Reads what a seat did. A path, a resource and the hex stand as words, so none holds a space.
pub fn parse_did(alloc: Global, text: &str) -> Result<Did, Wrong> {
    if text == "letgo" {
        return Ok(Did::LetGo);
    }
    let (kind, rest) = two_words(text)?;
    match kind {
        "put" => {
            let ((path, resource), plain) = split_put(alloc, rest)?;
            Ok(Did::Put {
                path,
                resource,
                plain,
            })
        }
        "replace" => parse_replace(alloc, rest),
        "fetch" | "after" | "delete" => about_path(kind, own_text_or_empty(alloc, rest)?),
        _ => about_replica(alloc, kind, parse_number(rest)?),
    }
}

fn about_path(kind: &str, path: Text) -> Result<Did, Wrong> {
    match kind {
        "fetch" => Ok(Did::Fetch { path }),
        "after" => Ok(Did::After { path }),
        _ => Ok(Did::Delete { path }),
    }
}

fn about_replica(alloc: Global, kind: &str, replica: u32) -> Result<Did, Wrong> {
    match kind {
        "adopt" => Ok(Did::Adopt { replica }),
        "leave" => Ok(Did::Leave { replica }),
        "reload" => Ok(Did::Reload {
            replica,
            published: published(alloc)?,
            expect: Some(replica),
        }),
        "join" => Ok(Did::Join {
            replica,
            published: published(alloc)?,
        }),
        _ => Err(Wrong::Form),
    }
}

/// `PATH REVISION`.
fn parse_replace(alloc: Global, rest: &str) -> Result<Did, Wrong> {
    let (path, revision) = two_words(rest)?;
    let revision = parse_long(revision)?;
    Ok(Did::Replace {
        path: own_text_or_empty(alloc, path)?,
        revision,
    })
}
