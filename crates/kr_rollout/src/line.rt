//! The lines of the journal.

use kr_base::{Bytes, Shared, Text};
use kr_judge::Verdict;
use kr_provider::Published;

/// What a seat did: its event with the arguments, but without what is stored.
#[derive(Drop)]
pub enum Did {
    Adopt {
        replica: u32,
    },
    Fetch {
        path: Text,
    },
    After {
        path: Text,
    },
    /// It put the plain data under the path, as an object of the resource.
    Put {
        path: Text,
        resource: Text,
        plain: Bytes,
    },
    Delete {
        path: Text,
    },
    /// It put the same data, sealed anew, where the path's row has still this revision.
    Replace {
        path: Text,
        revision: u64,
    },
    LetGo,
    /// It gave the replica another configuration, where its current generation is the expected one.
    Reload {
        replica: u32,
        published: Shared<Published>,
        expect: Option<u32>,
    },
    /// It gave a replica without a current generation a configuration.
    Join {
        replica: u32,
        published: Shared<Published>,
    },
    /// It took the replica's current generation away.
    Leave {
        replica: u32,
    },
}

/// What the core answered, without the row or the configuration that it handed out.
#[derive(Drop)]
pub enum Gave {
    Adopted { generation: u32 },
    Found { revision: u64 },
    Absent,
    Written { revision: u64 },
    /// The path's last row is this one; 0 where it has none.
    Changed { revision: u64 },
    Released,
    Reloaded { generation: u32 },
    Joined { generation: u32 },
    Refused(Verdict),
    /// The replica's current generation isn't the expected one, but this.
    Moved { generation: u32 },
    /// The replica has a current generation already.
    Present { generation: u32 },
    /// The replica had this current generation, and has none any more.
    Departed { generation: u32 },
    /// The replica has no current generation.
    Gone { replica: u32 },
    StoreFailed,
    /// The store's file would have so many bytes.
    StoreFull { needed: u64 },
    /// There was no memory.
    Nothing,
}

/// What was written at a path: data for a resource, nothing any more, or the same data sealed anew.
#[derive(Clone, Copy)]
pub enum Effect<'a> {
    Put { resource: &'a str, plain: &'a [u8] },
    Delete,
    Replace,
}

/// A line of the journal.
#[derive(Drop)]
pub struct Line {
    pub seat: u32,
    pub did: Did,
    /// The generation that the seat held when the event began.
    pub held: Option<u32>,
    pub gave: Gave,
    /// How often the store's tape had failed after the event.
    pub faults: u64,
}

impl Line {
    ghost use Rattle.std.specs.Prelude.{◌≡◌, ◌↔◌, IsSome, IfSome};
    ghost use Rattle.kr_rollout.specs.Written.{path_written, IsEffect, IsWritten};

    /// The revision of the row that was written, its path and what was written there; nothing where
    /// no row was. A line that tells of a row though its event writes none stands in no journal:
    /// here its path is empty and it replaces.
    pub fn written<'a>(&'a self) -> Option<(u64, &'a str, Effect<'a>)>
        ensures variant { IsSome result ↔ IsWritten self.now.gave }
        ensures revision { IfSome result (λ told. self.now.gave ≡ Gave.Written told.0) }
        ensures path { IfSome result (λ told. told.1.now ≡ path_written self.now.did) }
        ensures effect { IfSome result (λ told. IsEffect self.now.did told.2) }
    {
        let Gave::Written { revision } = &self.gave else {
            return None;
        };
        let (path, effect) = self.did.effect();
        Some((*revision, path, effect))
    }
}

impl Did {
    ghost use Rattle.std.specs.Prelude.{◌≡◌};
    ghost use Rattle.kr_rollout.specs.Written.{path_written, IsEffect};

    /// Where it writes, and what.
    fn effect(&self) -> (&str, Effect<'_>)
        ensures path { result.0.now ≡ path_written self.now }
        ensures effect { IsEffect self.now result.1 }
    {
        match self {
            Did::Put {
                path,
                resource,
                plain,
            } => {
                let effect = Effect::Put {
                    resource: resource.as_str(),
                    plain: plain.as_slice(),
                };
                (path.as_str(), effect)
            }
            Did::Delete { path } => (path.as_str(), Effect::Delete),
            Did::Replace { path, revision: _ } => (path.as_str(), Effect::Replace),
            _ => ("", Effect::Replace),
        }
    }
}
