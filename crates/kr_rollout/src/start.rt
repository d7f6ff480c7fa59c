//! The start of a rollout.
ghost use Rattle.std.specs.Prelude.{◌≡◌, ◌<◌, ◌≤◌, length, sum, IfErr};
ghost use Rattle.kr_rollout.specs.Openings.{opening_by, AreAmong};
ghost use Rattle.kr_opening.specs.Replicas.{IsFirstIn};
ghost use Rattle.kr_rollout.specs.inner.RolloutStarts.{StartsRollout};

use crate::rollout::Rollout;
use kr_base::{List, NoMemory, Shared, Tape, Text};
use kr_opening::start_parts::{StartParts, make};
use kr_opening::{StartNo, make_opening_board};
use kr_provider::Published;
use kr_store::Store;
use std::alloc::Global;

impl<T: Tape> Rollout<T> {
    /// The rollout at its opening. A refusal gives the store back.
    pub fn start(
        alloc: Global,
        store: Store<T>,
        replicas: List<Option<Shared<Published>>>,
        names: List<Text>,
        seats: u32,
        reloads: &[u32],
    ) -> Result<Rollout<T>, (StartNo, Store<T>)>
        requires first { IsFirstIn replicas.0 }
        requires few { length replicas.0 ≤ 16 }
        requires seats { (seats ≤ 64) × (length reloads.now ≡ seats) }
        requires room { sum reloads.now ≤ 4000000 }
        requires names { AreAmong names.0 replicas.0 }
        ensures opens { StartsRollout (opening_by store replicas.0 names.0 reloads.now) result }
        ensures back { IfErr result (λ refused. refused.1 ≡ store) }
    {
        store.known();
        let made = match make(alloc, replicas.as_slice(), seats, reloads) {
            Ok(made) => made,
            Err(NoMemory) => {
                drop((replicas, names));
                return Err((StartNo::NoMemory, store));
            }
        };
        let board = match make_opening_board(alloc, &store, &made.settings, made.room) {
            Ok(board) => board,
            Err(why) => {
                drop((replicas, names, made));
                return Err((why, store));
            }
        };
        let StartParts {
            settings,
            generations,
            current,
            held,
            reloads,
            room: _,
        } = made;
        drop(settings);
        let first_rows = store.revision();
        let first_faults = store.faults();
        let first_torn = store.torn();
        Ok(Rollout {
            store,
            board,
            generations,
            current,
            held,
            first_rows,
            replicas,
            names,
            reloads,
            first_faults,
            first_torn,
            alloc,
        })
    }
}
