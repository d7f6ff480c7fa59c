//! All generations by their numbers, and the numbers of those that are live.
ghost use Rattle.std.specs.Prelude.{◌≡◌, ◌<◌, ◌≤◌, [], length, IfOk, Some};
ghost use Rattle.std.specs.List.{slice_get};
ghost use Rattle.kr_config.specs.Kept.{rows_of};
ghost use Rattle.kr_judge.specs.Boards.{HasOneCurrent, without_current, given_to, held_more, held_less, changed_at, MayHold, IsHeld};
ghost use Rattle.kr_judge.specs.Scans.{live_numbers};
ghost use Rattle.kr_judge.specs.inner.Views.{generation_of};

use crate::generation::JudgedGeneration;
use crate::holding;
use kr_base::{NoMemory, Shared};
use kr_config::Settings;
use std::alloc::Global;
use std::marker::Model;

/// All generations, by their numbers, with room for more; and the numbers of those that are live,
/// in order.
#[derive(Drop)]
pub struct GenerationList {
    all: Vec<JudgedGeneration>,
    live: Vec<u32>,
    room: u32,
}

impl Model for GenerationList {
    ghost use Rattle.std.specs.Prelude.{◌≡◌, ◌≤◌, vec_len, vec_capacity};
    ghost use Rattle.kr_judge.specs.Boards.{HasOneCurrent};
    ghost use Rattle.kr_judge.specs.inner.Lives.{GenerationsState};
    ghost use Rattle.kr_judge.specs.Scans.{live_numbers};
    ghost use Rattle.kr_judge.specs.inner.Views.{generations_of};

    ghost Value = { GenerationsState };

    ghost view = { λ list. record {
      generations = generations_of list.all.items;
      room = list.room;
    } };

    ghost invariant = { λ list. (list.live.items ≡ live_numbers (generations_of list.all.items))
        × HasOneCurrent (generations_of list.all.items)
        × (vec_len list.live ≤ vec_len list.all)
        × (vec_len list.all ≤ list.room)
        × (list.room ≤ vec_capacity list.all)
        × (list.room ≤ vec_capacity list.live) };
}

impl GenerationList {
    /// No generations, with room for so many.
    #[tactic(auto, using(crate::proofs::Currents::one_nil))]
    pub fn new(alloc: Global, room: u32) -> Result<GenerationList, NoMemory>
        ensures { IfOk result (λ list. list ≡ record { generations = []; room = room }) }
    {
        Ok(GenerationList {
            all: Vec::with_capacity(alloc, room as usize)?,
            live: Vec::with_capacity(alloc, room as usize)?,
            room,
        })
    }

    /// What is known of all generations. It does nothing.
    pub fn known(&self)
        ensures one_current { HasOneCurrent self.now.generations }
        ensures fits { length self.now.generations ≤ self.now.room }
    {
        // Read, so that the check sees the fields.
        let _room = self.room;
    }

    /// The numbers of the live ones, in order.
    pub fn live(&self) -> &[u32]
        ensures { result.now ≡ live_numbers self.now.generations }
    {
        self.live.as_slice()
    }

    /// The generation of the number.
    #[tactic(auto, using(crate::proofs::Searches::shown_at))]
    pub fn get_numbered(&self, number: u32) -> &JudgedGeneration
        requires { number < length self.now.generations }
        ensures { Some (generation_of result.now) ≡ slice_get self.now.generations number }
    {
        &self.all[number as usize]
    }

    /// Makes the next generation, the current one of its replica, and tells its number.
    #[tactic(auto, using(crate::proofs::Currents::one_added))]
    pub fn add(&mut self, replica: u32, settings: Shared<Settings>) -> u32
        requires { length self.old.generations < self.old.room }
        ensures number { result ≡ length self.old.generations }
        ensures added { self.new ≡ record self.old {
          generations = given_to replica (rows_of settings.entries.0) self.old.generations;
        } }
    {
        let number = self.all.len() as u32;
        holding::leave(&mut self.all, &mut self.live, replica);
        holding::add(&mut self.all, &mut self.live, replica, settings);
        number
    }

    /// One more holds the generation.
    #[tactic(auto, using(crate::proofs::Currents::one_held, crate::proofs::Lives::held_live))]
    pub fn hold(&mut self, number: u32)
        requires { MayHold number self.old.generations }
        ensures { self.new ≡ record self.old {
          generations = changed_at held_more number self.old.generations;
        } }
    {
        holding::hold(&mut self.all, number as usize);
    }

    /// One fewer holds the generation.
    #[tactic(auto, using(crate::proofs::Currents::one_released))]
    pub fn release(&mut self, number: u32)
        requires { IsHeld number self.old.generations }
        ensures { self.new ≡ record self.old {
          generations = changed_at held_less number self.old.generations;
        } }
    {
        holding::release(&mut self.all, &mut self.live, number);
    }

    /// The replica has no current generation any more.
    #[tactic(auto, using(crate::proofs::Currents::one_left))]
    pub fn leave(&mut self, replica: u32)
        ensures { self.new ≡ record self.old {
          generations = without_current replica self.old.generations;
        } }
    {
        holding::leave(&mut self.all, &mut self.live, replica);
    }
}
