//! Generations of settings.
ghost use Rattle.std.specs.Prelude.{◌≡◌, ◌<◌};
ghost use Rattle.kr_judge.specs.Boards.{is_live, is_replica_current, held_less};
ghost use Rattle.kr_judge.specs.inner.Lives.{uncurrent};
ghost use Rattle.kr_judge.specs.inner.Views.{generation_of};
ghost use Rattle.kr_judge.specs.Verdicts.{is_other};

use kr_base::Shared;
use kr_config::Settings;

/// The settings that a replica took up at one time.
#[derive(Drop)]
pub struct JudgedGeneration {
    pub replica: u32,
    pub settings: Shared<Settings>,
    /// Whether they are its replica's current ones.
    pub current: bool,
    /// How many hold it.
    pub holders: u32,
}

impl JudgedGeneration {
    /// Whether something may still read or write by it.
    pub fn is_live(&self) -> bool
        ensures { result ≡ is_live (generation_of self.now) }
    {
        self.current || self.holders > 0
    }

    /// Whether it is live beside new settings of the replica.
    pub fn is_other(&self, replica: u32) -> bool
        ensures { result ≡ is_other replica (generation_of self.now) }
    {
        self.is_live() && !(self.replica == replica && self.current && self.holders == 0)
    }

    /// Whether it is the replica's current one.
    pub fn is_replica_current(&self, replica: u32) -> bool
        ensures { result ≡ is_replica_current replica (generation_of self.now) }
    {
        self.current && self.replica == replica
    }

    /// One fewer holds it. Tells whether it is still live.
    pub fn release(&mut self) -> bool
        requires { 0 < self.old.holders }
        ensures released { generation_of self.new ≡ held_less (generation_of self.old) }
        ensures live { result ≡ is_live (held_less (generation_of self.old)) }
    {
        self.holders -= 1;
        self.is_live()
    }

    /// It is no longer current. Tells whether it is still live.
    pub fn leave(&mut self) -> bool
        ensures left { generation_of self.new ≡ uncurrent (generation_of self.old) }
        ensures live { result ≡ is_live (uncurrent (generation_of self.old)) }
    {
        self.current = false;
        self.is_live()
    }
}
