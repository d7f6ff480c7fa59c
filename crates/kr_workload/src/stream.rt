//! The streams of ChaCha8 that a seed gives: of stream 0 are the secrets and the data of a load, of
//! each other one the random source of a worker.
ghost use Rattle.std.specs.Prelude.{◌≡◌, ◌<◌, ◌≤◌, ◌∷◌, ◌++◌, OnErr, Some, MatchResult, length};
ghost use Rattle.std.specs.Io.KnownBytes.{Consumes, Keeps};
ghost use Rattle.kr_base.specs.Faults.{IsCounted};
ghost use Rattle.kr_workload.specs.Streams.{link_faults, key_bytes, left_in, worker_dice, stream};

use kr_base::{Dice, Failed, FaultCount};
use rand_chacha::ChaCha8Rng;
use rand_core::SeedableRng;
use rand_core::utils::NextWord;
use std::marker::Model;

/// How many bytes a stream has. Behind them its words would come again.
const STREAM_BYTES: u128 = 1 << 70;

/// The bytes of a stream that are left. Contracts see just these.
#[derive(Drop)]
pub struct Stream {
    generator: ChaCha8Rng,
    word: [u8; 4],
    place: u128,
}

impl Model for Stream {
    ghost use Rattle.std.specs.Prelude.{ℕ, List};
    ghost use Rattle.kr_workload.specs.Streams.{rest_at};
    ghost use Rattle.kr_workload.specs.inner.Standing.{StandsAt};

    ghost Value = { List ℕ };

    ghost view = { λ stream. rest_at stream.generator.key stream.place };

    ghost invariant = { λ stream. StandsAt stream.generator stream.word stream.place };
}

impl Stream {
    /// The whole stream of this number.
    pub fn of(seed: u64, number: u64) -> Stream
        ensures { result ≡ stream seed number }
    {
        Stream {
            generator: ChaCha8Rng::from_seed(key_bytes(seed, number)),
            word: [0; 4],
            place: 0,
        }
    }

    /// How many bytes are left.
    pub fn left(&self) -> u128
        ensures { result ≡ length self.now }
    {
        STREAM_BYTES - self.place
    }

    /// Fills the buffer with the next bytes.
    pub fn draw(&mut self, into: &mut [u8])
        requires { length into.old ≤ length self.old }
        ensures drawn { self.old ≡ into.new ++ self.new }
        ensures long { length into.new ≡ length into.old }
    {
        for byte in into.iter_mut() {
            *byte = self.next_byte();
        }
    }

    /// The next byte.
    fn next_byte(&mut self) -> u8
        requires { 0 < length self.old }
        ensures { self.old ≡ result ∷ self.new }
    {
        let within = (self.place % 4) as usize;
        if within == 0 {
            self.word = self.generator.next_word().to_le_bytes();
        }
        self.place += 1;
        self.word[within]
    }
}

/// The key: both numbers, high byte first, and zeros.
fn key_bytes(seed: u64, number: u64) -> [u8; 32]
    ensures { result ≡ key_bytes seed number }
{
    let mut key = [0; 32];
    key[0..8].copy_from_slice(&seed.to_be_bytes());
    key[8..16].copy_from_slice(&number.to_be_bytes());
    key
}

/// A random source over a stream. A draw fails only where fewer bytes are left than it asks for.
#[derive(Drop)]
pub struct StreamDice {
    stream: Stream,
    faults: FaultCount,
}

impl Model for StreamDice {
    ghost use Rattle.std.specs.Prelude.{◌≡◌, ◌<◌, ◌⊎◌, ◌^◌, length};
    ghost use Rattle.kr_workload.specs.Streams.{StreamState};

    ghost Value = { StreamState };

    ghost view = { λ dice. record { left = dice.stream; faults = dice.faults } };

    ghost invariant = { λ dice. (dice.faults ≡ 0) ⊎ (length dice.stream < 2 ^ 64) };
}

/// The random source of a worker by its number, from 0.
pub fn worker_dice(seed: u64, worker: u32) -> StreamDice
    ensures { result ≡ worker_dice seed worker }
{
    StreamDice {
        stream: Stream::of(seed, 1 + u64::from(worker)),
        faults: FaultCount::new(),
    }
}

impl Dice for StreamDice {
    ghost left = { left_in };

    ghost count = { link_faults };

    fn fill(&mut self, into: &mut [u8]) -> Result<(), Failed>
        ensures few { OnErr result (length self.old.left < length into.old) }

        // As the trait says.
        ensures bytes { MatchResult result
            (λ _. Consumes (Some self.old.left) (Some self.new.left) into.new)
            (λ _. Keeps (Some self.old.left) (Some self.new.left)) }
        ensures cause { IsCounted (link_faults self.old) (link_faults self.new) result }
    {
        if self.stream.left() < into.len() as u128 {
            self.faults.rise();
            return Err(Failed);
        }
        self.stream.draw(into);
        Ok(())
    }

    fn faults(&self) -> u64 {
        self.faults.count()
    }
}
