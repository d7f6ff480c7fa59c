//! The pieces of a seed's stream 0.
ghost use Rattle.std.specs.Prelude.{◌≡◌, ◌+◌, ◌<◌, ◌^◌, IfOk, length};
ghost use Rattle.kr_workload.specs.Streams.{piece};

use crate::stream::Stream;
use kr_base::{Bytes, NoMemory};
use std::alloc::Global;
use std::marker::Model;

/// The pieces of 32 bytes of stream 0, from one of them on. Contracts see the seed and the number
/// of the next piece.
#[derive(Drop)]
pub struct Pieces {
    seed: u64,
    number: u64,
    stream: Stream,
}

impl Model for Pieces {
    ghost use Rattle.std.specs.Prelude.{ℕ, ◌≡◌, ◌*◌};
    ghost use Rattle.kr_workload.specs.Streams.{stream_key, rest_at};

    ghost Value = { ℕ × ℕ };

    ghost view = { λ pieces. (pieces.seed, pieces.number) };

    ghost invariant = { λ pieces.
        pieces.stream ≡ rest_at (stream_key pieces.seed 0) (32 * pieces.number) };
}

impl Pieces {
    /// All of them.
    pub fn all_pieces(seed: u64) -> Pieces
        ensures { result ≡ (seed, 0) }
    {
        Pieces {
            seed,
            number: 0,
            stream: Stream::of(seed, 0),
        }
    }

    /// The next one. It is passed, also where there is no memory for it.
    pub fn next(&mut self, alloc: Global) -> Result<Bytes, NoMemory>
        requires few { self.old.1 < 2 ^ 60 }
        ensures piece { IfOk result (λ bytes. bytes ≡ piece self.old.0 self.old.1) }
        ensures long { IfOk result (λ bytes. length bytes ≡ 32) }
        ensures passed { self.new ≡ (self.old.0, self.old.1 + 1) }
    {
        let mut piece = [0; 32];
        self.stream.draw(&mut piece);
        self.number += 1;
        Bytes::copy(alloc, &piece)
    }
}
