//! Room for one answer.
ghost use Rattle.std.specs.Prelude.{◌≡◌, length};
ghost use Rattle.kr_edge.specs.Wiped.{IsWiped};

use kr_base::NoMemory;
use std::alloc::Global;

/// The most bytes of an answer, without its LF.
const ANSWER_LIMIT: usize = 131_072;

/// Room for an answer with its LF.
#[derive(Drop)]
pub struct AnswerRoom {
    pub(crate) line: Vec<u8>,
    ghost size: { length line.items ≡ 131073 },
}

impl AnswerRoom {
    /// Takes the memory.
    pub fn new(alloc: Global) -> Result<AnswerRoom, NoMemory> {
        let line = vec![in alloc; 0; ANSWER_LIMIT + 1]?;
        Ok(AnswerRoom { line })
    }

    /// Lets nothing of an answer stand in it: it may have had a seed.
    pub(crate) fn wipe(&mut self)
        ensures { IsWiped self.new.line.items }
    {
        wipe_bytes(self.line.as_mut_slice());
    }
}

fn wipe_bytes(bytes: &mut [u8])
    ensures { IsWiped bytes.new }
{
    for byte in bytes.iter_mut() {
        *byte = 0;
    }
}
