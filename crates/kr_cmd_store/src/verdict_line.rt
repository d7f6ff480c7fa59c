//! A verdict as a line in memory.
ghost use Rattle.std.specs.Prelude.{◌≡◌, [], IfOk};
ghost use Rattle.kr_judge.specs.Texts.{verdict_text};
ghost use Rattle.kr_cmd_messages.specs.Texts.{line};

use kr_base::{Bytes, Failed, FaultCount, NoMemory, Sink};
use kr_judge::Verdict;
use std::alloc::Global;

/// Bytes in memory that a verdict is written to. It fails where there is no memory.
#[derive(Drop)]
struct TextSink {
    bytes: Vec<u8>,
    faults: FaultCount,
}

impl Sink for TextSink {
    ghost use Rattle.std.specs.Prelude.{Some};

    ghost held = { λ text. Some text.bytes.items };

    ghost count = { λ text. text.faults };

    fn write(&mut self, bytes: &[u8]) -> Result<usize, Failed> {
        match self.bytes.extend_from_slice(bytes) {
            Ok(()) => Ok(bytes.len()),
            Err(_) => {
                self.faults.rise();
                Err(Failed)
            }
        }
    }

    fn faults(&self) -> u64 {
        self.faults.count()
    }
}

/// The text of the verdict, with a line break.
pub fn verdict_line(alloc: Global, verdict: &Verdict) -> Result<Bytes, NoMemory>
    ensures { IfOk result (λ text. text ≡ line (verdict_text verdict.now)) }
{
    let mut text = TextSink {
        bytes: Vec::new(alloc),
        faults: FaultCount::new(),
    };
    match verdict.write(&mut text) {
        Ok(()) => {}
        Err(Failed) => return Err(NoMemory),
    }
    match text.bytes.push(b'\n') {
        Ok(()) => Ok(Bytes::from_vec(text.bytes)),
        Err(_) => Err(NoMemory),
    }
}
