//! A fleet's output in the making.
use kr_base::{Bytes, List, MemSink};
use kr_rollout::Line;
use kr_script::{Script, Told, write_fleet};
use std::alloc::Global;
use std::mem;
use test_support::{Wrong, add};

/// How many bytes an output may have.
const ROOM: usize = 4_194_304;

/// What happened so far.
#[derive(Drop)]
pub struct FleetOutput {
    /// The fleet file, once there is one.
    script: Option<Script>,
    journal: List<Line>,
    /// What the workers before the one at hand told.
    replies: List<List<Told>>,
    told: List<Told>,
}

impl FleetOutput {
    /// The output of the script, if there is one, with no journal lines and no replies yet.
    pub fn new(alloc: Global, script: Option<Script>) -> FleetOutput {
        FleetOutput {
            script,
            journal: List::new(alloc),
            replies: List::new(alloc),
            told: List::new(alloc),
        }
    }

    /// Whether there is a fleet file.
    pub fn has_script(&self) -> bool {
        self.script.is_some()
    }

    /// One more line at the journal's end.
    pub fn add_line(&mut self, line: Line) -> Result<(), Wrong> {
        add(&mut self.journal, Ok(line))
    }

    /// One more reply of the worker at hand.
    pub fn add_reply(&mut self, told: Told) -> Result<(), Wrong> {
        add(&mut self.told, Ok(told))
    }

    /// The worker at hand told all; what follows is the next one's, in the order of the file.
    pub fn end_worker(&mut self, alloc: Global) -> Result<(), Wrong> {
        let told = mem::replace(&mut self.told, List::new(alloc));
        add(&mut self.replies, Ok(told))
    }

    /// The output, with the replies of the workers before the one at hand.
    pub fn print(&self, alloc: Global) -> Result<Vec<u8>, Wrong> {
        let mut sink = MemSink::new(Bytes::new(alloc), ROOM, List::new(alloc))?;
        let printed = self.write(alloc, &mut sink);
        drop(sink);
        printed
    }

    fn write(&self, alloc: Global, sink: &mut MemSink) -> Result<Vec<u8>, Wrong> {
        let Some(script) = &self.script else {
            return Err(Wrong::Form);
        };
        let journal = self.journal.as_slice();
        let replies = self.replies.as_slice();
        match write_fleet(alloc, sink, script, journal, replies) {
            Ok(()) => Ok(sink.bytes().to_vec(alloc)?),
            Err(why) => {
                drop(why);
                Err(Wrong::Form)
            }
        }
    }
}
