//! Reading a fleet file.
ghost use Rattle.std.specs.Str.Lines.{lines};
ghost use Rattle.kr_script.specs.Meanings.{ReadsScript};
ghost use Rattle.kr_script.specs.inner.Drafts.{start};
ghost use Rattle.kr_script.specs.inner.Reading.{answer, Gives};

use crate::draft::Draft;
use crate::lines::next_line;
use crate::script::{Script, ScriptNo};
use std::alloc::Global;
use std::str;

/// Reads a fleet file: UTF-8 in lines that LF or CR LF ends, blank lines and lines that begin with
/// `#` left out. The first line is `fleet 1`; then come the replicas, and behind them the workers,
/// each with its lines. The first line that can't stand there is a breach; a 17th replica, a 65th
/// worker and data above 2,097,152 bytes pass a limit, where their line is no breach.
pub fn read_script(alloc: Global, bytes: &[u8]) -> Result<Script, ScriptNo>
    ensures { ReadsScript bytes.now result }
{
    read_lines(alloc, bytes)
}

/// The same by the answer as it is computed.
fn read_lines(alloc: Global, bytes: &[u8]) -> Result<Script, ScriptNo>
    ensures { Gives (answer 1 start (lines bytes.now)) result }
{
    let mut draft = Draft::new(alloc);
    let mut rest = bytes;
    let mut number: u64 = 1;
    while let Some((line, more)) = next_line(rest) {
        let line = match str::from_utf8(line) {
            Ok(line) => line,
            Err(_) => {
                drop(draft);
                return Err(ScriptNo::Breach { line: number });
            }
        };
        match draft.take_line(alloc, line) {
            Ok(()) => {}
            Err(why) => {
                drop(draft);
                return Err(why.refusal_on_line(number));
            }
        }
        rest = more;
        number += 1;
    }
    draft.finish(number)
}
