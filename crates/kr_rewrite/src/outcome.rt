//! What the rewrite answers.
ghost use Rattle.std.specs.Prelude.{◌≡◌};
ghost use Rattle.kr_base.specs.Numbering.{next_number};
ghost use Rattle.kr_rewrite.specs.Drives.{report_at};
ghost use Rattle.kr_rewrite.specs.inner.Stages.{CountsStep};

use kr_base::Text;

/// What a step did, with the path of the row that it found.
#[derive(Drop)]
pub enum Step {
    /// No path above has a live row.
    End,
    /// The row was stale, and its data were sealed anew in its place.
    Rewritten(Text),
    /// The row isn't stale.
    Fresh(Text),
    /// The row was stale, but it isn't the path's last one any more.
    Changed(Text),
    /// The row's value is refused, or it is stale and its data can't be sealed.
    Left(Text),
}

/// What a drive did. Each count is exact up to the greatest number, where it stays.
#[derive(Drop)]
pub struct Report {
    pub rewritten: u64,
    pub fresh: u64,
    pub changed: u64,
    pub left: u64,
    /// The path of the last row that was found; the one to begin above, where there was none. It
    /// is empty where there was no memory for a copy of that.
    pub last: Text,
}

impl Report {
    /// The report of a drive that took no step yet.
    pub(crate) fn without_steps(last: Text) -> Report
        ensures { result ≡ report_at last }
    {
        Report {
            rewritten: 0,
            fresh: 0,
            changed: 0,
            left: 0,
            last,
        }
    }

    /// Counts a step that found a row, and keeps the row's path. It answers whether it did: at the
    /// end there is no row.
    pub(crate) fn count(&mut self, step: Step) -> bool
        ensures { CountsStep self.old step result self.new }
    {
        match step {
            Step::End => false,
            Step::Rewritten(path) => {
                rise(&mut self.rewritten);
                self.last = path;
                true
            }
            Step::Fresh(path) => {
                rise(&mut self.fresh);
                self.last = path;
                true
            }
            Step::Changed(path) => {
                rise(&mut self.changed);
                self.last = path;
                true
            }
            Step::Left(path) => {
                rise(&mut self.left);
                self.last = path;
                true
            }
        }
    }
}

/// Counts one more, up to the greatest number.
fn rise(count: &mut u64)
    ensures { count.new ≡ next_number count.old }
{
    *count = count.saturating_add(1);
}
