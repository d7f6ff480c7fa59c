//! Verdicts.
ghost use Rattle.std.specs.Prelude.{◌≡◌, ◌≢◌, IfOk, MatchResult};
ghost use Rattle.kr_config.specs.Nexts.{lent_class};
ghost use Rattle.kr_judge.specs.declared.verdict.Verdict.TheVariants.{Pass, DropsStored};
ghost use Rattle.kr_judge.specs.inner.Losses.{verdict_on_loss};

use crate::judging::Writer;
use kr_base::{NoMemory, Text};
use kr_config::{BorrowedClass, Class, Who, copy_class};
use std::alloc::Global;

/// Whether a replica may take new settings up, or the first reason why not.
#[derive(Drop)]
pub enum Verdict {
    /// It may.
    Pass,
    /// The provider of what is stored at the path isn't in the new list of its resource.
    DropsStored {
        path: Text,
        who: Who,
    },
    /// A live generation writes this class by a provider that isn't in the new list.
    DropsWriter {
        generation: u32,
        class: Class,
        who: Who,
    },
    /// The new settings write this class by a provider that isn't in a live generation's list.
    Unread {
        generation: u32,
        class: Class,
        who: Who,
    },
}

impl Verdict {
    /// `DropsStored` of copies of its parts.
    pub(crate) fn drops_stored(alloc: Global, path: &str, who: &Who) -> Result<Verdict, NoMemory>
        ensures { IfOk result (λ verdict. verdict ≡ DropsStored path.now who.now) }
    {
        let path = Text::copy(alloc, path)?;
        match who.copy(alloc) {
            Ok(who) => Ok(Verdict::DropsStored { path, who }),
            Err(NoMemory) => {
                drop(path);
                Err(NoMemory)
            }
        }
    }

    /// The verdict on a class that one of two settings writes and the other doesn't read, of copies
    /// of its parts.
    pub(crate) fn on_lost_class(
        alloc: Global,
        writer: Writer,
        generation: u32,
        class: BorrowedClass<'_>,
        who: &Who,
    ) -> Result<Verdict, NoMemory>
        ensures { IfOk result (λ verdict. verdict
            ≡ verdict_on_loss writer (generation, lent_class class.entry, who.now)) }
    {
        let class = copy_class(alloc, class)?;
        let who = match who.copy(alloc) {
            Ok(who) => who,
            Err(NoMemory) => {
                drop(class);
                return Err(NoMemory);
            }
        };
        match writer {
            Writer::Other => Ok(Verdict::DropsWriter {
                generation,
                class,
                who,
            }),
            Writer::New => Ok(Verdict::Unread {
                generation,
                class,
                who,
            }),
        }
    }

    /// A copy of the verdict; `Pass` needs no memory for it.
    pub fn copy(&self, alloc: Global) -> Result<Verdict, NoMemory>
        ensures { MatchResult result (λ copy. copy ≡ self.now) (λ _. self.now ≢ Pass) }
    {
        match self {
            Verdict::Pass => Ok(Verdict::Pass),
            Verdict::DropsStored { path, who } => Verdict::drops_stored(alloc, path.as_str(), who),
            Verdict::DropsWriter {
                generation,
                class,
                who,
            } => {
                Verdict::on_lost_class(alloc, Writer::Other, *generation, class.borrowed(), who)
            }
            Verdict::Unread {
                generation,
                class,
                who,
            } => { Verdict::on_lost_class(alloc, Writer::New, *generation, class.borrowed(), who) }
        }
    }
}
