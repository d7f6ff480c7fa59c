//! Events that give replicas configurations, or take their current generations away.
ghost use Rattle.std.specs.Prelude.{◌≡◌, ◌<◌, ◌↔◌, IsTrue, length};
ghost use Rattle.kr_config.specs.Kept.{rows_of};
ghost use Rattle.kr_rollout.specs.Answers.{IsExpected};
ghost use Rattle.kr_rollout.specs.Callers.{did_of, gave_of};
ghost use Rattle.kr_rollout.specs.Openings.{room_of};
ghost use Rattle.kr_rollout.specs.declared.event.Event.TheVariants as event;
ghost use Rattle.kr_rollout.specs.inner.Membership.{AwaitsIt, brought, taken_as, with_generation};
ghost use Rattle.kr_rollout.specs.inner.Rollouts.{MayServe, Serves};

use crate::answer::Answer;
use crate::judgement::{Judgement, judge};
use crate::line::{Did, Gave, Line};
use crate::published::known;
use crate::rollout::Rollout;
use kr_base::{NoMemory, Shared, Tape};
use kr_config::Settings;
use kr_opening::Generation;
use kr_provider::Published;

/// Whether the generation is the expected one, or any is.
fn is_expected(expect: Option<u32>, current: u32) -> bool
    ensures { IsTrue result ↔ IsExpected expect current }
{
    match expect {
        Some(number) => number == current,
        None => true,
    }
}

/// How a replica is given a configuration: another one, where its current generation is the
/// expected one, or its first.
#[derive(Clone, Copy)]
enum Bringing {
    Reload { expect: Option<u32> },
    Join,
}

impl Bringing {
    /// What the seat did then.
    fn did(self, replica: u32, published: Shared<Published>) -> Did
        ensures { result ≡ did_of (brought self replica published) }
    {
        match self {
            Bringing::Reload { expect } => Did::Reload {
                replica,
                published,
                expect,
            },
            Bringing::Join => Did::Join { replica, published },
        }
    }

    /// What is answered where it was taken up.
    fn taken(self, generation: u32) -> (Answer, Gave)
        ensures answer { result.0 ≡ taken_as self generation }
        ensures gave { result.1 ≡ gave_of (taken_as self generation) }
    {
        match self {
            Bringing::Reload { expect: _ } => {
                (
                    Answer::Reloaded { generation },
                    Gave::Reloaded { generation },
                )
            }
            Bringing::Join => (Answer::Joined { generation }, Gave::Joined { generation }),
        }
    }
}

impl<T: Tape> Rollout<T> {
    /// Gives a replica that is in another configuration, where its current generation is the
    /// expected one.
    pub fn reload(
        &mut self,
        seat: u32,
        replica: u32,
        published: Shared<Published>,
        expect: Option<u32>,
    ) -> (Answer, Line)
        requires seat_in { seat < length self.old.opening.reloads }
        requires may { MayServe self.old seat (event.Reload replica published expect) }
        ensures { Serves self.old seat (event.Reload replica published expect)
            result.0 result.1 self.new }
    {
        known(published.get());
        let bringing = Bringing::Reload { expect };
        let Some(generation) = self.current[replica as usize] else {
            let did = bringing.did(replica, published);
            let line = self.line(seat, did, Gave::Gone { replica });
            return (Answer::Gone { replica }, line);
        };
        if !is_expected(expect, generation) {
            let did = bringing.did(replica, published);
            let line = self.line(seat, did, Gave::Moved { generation });
            return (Answer::Moved { generation }, line);
        }
        self.bring(seat, replica, published, bringing)
    }

    /// Gives a replica that isn't in a configuration.
    pub fn join(&mut self, seat: u32, replica: u32, published: Shared<Published>) -> (Answer, Line)
        requires seat_in { seat < length self.old.opening.reloads }
        requires may { MayServe self.old seat (event.Join replica published) }
        ensures { Serves self.old seat (event.Join replica published)
            result.0 result.1 self.new }
    {
        known(published.get());
        if let Some(generation) = self.current[replica as usize] {
            let did = Did::Join { replica, published };
            let line = self.line(seat, did, Gave::Present { generation });
            return (Answer::Present { generation }, line);
        }
        self.bring(seat, replica, published, Bringing::Join)
    }

    /// Judges the configuration for a replica that awaits it, which takes it up where it fits. All
    /// that this needs is made before anything changes.
    fn bring(
        &mut self,
        seat: u32,
        replica: u32,
        published: Shared<Published>,
        bringing: Bringing,
    ) -> (Answer, Line)
        requires seat_in { seat < length self.old.opening.reloads }
        requires may { MayServe self.old seat (brought bringing replica published) }
        requires awaited { AwaitsIt bringing self.old.state replica }
        ensures { Serves self.old seat (brought bringing replica published)
            result.0 result.1 self.new }
    {
        known(published.get());
        let judged = judge(self.alloc, &self.board, replica, &published);
        let did = bringing.did(replica, published);
        match judged {
            Ok(
                Judgement::Fits {
                    settings,
                    published,
                },
            ) => {
                let generation = self.push_generation(replica, settings, published);
                let (answer, gave) = bringing.taken(generation);
                let line = self.line(seat, did, gave);
                return (answer, line);
            }
            Ok(Judgement::Refused { told, kept }) => {
                let line = self.line(seat, did, Gave::Refused(kept));
                return (Answer::Refused(told), line);
            }
            Err(NoMemory) => {
                let line = self.line(seat, did, Gave::Nothing);
                return (Answer::NoMemory, line);
            }
        }
    }

    /// Takes the replica's current generation away. It takes no memory.
    pub fn leave(&mut self, seat: u32, replica: u32) -> (Answer, Line)
        requires seat_in { seat < length self.old.opening.reloads }
        requires may { MayServe self.old seat (event.Leave replica) }
        ensures { Serves self.old seat (event.Leave replica) result.0 result.1 self.new }
    {
        let did = Did::Leave { replica };
        let Some(generation) = self.current[replica as usize] else {
            let line = self.line(seat, did, Gave::Gone { replica });
            return (Answer::Gone { replica }, line);
        };
        let line = self.line(seat, did, Gave::Departed { generation });
        self.board.leave(replica);
        self.current[replica as usize] = None;
        (Answer::Departed { generation }, line)
    }

    /// The configuration is the replica's next generation. It takes no memory.
    fn push_generation(
        &mut self,
        replica: u32,
        settings: Shared<Settings>,
        published: Shared<Published>,
    ) -> u32
        requires replica { replica < length self.old.opening.replicas }
        requires room { length self.old.state.generations < room_of self.old.opening }
        requires same { rows_of settings.entries.0 ≡ published.rows }
        ensures number { result ≡ length self.old.state.generations }
        ensures taken { self.new ≡ with_generation self.old replica published }
    {
        let number = self.board.add(replica, settings);
        self.generations
            .push_in_room(Generation { replica, published });
        self.current[replica as usize] = Some(number);
        number
    }
}
