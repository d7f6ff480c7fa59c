//! What calls do that hold a generation meanwhile.
ghost use Rattle.std.specs.Prelude.{◌≡◌, ◌<◌, ◌≤◌, [], length, None, Some, IfOk, IfErr, IsSome};
ghost use Rattle.kr_provider.specs.BenchKeys.{ClearsKeys, adoption_of};
ghost use Rattle.kr_provider.specs.KeyPages.{HoldKeys, adopted_secrets, size_of};
ghost use Rattle.kr_provider.specs.Names.{HasLinks, names_of};
ghost use Rattle.kr_rollout.specs.Callers.{holding};
ghost use Rattle.kr_history.specs.Calls.{Adopts, AreServed, IsIdle, IsIdleAfter, KeepsHonesty, LetsGo};
ghost use Rattle.kr_rollout.specs.Openings.{IsAdmitted};
ghost use Rattle.kr_history.specs.Parts.{AddsWithin};
ghost use Rattle.kr_history.specs.TakingUp.{TakesUpCurrent};
ghost use Rattle.kr_history.specs.inner.Adopting.{AdoptsBy, AnswersAdopt};

use crate::acts::Acts;
use crate::call::CallNo;
use kr_base::{Dice, Shared, Spent};
use kr_kms::Kms;
use kr_provider::{Bench, Published};
use kr_rollout::{Answer, Event};

/// Adopts the replica's current generation, with its configuration, which the seat then holds. The
/// configuration is one that a bench with a link to each of the opening's plugins may take up. A
/// call that holds it lets it go again by `hand_back` or `let_go`, whatever it did.
pub fn adopt<A: Acts>(acts: &mut A, replica: u32) -> Result<(u32, Shared<Published>), CallNo>
    requires replica { replica < length (A.caller acts.old).opening.replicas }
    requires idle { holding (A.caller acts.old).mine ≡ None }
    ensures adopts { Adopts replica (A.caller acts.old) result (A.caller acts.new) }
    ensures known { IfOk result (λ held. IsAdmitted (A.caller acts.old).opening.names held.1
        × (holding (A.caller acts.new).mine ≡ Some (held.0, held.1))) }
    ensures adds { AddsWithin 1 0 [] (A.caller acts.old) (A.caller acts.new) }
    ensures honest { KeepsHonesty (A.caller acts.old) (A.caller acts.new) }
    ensures idle { IfErr result (λ why. IsIdleAfter why (A.caller acts.new)) }
    ensures place { A.place acts.new ≡ A.place acts.old }
{
    acts.known();
    match acts.act(Event::Adopt { replica }) {
        Ok(answer) => adopted(answer),
        Err(Spent) => Err(CallNo::Spent),
    }
}

/// The generation that was adopted, with its configuration.
fn adopted(answer: Answer) -> Result<(u32, Shared<Published>), CallNo>
    requires { AnswersAdopt answer }
    ensures { AdoptsBy answer result }
{
    match answer {
        Answer::Adopted {
            generation,
            published,
        } => Ok((generation, published)),
        Answer::Gone { replica: _ } => Err(CallNo::Gone),
        Answer::NoMemory => Err(CallNo::NoMemory),
        _ => unreachable!(),
    }
}

/// Gives the bench an adopted configuration, in place of the one that it had. 64 pages are enough
/// for each, so it takes no memory and is never refused.
fn adopt_configuration<L: Kms, D: Dice>(bench: &mut Bench<L, D>, published: Shared<Published>)
    requires links { HasLinks (names_of L.link bench.old.links) published.rows }
    requires pages { 64 ≤ size_of bench.old.pages }
    ensures taken { bench.new
        ≡ record bench.old { published = Some published; pages = bench.new.pages } }
    ensures keys { HoldKeys (adopted_secrets bench.new.published) bench.new.pages }
    ensures pages { size_of bench.new.pages ≡ size_of bench.old.pages }
{
    published.get().known();
    let Ok(()) = bench.adopt(published) else {
        unreachable!()
    };
}

/// Adopts the replica's current generation and gives the bench its configuration, by which the call
/// works until `hand_back`. Where nothing is adopted the bench stays as it was.
pub fn take_up<A: Acts, L: Kms, D: Dice>(
    acts: &mut A,
    replica: u32,
    bench: &mut Bench<L, D>,
) -> Result<(), CallNo>
    requires replica { replica < length (A.caller acts.old).opening.replicas }
    requires idle { holding (A.caller acts.old).mine ≡ None }
    requires links { AreServed (A.caller acts.old).opening.names (names_of L.link bench.old.links) }
    requires pages { 64 ≤ size_of bench.old.pages }
    ensures takes_up { TakesUpCurrent replica (A.caller acts.old) bench.old result
        (A.caller acts.new) bench.new }
    ensures adds { AddsWithin 1 0 [] (A.caller acts.old) (A.caller acts.new) }
    ensures honest { KeepsHonesty (A.caller acts.old) (A.caller acts.new) }
    ensures idle { IfErr result (λ why. IsIdleAfter why (A.caller acts.new)) }
    ensures place { A.place acts.new ≡ A.place acts.old }
{
    let held = match adopt(acts, replica) {
        Ok(held) => held,
        Err(why) => return Err(why),
    };
    adopt_configuration(bench, held.1);
    Ok(())
}

/// Takes the configuration of the bench away, so that each page is zero, and then lets the
/// generation go: no key stands while the LetGo waits for others' turns. It answers as `let_go`.
pub fn hand_back<A: Acts, L: Kms, D: Dice, T: Drop>(
    acts: &mut A,
    bench: &mut Bench<L, D>,
    done: Result<T, CallNo>,
) -> Result<T, CallNo>
    requires holds { IsSome (holding (A.caller acts.old).mine) }
    ensures kept { bench.new ≡ record bench.old { published = None; pages = bench.new.pages } }
    ensures cleared { ClearsKeys (adoption_of bench.old) (adoption_of bench.new) }
    ensures lets_go { LetsGo (A.caller acts.old) done result (A.caller acts.new) }
    ensures adds { AddsWithin 1 0 [] (A.caller acts.old) (A.caller acts.new) }
    ensures honest { KeepsHonesty (A.caller acts.old) (A.caller acts.new) }
    ensures idle { IsIdle result (A.caller acts.new) }
    ensures place { A.place acts.new ≡ A.place acts.old }
{
    bench.let_go();
    let_go_bare(acts, bench, done)
}

/// Lets the generation go by a call whose bench has no key in a page.
fn let_go_bare<A: Acts, L: Kms, D: Dice, T: Drop>(
    acts: &mut A,
    bench: &Bench<L, D>,
    done: Result<T, CallNo>,
) -> Result<T, CallNo>
    requires holds { IsSome (holding (A.caller acts.old).mine) }
    requires bare { HoldKeys [] bench.now.pages }
    ensures lets_go { LetsGo (A.caller acts.old) done result (A.caller acts.new) }
    ensures adds { AddsWithin 1 0 [] (A.caller acts.old) (A.caller acts.new) }
    ensures honest { KeepsHonesty (A.caller acts.old) (A.caller acts.new) }
    ensures idle { IsIdle result (A.caller acts.new) }
    ensures place { A.place acts.new ≡ A.place acts.old }
{
    let_go(acts, done)
}

/// Lets the generation go that the seat holds, whatever was done meanwhile, and answers what was
/// done. Only where the seat may add no more lines it answers that, and the seat goes on to hold.
pub fn let_go<A: Acts, T: Drop>(acts: &mut A, done: Result<T, CallNo>) -> Result<T, CallNo>
    requires holds { IsSome (holding (A.caller acts.old).mine) }
    ensures lets_go { LetsGo (A.caller acts.old) done result (A.caller acts.new) }
    ensures adds { AddsWithin 1 0 [] (A.caller acts.old) (A.caller acts.new) }
    ensures honest { KeepsHonesty (A.caller acts.old) (A.caller acts.new) }
    ensures idle { IsIdle result (A.caller acts.new) }
    ensures place { A.place acts.new ≡ A.place acts.old }
{
    acts.known();
    match acts.act(Event::LetGo) {
        Ok(_answer) => done,
        Err(Spent) => Err(CallNo::Spent),
    }
}
