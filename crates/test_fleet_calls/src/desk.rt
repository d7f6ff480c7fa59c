//! A caller of a core, with the bench by which it makes its calls.
ghost use Rattle.std.specs.Prelude.{◌≡◌, ◌<◌, ◌⊎◌, [], false, IfOk};
ghost use Rattle.kr_base.specs.Rules.{IsPath};
ghost use Rattle.kr_provider.specs.Names.{names_of};
ghost use Rattle.test_fleet_calls.specs.Desks.{IsBench, IsCallerOf, is_spent, parts_of};

use crate::between::Between;
use crate::call::Call;
use crate::linked::{Spelled, share_allowed};
use kr_base::{Bytes, MemDice, Shared, path_ok, resource_ok};
use kr_config::Settings;
use kr_fleet::{Joining, Loaded, Read, delete, join, leave, read, refresh, reload, write};
use kr_history::{Acts, CallNo};
use kr_kms::Kms;
use kr_provider::Bench;
use kr_rewrite::{Report, Step, drive, rewrite_next};
use std::alloc::Global;
use std::marker::Model;
use std::mem;
use test_support::{Page, Wrong};

/// A caller with its bench, by which each call may be made at any time. A seat that was `Spent`
/// may hold something still, and makes no call any more.
pub struct Desk<A: Acts, L: Kms> {
    acts: A,
    bench: Bench<L, MemDice>,
    replicas: u32,
    /// How many configurations it may still bring.
    left: u32,
    ended: bool,
}

impl<A: Acts, L: Kms> Model for Desk<A, L> {
    ghost use Rattle.kr_provider.specs.Names.{names_of};
    ghost use Rattle.test_fleet_calls.specs.Desks.{IsBench, IsCallerOf};

    ghost Value = { Unit {0} };

    ghost view = { λ desk. tt };

    ghost invariant = { λ desk.
        IsCallerOf (A.caller desk.acts) desk.replicas desk.left desk.ended
        × IsBench (names_of L.link desk.bench.links) desk.bench.pages };
}

/// What a call answered.
pub type Done<T> = Result<T, CallNo>;

/// A seat makes calls of a replica only while it goes on, and where there is such a one.
fn may(ended: bool, replicas: u32, replica: u32) -> Result<(), Wrong>
    ensures { IfOk result (λ _. (ended ≡ false) × (replica < replicas)) }
{
    if ended {
        return Err(Wrong::Form);
    }
    if replica >= replicas {
        return Err(Wrong::Form);
    }
    Ok(())
}

/// And for an object only at a path.
fn may_call(ended: bool, replicas: u32, replica: u32, path: &str) -> Result<(), Wrong>
    ensures { IfOk result (λ _. (ended ≡ false) × (replica < replicas) × IsPath path.now) }
{
    may(ended, replicas, replica)?;
    if path_ok(path) {
        return Ok(());
    }
    Err(Wrong::Form)
}

/// And for what stands above a path, or above none.
fn may_above(ended: bool, replicas: u32, replica: u32, path: &str) -> Result<(), Wrong>
    ensures { IfOk result (λ _. (ended ≡ false) × (replica < replicas)
        × ((path.now ≡ []) ⊎ IsPath path.now)) }
{
    if path.is_empty() {
        return may(ended, replicas, replica);
    }
    may_call(ended, replicas, replica, path)
}

/// And brings it a configuration only as long as some are left.
fn may_bring(ended: bool, replicas: u32, replica: u32, left: u32) -> Result<(), Wrong>
    ensures { IfOk result (λ _. (ended ≡ false) × (replica < replicas) × (0 < left)) }
{
    may(ended, replicas, replica)?;
    if left == 0 {
        return Err(Wrong::Form);
    }
    Ok(())
}

/// Whether the seat may add no more lines.
fn is_spent<T>(done: &Done<T>) -> bool
    ensures { result ≡ is_spent done.now }
{
    match done {
        Err(CallNo::Spent) => true,
        _ => false,
    }
}

impl<A: Acts, L: Kms> Desk<A, L> {
    /// A caller of a core of so many replicas, which may bring so many configurations still.
    pub fn new(acts: A, bench: Bench<L, MemDice>, replicas: u32, left: u32) -> Desk<A, L>
        requires caller { IsCallerOf (A.caller acts) replicas left false }
        requires bench { IsBench (names_of L.link bench.links) bench.pages }
    {
        Desk {
            acts,
            bench,
            replicas,
            left,
            ended: false,
        }
    }

    /// Gives the caller and the bench up.
    pub fn into_parts(self) -> (A, Bench<L, MemDice>) {
        let Desk {
            acts,
            bench,
            replicas: _,
            left: _,
            ended: _,
        } = self;
        (acts, bench)
    }

    /// Puts a bench in the place of its own.
    pub fn change(&mut self, bench: Bench<L, MemDice>) -> Bench<L, MemDice>
        requires { IsBench (names_of L.link bench.links) bench.pages }
    {
        mem::replace(&mut self.bench, bench)
    }

    /// The object at the path. Where the seat is spent, or there is no such replica or path, no
    /// call is made, as with those below.
    pub fn read(&mut self, alloc: Global, replica: u32, path: &str) -> Result<Done<Read>, Wrong> {
        may_call(self.ended, self.replicas, replica, path)?;
        let done = read(alloc, &mut self.acts, replica, &mut self.bench, path);
        self.ended = is_spent(&done);
        Ok(done)
    }

    /// Its revision, once the data were sealed and put.
    pub fn write(
        &mut self,
        alloc: Global,
        replica: u32,
        resource: &str,
        path: &str,
        plain: &[u8],
    ) -> Result<Done<u64>, Wrong> {
        may_call(self.ended, self.replicas, replica, path)?;
        if !resource_ok(resource) {
            return Err(Wrong::Form);
        }
        let plain = Bytes::copy(alloc, plain)?;
        let done = write(
            alloc,
            &mut self.acts,
            replica,
            &mut self.bench,
            resource,
            path,
            plain,
        );
        self.ended = is_spent(&done);
        Ok(done)
    }

    /// The revision of the delete, or that there was nothing.
    pub fn delete(&mut self, alloc: Global, path: &str) -> Result<Done<Option<u64>>, Wrong> {
        if self.ended {
            return Err(Wrong::Form);
        }
        if !path_ok(path) {
            return Err(Wrong::Form);
        }
        let done = delete(alloc, &mut self.acts, path);
        Ok(done)
    }

    /// The generation that the replica had, if it was in.
    pub fn leave(&mut self, replica: u32) -> Result<Done<Option<u32>>, Wrong> {
        may(self.ended, self.replicas, replica)?;
        let done = leave(&mut self.acts, replica);
        Ok(done)
    }

    /// What became of a new configuration, which may name no plugin but `p`.
    pub fn reload(
        &mut self,
        alloc: Global,
        replica: u32,
        settings: &Shared<Settings>,
    ) -> Result<Done<Loaded>, Wrong> {
        may_bring(self.ended, self.replicas, replica, self.left)?;
        let settings = share_allowed(alloc, settings)?;
        self.left -= 1;
        let done = reload(alloc, &mut self.acts, &mut self.bench, replica, settings);
        Ok(done)
    }

    /// What became of the configuration of a replica that was out.
    pub fn join(
        &mut self,
        alloc: Global,
        replica: u32,
        settings: &Shared<Settings>,
    ) -> Result<Done<Joining>, Wrong> {
        may_bring(self.ended, self.replicas, replica, self.left)?;
        let settings = share_allowed(alloc, settings)?;
        self.left -= 1;
        let done = join(alloc, &mut self.acts, &mut self.bench, replica, settings);
        Ok(done)
    }

    /// Whether a key of a plugin changed, and what became of the configuration then.
    pub fn refresh(&mut self, alloc: Global, replica: u32) -> Result<Done<Loaded>, Wrong> {
        may_bring(self.ended, self.replicas, replica, self.left)?;
        self.left -= 1;
        let done = refresh(alloc, &mut self.acts, replica, &mut self.bench);
        self.ended = is_spent(&done);
        Ok(done)
    }

    /// What became of the first object behind this path.
    pub fn step(&mut self, alloc: Global, replica: u32, after: &str) -> Result<Done<Step>, Wrong> {
        may_above(self.ended, self.replicas, replica, after)?;
        let done = rewrite_next(alloc, &mut self.acts, replica, &mut self.bench, after);
        self.ended = is_spent(&done);
        Ok(done)
    }

    /// All steps; the report also where they were cut short, and then why.
    pub fn drive(
        &mut self,
        alloc: Global,
        replica: u32,
        after: &str,
    ) -> Result<(Report, Done<()>), Wrong> {
        may_above(self.ended, self.replicas, replica, after)?;
        let driven = drive(alloc, &mut self.acts, replica, &mut self.bench, after);
        let told = parted(driven);
        self.ended = is_spent(&told.1);
        Ok(told)
    }
}

impl<A: Acts, B: Acts, L: Spelled> Desk<Between<A, B, L>, L> {
    /// Plans a call of the rival, before the event of this number.
    pub fn plan(&mut self, number: u32, call: Call) {
        self.acts.plan(number, call);
    }

    /// Prints what the rival's call answered, if it was made.
    pub fn tell(&mut self, page: &mut Page) {
        self.acts.tell(page);
    }
}

/// The report, and why the drive was cut short.
fn parted(driven: Result<Report, (Report, CallNo)>) -> (Report, Done<()>)
    ensures { result ≡ parts_of driven }
{
    match driven {
        Ok(report) => (report, Ok(())),
        Err((report, why)) => (report, Err(why)),
    }
}
