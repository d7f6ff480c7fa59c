//! Replies: the results of calls, told.
ghost use Rattle.std.specs.Prelude.{◌≡◌};
ghost use Rattle.kr_workers.specs.Replies.{told_of_delete, told_of_drive, told_of_join, told_of_leave, told_of_read, told_of_refresh, told_of_refusal, told_of_reload, told_of_write};

use kr_base::Spent;
use kr_fleet::{Joining, Loaded, Read};
use kr_history::CallNo;
use kr_rewrite::Report;
use kr_script::Told;

/// Why a call was cut short. The random source is that of this seat.
pub(crate) fn told_of_refusal(seat: u32, why: CallNo) -> Result<Told, Spent>
    ensures { result ≡ told_of_refusal seat why }
{
    match why {
        CallNo::Value(why) => Ok(Told::Value { why }),
        CallNo::PluginFailed { name } => Ok(Told::FaultPlugin { name }),
        CallNo::DiceFailed => Ok(Told::FaultDice { seat }),
        CallNo::StoreFailed => Ok(Told::FaultStore),
        CallNo::StoreFull { needed: _ } => Ok(Told::Full),
        CallNo::Unhealthy { name, field, text } => Ok(Told::Unhealthy { name, field, text }),
        CallNo::Gone => Ok(Told::Gone),
        CallNo::Spent => Err(Spent),
        CallNo::NoMemory => Ok(Told::Memory),
    }
}

pub(crate) fn told_of_write(seat: u32, done: Result<u64, CallNo>) -> Result<Told, Spent>
    ensures { result ≡ told_of_write seat done }
{
    match done {
        Ok(revision) => Ok(Told::Put { revision }),
        Err(why) => told_of_refusal(seat, why),
    }
}

pub(crate) fn told_of_read(seat: u32, done: Result<Read, CallNo>) -> Result<Told, Spent>
    ensures { result ≡ told_of_read seat done }
{
    match done {
        Ok(Read::Absent) => Ok(Told::Absent),
        Ok(
            Read::Value {
                revision,
                plain,
                stale: _,
            },
        ) => Ok(Told::Got { revision, plain }),
        Err(why) => told_of_refusal(seat, why),
    }
}

pub(crate) fn told_of_delete(seat: u32, done: Result<Option<u64>, CallNo>) -> Result<Told, Spent>
    ensures { result ≡ told_of_delete seat done }
{
    match done {
        Ok(None) => Ok(Told::Absent),
        Ok(Some(revision)) => Ok(Told::Deleted { revision }),
        Err(why) => told_of_refusal(seat, why),
    }
}

pub(crate) fn told_of_leave(seat: u32, done: Result<Option<u32>, CallNo>) -> Result<Told, Spent>
    ensures { result ≡ told_of_leave seat done }
{
    match done {
        Ok(None) => Ok(Told::Gone),
        Ok(Some(generation)) => Ok(Told::Left { generation }),
        Err(why) => told_of_refusal(seat, why),
    }
}

pub(crate) fn told_of_join(seat: u32, done: Result<Joining, CallNo>) -> Result<Told, Spent>
    ensures { result ≡ told_of_join seat done }
{
    match done {
        Ok(Joining::Generation(generation)) => Ok(Told::Joined { generation }),
        Ok(Joining::Refused(verdict)) => Ok(Told::Refused { verdict }),
        Ok(Joining::Present(generation)) => Ok(Told::Present { generation }),
        Err(why) => told_of_refusal(seat, why),
    }
}

pub(crate) fn told_of_reload(seat: u32, done: Result<Loaded, CallNo>) -> Result<Told, Spent>
    ensures { result ≡ told_of_reload seat done }
{
    match done {
        Ok(Loaded::Generation(generation)) => Ok(Told::Reloaded { generation }),
        Ok(Loaded::Refused(verdict)) => Ok(Told::Refused { verdict }),
        Ok(Loaded::Moved(generation)) => Ok(Told::Moved { generation }),
        Ok(Loaded::Unchanged(_)) => Ok(Told::Unchanged),
        Err(why) => told_of_refusal(seat, why),
    }
}

pub(crate) fn told_of_refresh(seat: u32, done: Result<Loaded, CallNo>) -> Result<Told, Spent>
    ensures { result ≡ told_of_refresh seat done }
{
    match done {
        Ok(Loaded::Generation(generation)) => Ok(Told::Refreshed { generation }),
        Ok(Loaded::Refused(verdict)) => Ok(Told::Refused { verdict }),
        Ok(Loaded::Moved(generation)) => Ok(Told::Moved { generation }),
        Ok(Loaded::Unchanged(_)) => Ok(Told::Unchanged),
        Err(why) => told_of_refusal(seat, why),
    }
}

pub(crate) fn told_of_drive(
    seat: u32,
    done: Result<Report, (Report, CallNo)>,
) -> Result<Told, Spent>
    ensures { result ≡ told_of_drive seat done }
{
    match done {
        Ok(report) => Ok(Told::Rewritten {
            rewritten: report.rewritten,
            fresh: report.fresh,
            changed: report.changed,
            left: report.left,
        }),
        Err((_report, why)) => told_of_refusal(seat, why),
    }
}
