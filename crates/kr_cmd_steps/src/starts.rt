//! Why a core doesn't start, as a command says it.
ghost use Rattle.std.specs.Prelude.{◌≡◌};
ghost use Rattle.kr_cmd_steps.specs.inner.Starts.{start_stop};

use kr_cmd_messages::{Refusal, Stop};
use kr_opening::StartNo;

/// Why a core didn't start, as a command says it.
pub fn start_stop(why: StartNo) -> Stop
    ensures { result ≡ start_stop why }
{
    match why {
        StartNo::Stray { path } => Stop::Refused(Refusal::Stray(path)),
        StartNo::OtherSecret { path } => Stop::Refused(Refusal::OtherSecret(path)),
        StartNo::Unfit { replica, verdict } => Stop::Refused(Refusal::Unfit(replica, verdict)),
        StartNo::NoMemory => Stop::NoMemory,
    }
}
