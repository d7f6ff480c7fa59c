//! A fleet: a core that several callers act on at the same time, and the calls of a replica. The
//! core stands under a turn lock, and each of the lock's seats is a caller of it: an event is one
//! turn, and the history that the turns make is the core's journal. A call makes some events of its
//! caller's seat, one behind another, and answers by what the core and the bench answered to them;
//! the calls are proved once for every caller.
#![tactic(auto)]

mod acting;
mod deleting;
mod exchange_laws;
mod fleet;
mod leaving;
mod loading;
mod outcome;
mod reading;
mod refreshing;
mod shared_core;
mod writing;

pub use acting::At;
pub use deleting::delete;
pub use exchange_laws::{loads_agree, reads_agree};
pub use fleet::{Fleet, Seat};
pub use kr_history::Joining;
pub use leaving::leave;
pub use loading::{join, reload};
pub use outcome::{Loaded, Read};
pub use reading::read;
pub use refreshing::refresh;
pub use shared_core::SharedCore;
pub use writing::write;
