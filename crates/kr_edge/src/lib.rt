//! The outside as the system has it: streams, files by their names, random devices and child
//! programs, as the sources, sinks, tapes, links and the world that a command asks for.
#![tactic(auto)]

pub use answer_room::AnswerRoom;
pub use child_link::{ChildLink, LineLink};
pub use exchange::Exchange;
pub use opening::{open_store, start};
pub use placed::{DiskFile, PlacedFile, PlacedNo};
pub use plugin_lines::PluginLines;
pub use real_world::{DeviceDice, RealWorld};
pub use standard::hold_standard_streams;
pub use streams::{StdSink, StdSource};
pub use system::{ChildStream, ChildStreams, Found, OpenNo, ProcessStartNo, System, SystemCall};
pub use system_files::SystemFiles;
pub use tape::FileTape;

mod answer_room;
mod child_link;
mod exchange;
mod opening;
mod placed;
mod plugin_lines;
mod real_world;
mod standard;
mod streams;
mod system;
mod system_error;
mod system_files;
mod tape;
