//! Replays of commands, each with one contract for every list of commands.
pub use crate::run_index::{IndexCommand, IndexReply, run_index};
pub use crate::run_map::{MapCommand, MapReply, run_map};
pub use crate::run_set::{SetCommand, SetReply, run_set};
pub use crate::run_vec::{VecCommand, VecReply, run_vec};
