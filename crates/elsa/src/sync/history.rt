//! A recorder: any sequential object under a lock, with the history of all threads' calls.
pub use elsa_history::{
    CloseFault, Core, History, MapCommand, MapReply, RecordPass, Recorder, VecCommand, VecReply,
    laws,
};
