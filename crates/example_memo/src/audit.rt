//! Reading a closed history.
ghost use Rattle.std.specs.Prelude.{◌≡◌, length};

use crate::worker::Tellings;
use elsa::sync::history::{History, RecordPass};
use elsa::sync::map::MapState;

/// Closes the recorder and returns the history, or `None` if the receipts in the `RecordPass`es
/// aren't the history.
pub fn closed(
    recorder: Tellings,
    passes: Vec<RecordPass<MapState<u64, u64>>>,
) -> Option<History<MapState<u64, u64>>> {
    recorder.close(passes).ok()
}

/// Returns the number of calls of a worker.
pub fn told_by(history: &History<MapState<u64, u64>>, worker: u64) -> usize {
    let mut calls = 0usize;
    for (number, _, _) in history.entries() {
        if *number == worker {
            calls = calls.saturating_add(1);
        }
    }
    calls
}
