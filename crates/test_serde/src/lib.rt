//! Collections through `serde_json`: the text of each, what is read back, and what a broken text or
//! an allocation failure leaves.
#![tactic(auto)]

#[cfg(test)]
mod broken_files;
#[cfg(test)]
mod broken_texts;
#[cfg(test)]
mod refused_memory;
#[cfg(test)]
mod refused_readers;
#[cfg(test)]
mod round_trips;
