//! The calls of the collections in `cell` by the script of `test_model`: each part of each result,
//! at random sizes up to 200,000 and at each length where something grows, with allocations that
//! fail, and with values that count their drops. The script itself is tested by planted faults.
#![tactic(auto)]

#[cfg(test)]
mod counted;
#[cfg(test)]
mod fault_tests;
#[cfg(test)]
mod lists;
#[cfg(test)]
mod maps;
#[cfg(test)]
mod replies;
#[cfg(test)]
mod script_tests;
#[cfg(test)]
mod sets;
