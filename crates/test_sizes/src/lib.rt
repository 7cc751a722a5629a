//! Each collection of one thread at random sizes up to 200,000 and where something grows, with
//! allocations that fail at random, against a plain list. A failed test prints its seed.
#![tactic(auto)]

#[cfg(test)]
mod bulk;
#[cfg(test)]
mod grows;
#[cfg(test)]
mod kinds;
#[cfg(test)]
mod room;
#[cfg(test)]
mod script;
#[cfg(test)]
mod tests;
