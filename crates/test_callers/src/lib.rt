//! Callers that were written from docs/guide alone: code for any type of map, the cache, the runs,
//! a memo table under a lock with a rule of its entries, lists and maps that grow through `&self`,
//! lists of rising and of even numbers and a table of costs that threads share, and the symbols of
//! a lexer.
#![tactic(auto)]

#[cfg(test)]
mod cached;
#[cfg(test)]
mod caller_tests;
#[cfg(test)]
mod columns;
pub mod costs;
#[cfg(test)]
mod even;
pub mod events;
#[cfg(test)]
mod filled;
#[cfg(test)]
mod first_value;
#[cfg(test)]
mod graph;
#[cfg(test)]
mod inserted;
#[cfg(test)]
mod kept;
#[cfg(test)]
mod labels;
pub mod lexer;
mod locked_memo;
#[cfg(test)]
mod names;
pub mod of_lists;
pub mod of_maps;
#[cfg(test)]
mod parts;
#[cfg(test)]
mod replayed;
#[cfg(test)]
mod rising;
#[cfg(test)]
mod rules;
pub mod searches;
#[cfg(test)]
mod sets;
mod squares;
