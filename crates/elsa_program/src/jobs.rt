//! The jobs of the program.

/// A job of the program, which the words of its command line select.
#[derive(Clone, Copy, Debug, PartialEq, Eq)]
pub enum Job {
    /// `intern`: write a reply to each line of the input.
    Intern,
    /// `shared W N`: push `N` numbers from each of `W` workers.
    Shared(usize, usize),
}
