//! Commands that are run on a map of any type, and on a vector.
ghost use Rattle.std.specs.Prelude.{◌≡◌, OnErr};

use elsa::run::{MapCommand, MapReply, VecCommand, VecReply, run_map, run_vec};
use elsa::{FrozenVec, MapForm, StableDeref};
use std::alloc::AllocError;

/// Runs commands on a map of any type, and returns the replies.
///
/// # Errors
/// Fails if an allocation for the commands or replies fails. The content is then unchanged.
pub fn replies_of_map<R, M: MapForm<R>>(
    content: &mut M,
    commands: Vec<MapCommand<M::Key, M::Value, M::Base>>,
) -> Result<Vec<MapReply<<M::Value as StableDeref<R>>::Borrow>>, AllocError>
    ensures { OnErr result (M.entries content.new ≡ M.entries content.old) }
{
    run_map(content, commands)
}

/// Runs commands on a list of texts, and returns the replies.
///
/// # Errors
/// Fails if an allocation for the commands or replies fails. The texts are then unchanged.
pub fn replies_of_texts<'a>(
    texts: &mut FrozenVec<'a, &'a str>,
    commands: Vec<VecCommand<&'a str, Vec<&'a str>>>,
) -> Result<Vec<VecReply<&'a str>>, AllocError>
    ensures { OnErr result (texts.new ≡ texts.old) }
{
    run_vec(texts, commands)
}
