//! The animals of a meadow and their friends.
ghost use Rattle.std.specs.Prelude.{◌≡◌, ◌++◌, ◌∷◌, [], IfOk, IfSome, OnErr};
ghost use Rattle.example_arena.specs.declared.meadow.Animal.{out-Animal};

use bumpalo::Bump;
use elsa::{FrozenVec, Own};
use std::alloc::{AllocError, Global};

/// An animal, which refers to its friends.
#[derive(Clone, Copy)]
pub struct Animal<'a> {
    /// Its name.
    pub name: &'a str,
    /// Its friends, in the order of its line. Each was added before it.
    pub friends: &'a [&'a Animal<'a>],
}

/// Animals. Their names and lists of friends are in the same arena.
#[derive(Drop)]
pub struct Meadow<'a> {
    /// The animals, in the order in which they were added.
    pub animals: FrozenVec<'a, Own<Animal<'a>>>,
    names: FrozenVec<'a, String>,
    circles: FrozenVec<'a, Vec<&'a Animal<'a>>>,
}

impl<'a> Meadow<'a> {
    /// Makes a meadow without animals. It allocates nothing.
    pub fn new(alloc: Global, arena: &'a Bump) -> Self
        ensures { result.animals ≡ [] }
    {
        Meadow {
            animals: FrozenVec::new(alloc, arena),
            names: FrozenVec::new(alloc, arena),
            circles: FrozenVec::new(alloc, arena),
        }
    }

    /// Returns the first animal of this name, or `None` if there is none.
    ///
    /// # Cost
    /// `O(n)`.
    pub fn find(&self, name: &str) -> Option<&'a Animal<'a>>
        ensures { IfSome result (λ animal. (out-Animal animal.now).name.now ≡ name.now) }
    {
        self.animals.iter().find(|animal| animal.name == name)
    }

    /// Adds an animal whose name and friends are in the arena.
    ///
    /// # Errors
    /// Fails if an allocation fails. The animals are then unchanged.
    fn settle(
        &mut self,
        name: &'a str,
        friends: &'a [&'a Animal<'a>],
    ) -> Result<&'a Animal<'a>, AllocError>
        ensures name { IfOk result (λ animal. (out-Animal animal.now).name.now ≡ name.entry.now) }
        ensures friends { IfOk result (λ animal.
            (out-Animal animal.now).friends.now ≡ friends.entry.now) }
        ensures last { IfOk result (λ animal. self.new.animals ≡ self.old.animals ++ animal ∷ []) }
        ensures refused { OnErr result (self.new.animals ≡ self.old.animals) }
    {
        self.animals.push_get(Own(Animal { name, friends }))
    }

    /// Adds an animal and returns its borrow, which outlives the meadow.
    ///
    /// # Errors
    /// Fails if an allocation fails. The animals are then unchanged.
    pub fn add(
        &mut self,
        alloc: Global,
        name: &str,
        friends: Vec<&'a Animal<'a>>,
    ) -> Result<&'a Animal<'a>, AllocError>
        ensures name { IfOk result (λ animal. (out-Animal animal.now).name.now ≡ name.now) }
        ensures friends { IfOk result (λ animal.
            (out-Animal animal.now).friends.now ≡ friends.entry.items) }
        ensures last { IfOk result (λ animal. self.new.animals ≡ self.old.animals ++ animal ∷ []) }
        ensures refused { OnErr result (self.new.animals ≡ self.old.animals) }
    {
        let name = self.names.push_get(String::from_str(alloc, name)?)?;
        let index = self.circles.len();
        self.circles.push(friends)?;
        let friends = self.circles.get_unchecked(index);
        self.settle(name, friends)
    }
}
