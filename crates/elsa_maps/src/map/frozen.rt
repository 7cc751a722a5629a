//! The map over any table.
ghost use Rattle.std.specs.Prelude.{◌≡◌, ◌↔◌, ◌++◌, ◌∷◌, [], List, MatchResult, Ok, Err, None, Some, false, true, IfErr, IfOk, IsSome, IsSomeAnd, IsTrue, MatchOption, OnErr, is_some, length};
ghost use Rattle.std.specs.Borrow.{sem};
ghost use Rattle.std.specs.Iterator.{Drains, IsFinite, Yields};
ghost use Rattle.std.specs.List.{IsDistinct};
ghost use Rattle.std.specs.Map.{keys_of, lookup, lookup_entry};
ghost use Rattle.std.specs.Option.{ForSome};
ghost use Rattle.elsa_maps.specs.FirstWins.{AddsNew, AppendsFirsts, HoldsFirst, IsRefused, value_at};
ghost use Rattle.elsa_maps.specs.InsertFault.{IfCause};
ghost use Rattle.elsa_tables.specs.Tables.{was_present};
ghost use Rattle.elsa_maps.specs.Lent.{lends_table};

use elsa_tables::{Inserted, IntoPairs, Refusal, Seeks, Table, insert_with};
use elsa_vec::stable::StableDeref;
use std::alloc::{AllocError, Allocator, Global};
use std::error::Error;
use std::fmt::{self, Debug, Display, Formatter, Write};
use std::marker::{Model, PhantomData};
use std::ops::Index;

/// The error of an insertion by a closure. The map is unchanged.
#[derive(Debug, Drop)]
pub enum InsertFault<E> {
    /// An allocation failed.
    Memory,
    /// The closure's error.
    Value(E),
}

impl<E: Display> Display for InsertFault<E> {
    fn fmt<W: Write>(&self, f: &mut Formatter<W>) -> fmt::Result {
        match self {
            InsertFault::Memory => f.write_str("out of memory: the entry was not inserted"),
            InsertFault::Value(error) => write!(f, "the value could not be made: {error}"),
        }
    }
}

impl<E: Error> Error for InsertFault<E> {}

/// A map in which the first value of a key stays, over any table `T`.
///
/// Each value is stored in the arena to which an `R` refers, and returned as a borrow that outlives
/// later insertions and the map itself. `A` is the allocator of the table.
/// [`FrozenMap`](super::FrozenMap), [`FrozenBTreeMap`](super::FrozenBTreeMap) and
/// [`FrozenIndexMap`](crate::index_map::FrozenIndexMap) are its names over `HashMap`, `BTreeMap`
/// and `IndexMap`.
pub struct Frozen<R: Copy, K, V, T, A: Allocator + Copy = Global>
where
    V: StableDeref<R>,
    T: Table<K, V::Borrow>,
{
    pub(crate) alloc: A,
    // Where values are stored, and the borrow of each value by its key.
    pub(crate) arena: R,
    pub(crate) table: T,
    of: PhantomData<(K, V)>,
}

impl<R: Copy, K, V, T, A: Allocator + Copy> Model for Frozen<R, K, V, T, A>
where
    V: StableDeref<R>,
    T: Table<K, V::Borrow>,
{
    ghost use Rattle.std.specs.Prelude.{List};

    ghost Value = { List (K × V.Borrow) };

    ghost view = { λ m. T.entries m.table };
}

impl<R: Copy, K, V, T, A: Allocator + Copy> Drop for Frozen<R, K, V, T, A>
where
    V: StableDeref<R>,
    T: Table<K, V::Borrow> + Drop,
{
    fn drop(self) {
        let Frozen {
            alloc: _alloc,
            arena: _arena,
            table: _table,
            of: _of,
        } = self;
    }
}

impl<R: Copy, K, V, T, A: Allocator + Copy> Frozen<R, K, V, T, A>
where
    V: StableDeref<R>,
    T: Table<K, V::Borrow>,
{
    /// Makes a map with the entries of `table`. It allocates nothing; `clone` and `into_tuple_vec`
    /// allocate with `alloc`.
    pub fn over(alloc: A, arena: R, table: T) -> Self
        ensures { result ≡ T.entries table }
    {
        Frozen {
            alloc,
            arena,
            table,
            of: PhantomData,
        }
    }

    /// Returns the number of entries.
    ///
    /// # Cost
    /// `O(1)`.
    pub fn len(&self) -> usize
        ensures count { result ≡ length self.now }

        // What holds of every map: no two of its keys are equal, and they are in the table's order.
        ensures distinct { IsDistinct T.same (keys_of self.now) }
        ensures in_order { T.in_order (keys_of self.now) }
    {
        self.table.len()
    }

    /// Returns whether the map has no entry.
    ///
    /// # Cost
    /// `O(1)`.
    pub fn is_empty(&self) -> bool
        ensures { IsTrue result ↔ (length self.now ≡ 0) }
    {
        self.len() == 0
    }

    /// Returns the value of the key that `query` finds, or `None` if the map has no such key.
    ///
    /// A reference to a key is a query. So is a `&str` if the keys are texts, and a slice if they
    /// are slices: [`Seeks`] lists the queries.
    ///
    /// # Cost
    /// One search, and one hash if the table hashes.
    pub fn get<Q: Seeks<T, K, V::Borrow>>(&self, query: Q) -> Option<V::Borrow>
        ensures { result ≡ lookup (Q.finds query) self.now }
    {
        let (_, value) = query.seek(&self.table)?;
        Some(*value)
    }

    /// Returns the stored key that `query` finds and its value, or `None` if the map has no such
    /// key.
    ///
    /// Two equal keys may differ, and the stored key is the one that was inserted.
    ///
    /// # Cost
    /// That of [`get`](Frozen::get).
    pub fn get_key_value<Q: Seeks<T, K, V::Borrow>>(&self, query: Q) -> Option<(K, V::Borrow)>
    where
        K: Copy,
        ensures { result ≡ lookup_entry (Q.finds query) self.now }
    {
        match query.seek(&self.table) {
            Some((found, value)) => Some((*found, *value)),
            None => None,
        }
    }

    /// Calls `f` with the value of the key that `query` finds, and returns the result. Returns
    /// `None`, without a call, if the map has no such key.
    ///
    /// `f` may look up in the same map; an insertion there doesn't compile.
    ///
    /// # Cost
    /// That of [`get`](Frozen::get).
    pub fn map_get<X, Q, F>(&self, query: Q, f: F) -> Option<X>
    where
        Q: Seeks<T, K, V::Borrow>,
        F: FnOnce(V::Borrow) -> X,
        requires callable { ForSome (lookup (Q.finds query) self.now) (F.pre f) }
        ensures { MatchOption (lookup (Q.finds query) self.now) (result ≡ None) (λ value.
            IsSomeAnd result (F.post f value)) }
    {
        match query.seek(&self.table) {
            Some((_, value)) => Some(f(*value)),
            None => None,
        }
    }

    /// Returns whether the map has a key that `query` finds.
    ///
    /// # Cost
    /// That of [`get`](Frozen::get).
    pub fn contains_key<Q: Seeks<T, K, V::Borrow>>(&self, query: Q) -> bool
        ensures { result ≡ is_some (lookup (Q.finds query) self.now) }
    {
        query.seek(&self.table).is_some()
    }

    /// Returns the inner map, from each key to the borrow of its value. It allocates nothing.
    pub fn into_map(self) -> T
        ensures { T.entries result ≡ self }
    {
        let Frozen {
            alloc: _,
            arena: _,
            table: inner_map,
            of: _,
        } = self;
        inner_map
    }

    // The allocator of the table, and the inner map.
    pub(crate) fn into_parts(self) -> (A, T)
        ensures { T.entries result.1 ≡ self }
    {
        let Frozen {
            alloc,
            arena: _,
            table: inner_map,
            of: _,
        } = self;
        (alloc, inner_map)
    }

    /// Returns the inner map by reference, for each call of it that only reads. Its values are the
    /// borrows.
    ///
    /// # Cost
    /// `O(1)`. It allocates nothing.
    pub fn inner(&self) -> &T
        ensures content { T.entries result.now ≡ self.now }
    {
        &self.table
    }

    /// Returns the inner map, borrowed for writing: the caller may change or remove any entry, and
    /// the map then has the entries that are left.
    pub fn as_mut(&mut self) -> &mut T
        ensures* writes_back { sem 𝓛 (lends_table R.row K.row V.row T.row A.row V.Borrow.row
            V.HasTarget T.Table A.Allocator self.entry result) }
        ensures content { T.entries result.now ≡ self.old }
    {
        &mut self.table
    }

    // ---- inserting

    /// Inserts the value unless the map has an equal key. Returns the value that the key then has,
    /// and whether the key was new.
    ///
    /// If the map has the key, the given key and value are dropped.
    ///
    /// # Errors
    /// Fails if the key is new and an allocation fails. The map is then unchanged, and the key and
    /// the value are dropped.
    ///
    /// # Allocates
    /// If the key is new: the growth of the table, and then the value in the arena.
    ///
    /// # Cost
    /// One search, and one hash if the table hashes.
    pub fn insert_new(&mut self, key: K, value: V) -> Result<(V::Borrow, bool), AllocError>
        ensures present { (x : V.Borrow) → value_at T.same self.old key ≡ Some x →
            (result ≡ Ok (x, false)) × (self.new ≡ self.old) }
        ensures value_after { IfOk result (λ r. value_at T.same self.new key ≡ Some r.0) }
        ensures added { value_at T.same self.old key ≡ None → IfOk result (λ r. (r.1 ≡ true)
            × AddsNew T.same V.target V.shown self.old key value r.0 self.new) }
        ensures new_entry { value_at T.same self.old key ≡ None →
            IfOk result (λ r. T.extends self.old key r.0 self.new) }
        ensures refused { OnErr result (IsRefused T.same self.old key self.new) }
    {
        let arena = self.arena;
        let store = |_key: &K| -> Result<V::Borrow, V>
            ensures { IfOk result (λ b. V.shown b ≡ V.target value) }
        { value.place(arena) };
        let Ok(done) = insert_with(&mut self.table, key, store) else {
            return Err(AllocError);
        };
        Ok((done.value, done.is_new))
    }

    /// Inserts the value unless the map has an equal key, and returns the value that the key then
    /// has.
    ///
    /// # Errors
    /// Fails as [`insert_new`](Frozen::insert_new) does, with the same allocations and the same
    /// cost.
    pub fn insert(&mut self, key: K, value: V) -> Result<V::Borrow, AllocError>
        ensures present { (x : V.Borrow) → value_at T.same self.old key ≡ Some x →
            (result ≡ Ok x) × (self.new ≡ self.old) }
        ensures value_after { IfOk result (λ b. value_at T.same self.new key ≡ Some b) }
        ensures added { value_at T.same self.old key ≡ None →
            IfOk result (λ b. AddsNew T.same V.target V.shown self.old key value b self.new) }
        ensures new_entry { value_at T.same self.old key ≡ None →
            IfOk result (λ b. T.extends self.old key b self.new) }
        ensures refused { OnErr result (IsRefused T.same self.old key self.new) }
    {
        Ok(self.insert_new(key, value)?.0)
    }

    // Inserts the pairs in their order: what `extend` is after it has reserved capacity.
    pub(crate) fn insert_all<I: Iterator<Item = (K, V)>>(
        &mut self,
        pairs: I,
    ) -> Result<(), AllocError>
        requires ends { I.can_next pairs × IsFinite (I.remaining pairs) }

        // The pairs before the one that failed are inserted. If each new entry is the last one,
        // they are appended.
        ensures extended { (xs : List (K × V))
            × HoldsFirst T.same V.target V.shown self.old xs self.new
            × (((es : List (K × V.Borrow)) (k : K) (b : V.Borrow) (fs : List (K × V.Borrow)) →
            T.extends es k b fs → fs ≡ es ++ (k, b) ∷ []) →
            AppendsFirsts T.same V.target V.shown self.old xs self.new)
            × MatchResult result (λ _. Drains I.next_gives pairs xs)
            (λ _. (t : I) × Yields I.next_gives pairs xs t) }
    {
        for pair in pairs {
            let (key, value) = pair;
            self.insert(key, value)?;
        }
        Ok(())
    }

    /// Inserts the result of `make` unless the map has an equal key, and returns the value that the
    /// key then has.
    ///
    /// `make` is called only if the key is new, after the table has grown.
    ///
    /// # Errors
    /// Fails as [`insert_new`](Frozen::insert_new) does, with the same allocations and the same
    /// cost.
    pub fn insert_with<F: FnOnce() -> V + Drop>(
        &mut self,
        key: K,
        make: F,
    ) -> Result<V::Borrow, AllocError>
        requires callable { value_at T.same self.old key ≡ None → F.pre make }

        // A present key keeps its value.
        ensures present { (x : V.Borrow) → value_at T.same self.old key ≡ Some x →
            (result ≡ Ok x) × (self.new ≡ self.old) }
        ensures value_after { IfOk result (λ b. value_at T.same self.new key ≡ Some b) }

        // A new key gets the value that was made.
        ensures added { value_at T.same self.old key ≡ None → IfOk result (λ b.
            (v : V) × F.post make v × AddsNew T.same V.target V.shown self.old key v b self.new) }
        ensures new_entry { value_at T.same self.old key ≡ None →
            IfOk result (λ b. T.extends self.old key b self.new) }
        ensures refused { OnErr result (IsRefused T.same self.old key self.new) }
    {
        let to = self.arena;
        let store = |_key: &K| -> Result<V::Borrow, V>
            requires { F.pre make }
            ensures { IfOk result (λ b. (v : V) × F.post make v × (V.shown b ≡ V.target v)) }
        {
            let value = make();
            value.place(to)
        };
        let Ok(done) = insert_with(&mut self.table, key, store) else {
            return Err(AllocError);
        };
        Ok(done.value)
    }

    /// Inserts the result of `make` unless the map has an equal key, and returns the value that the
    /// key then has: [`insert_with`](Frozen::insert_with) for a `make` that may fail.
    ///
    /// # Errors
    /// `InsertFault::Value` has the error of `make`, and `InsertFault::Memory` is an allocation
    /// failure. The key was then new, and the map is unchanged.
    pub fn try_insert_with<E: Drop, F: FnOnce() -> Result<V, E> + Drop>(
        &mut self,
        key: K,
        make: F,
    ) -> Result<V::Borrow, InsertFault<E>>
        requires callable { value_at T.same self.old key ≡ None → F.pre make }

        // A present key keeps its value.
        ensures present { (x : V.Borrow) → value_at T.same self.old key ≡ Some x →
            (result ≡ Ok x) × (self.new ≡ self.old) }
        ensures value_after { IfOk result (λ b. value_at T.same self.new key ≡ Some b) }

        // A new key gets the value that was made. A failed call has its cause.
        ensures added { value_at T.same self.old key ≡ None → IfOk result (λ b.
            (v : V) × F.post make (Ok v)
            × AddsNew T.same V.target V.shown self.old key v b self.new) }
        ensures new_entry { value_at T.same self.old key ≡ None →
            IfOk result (λ b. T.extends self.old key b self.new) }
        ensures refused { OnErr result (IsRefused T.same self.old key self.new) }
        ensures cause { IfErr result (λ e. IfCause e (λ c. F.post make (Err c))) }
    {
        let to = self.arena;
        let store = |_key: &K| -> Result<V::Borrow, InsertFault<E>>
            requires { F.pre make }
            ensures made { IfOk result (λ b.
                (v : V) × F.post make (Ok v) × (V.shown b ≡ V.target v)) }
            ensures cause { IfErr result (λ e. IfCause e (λ c. F.post make (Err c))) }
        {
            let value = match make() {
                Ok(value) => value,
                Err(e) => return Err(InsertFault::Value(e)),
            };
            let Ok(borrow) = value.place(to) else {
                return Err(InsertFault::Memory);
            };
            Ok(borrow)
        };
        match insert_with(&mut self.table, key, store) {
            Ok(done) => Ok(done.value),
            Err(Refusal::Room) => Err(InsertFault::Memory),
            Err(Refusal::Value(fault)) => Err(fault),
        }
    }

    /// Looks up the key that `query` finds, and inserts the entry that `make` returns if the map
    /// has no such key.
    ///
    /// `make` returns a key that `query` finds, and its value. It is called only if the map has no
    /// such key. If the map has the key, the call allocates nothing.
    ///
    /// # Errors
    /// `InsertFault::Value` has the error of `make`, and `InsertFault::Memory` is an allocation
    /// failure. The map then has no key that `query` finds, and is unchanged.
    ///
    /// # Cost
    /// One search for a present key, and two for a new one. In a hash table each of them hashes
    /// once.
    pub fn insert_by<Q, E, F>(
        &mut self,
        query: Q,
        make: F,
    ) -> Result<Inserted<V::Borrow>, InsertFault<E>>
    where
        Q: Seeks<T, K, V::Borrow>,
        E: Drop,
        F: FnOnce() -> Result<(K, V), E> + Drop,
        requires callable { lookup (Q.finds query) self.old ≡ None → F.pre make }
        requires found { (k : K) (v : V) → F.post make (Ok (k, v)) → Q.finds query k ≡ true }

        // A present key keeps its value. Otherwise the closure's pair is added.
        ensures present { (x : V.Borrow) → lookup (Q.finds query) self.old ≡ Some x →
            (result ≡ Ok (was_present x)) × (self.new ≡ self.old) }
        ensures value_after { IfOk result (λ r. lookup (Q.finds query) self.new ≡ Some r.value) }
        ensures added { lookup (Q.finds query) self.old ≡ None → IfOk result (λ r.
            (k : K) × (v : V) × F.post make (Ok (k, v)) × (r.is_new ≡ true)
            × AddsNew T.same V.target V.shown self.old k v r.value self.new
            × T.extends self.old k r.value self.new) }

        // A failed call changes nothing, and has its cause.
        ensures refused { OnErr result (
            (self.new ≡ self.old) × (lookup (Q.finds query) self.old ≡ None)) }
        ensures cause { IfErr result (λ e. IfCause e (λ c. F.post make (Err c))) }
    {
        if let Some((_, value)) = query.seek(&self.table) {
            return Ok(Inserted {
                value: *value,
                index: (),
                is_new: false,
            });
        }
        let (key, value) = match make() {
            Ok(entry) => entry,
            Err(e) => return Err(InsertFault::Value(e)),
        };
        let Ok(done) = self.insert_new(key, value) else {
            return Err(InsertFault::Memory);
        };
        Ok(Inserted {
            value: done.0,
            index: (),
            is_new: done.1,
        })
    }
}

impl<R: Copy, K, V, T, A: Allocator + Copy> Frozen<R, K, V, T, A>
where
    V: StableDeref<R>,
    T: Table<K, V::Borrow> + Drop,
{
    /// Replaces the content by that of `base`, and drops the earlier inner map. It allocates
    /// nothing.
    pub fn rebase(&mut self, base: T)
        ensures { self.new ≡ T.entries base }
    {
        *self.as_mut() = base;
    }
}

impl<R: Copy, K, V, T, A: Allocator + Copy> Frozen<R, K, V, T, A>
where
    V: StableDeref<R>,
    T: IntoPairs<K, V::Borrow>,
{
    /// Returns the entries as a list, each once, in the table's order.
    ///
    /// # Errors
    /// Fails if the list can't be allocated. The map is then dropped.
    ///
    /// # Cost
    /// `O(n)`.
    pub fn into_tuple_vec(self) -> Result<Vec<(K, V::Borrow), A>, AllocError>
        ensures entries { IfOk result (λ pairs. pairs.items ≡ self) }
        ensures distinct { IfOk result (λ pairs. IsDistinct T.same (keys_of pairs.items)) }
        ensures in_order { IfOk result (λ pairs. T.in_order (keys_of pairs.items)) }
    {
        let _count = self.table.len();
        let (alloc, inner_map) = self.into_parts();
        inner_map.into_pairs(alloc)
    }
}

/// `map[query]` is the value of the key that `query` finds. The caller proves that the map has it.
impl<R: Copy, K, V, T, A: Allocator + Copy, Q> Index<Q> for Frozen<R, K, V, T, A>
where
    V: StableDeref<R>,
    T: Table<K, V::Borrow>,
    Q: Seeks<T, K, V::Borrow>,
{
    type Output = V::Borrow;

    ghost can_index = { λ m q. IsSome (lookup (Q.finds q) m) };

    ghost index_gives = { λ m q v. lookup (Q.finds q) m ≡ Some v };

    fn index(&self, query: Q) -> &V::Borrow {
        query.seek(&self.table).unwrap().1
    }
}

/// Writes each entry once by `{:?}`, in the table's order, as the inner map does: `{"x": 1}`.
impl<R: Copy, K, V, T, A: Allocator + Copy> Debug for Frozen<R, K, V, T, A>
where
    V: StableDeref<R>,
    T: Table<K, V::Borrow> + Debug,
{
    fn fmt<W: Write>(&self, f: &mut Formatter<W>) -> fmt::Result {
        self.table.fmt(f)
    }
}
