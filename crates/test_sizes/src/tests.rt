//! Each collection with scripts, extended at once, and with reserved room.
use crate::bulk::filled;
use crate::kinds::{Hasher, IndexMap, IndexSet, LargeMap, List, Map, TextMap, Texts, TreeMap};
use crate::room::first_without_room;
use crate::script::{Plan, SCRIPTS, Unlike, first_unlike};
use bumpalo::Bump;
use elsa::append_map::AppendMap;
use elsa::interner::Interner;
use elsa::{
    FrozenAppendMap, FrozenBTreeMap, FrozenBTreeSet, FrozenIndexMap, FrozenIndexSet, FrozenMap,
    FrozenVec,
};
use std::alloc::{AllocError, Global};
use std::test::Fail;
use test_alloc::Budget;
use test_model::draws::{clock_seed, is_edge};

type Heap<'h> = &'h Budget<Global>;

/// The collections.
#[derive(Clone, Copy, Debug)]
enum Kind {
    Vec,
    Map,
    IndexMap,
    AppendMap,
    IndexSet,
    Interner,
    BTreeMap,
    BTreeSet,
    OwnedAppendMap,
    AppendMapTexts,
}

/// The collections whose capacity can be reserved, and then the others.
const KINDS: [Kind; 10] = [
    Kind::Vec,
    Kind::Map,
    Kind::IndexMap,
    Kind::AppendMap,
    Kind::IndexSet,
    Kind::Interner,
    Kind::BTreeMap,
    Kind::BTreeSet,
    Kind::OwnedAppendMap,
    Kind::AppendMapTexts,
];

/// Makes the collection of the kind, and calls a function with it.
macro_rules! with_kind {
    ($kind:ident, $grown:ident => $call:expr; $($name:ident: $type:ty = $new:expr;)+
        $(_ => $rest:expr;)?) => {
        match $kind {
            $(Kind::$name => {
                let mut $grown: $type = $new;
                $call
            })+
            $(_ => $rest,)?
        }
    };
}

/// What is done with a collection: a script of single insertions, or of one `extend`.
#[derive(Clone, Copy)]
enum Job {
    Script(Plan),
    Fill(Plan),
}

/// Does a job with a new collection, and returns the first difference.
fn of_kind(
    alloc: Global,
    heap: Heap<'_>,
    arena: &Bump,
    kind: Kind,
    job: Job,
) -> Result<Option<Unlike>, AllocError> {
    with_kind! { kind, grown => match job {
            Job::Script(plan) => first_unlike(alloc, heap, &mut grown, plan),
            Job::Fill(plan) => filled(alloc, heap, &mut grown, plan),
        };
        Vec: List<'_, Heap<'_>> = FrozenVec::new(heap, arena);
        Map: Map<'_, Heap<'_>> = FrozenMap::new(heap, arena);
        IndexMap: IndexMap<'_, Heap<'_>> = FrozenIndexMap::new(heap, arena);
        AppendMap: LargeMap<'_, Heap<'_>> = FrozenAppendMap::new(heap, arena);
        IndexSet: IndexSet<'_, Heap<'_>> = FrozenIndexSet::new(heap, arena);
        Interner: Interner<'_, Hasher, Heap<'_>> = Interner::new(heap, arena);
        BTreeMap: TreeMap<'_, Heap<'_>> = FrozenBTreeMap::new(heap, arena);
        BTreeSet: FrozenBTreeSet<'_, u64, Heap<'_>> = FrozenBTreeSet::new(heap, arena);
        OwnedAppendMap: AppendMap<u64, u64, Hasher, Heap<'_>> = AppendMap::new(heap);
        AppendMapTexts: Texts<TextMap<'_, Heap<'_>>> = Texts(FrozenAppendMap::new(heap, arena));
    }
}

#[test]
fn a_collection_differs_from_a_list(rt: HostRuntime) -> Result<(), Fail> {
    let clock = clock_seed(&rt)?;
    for number in 0..SCRIPTS {
        for kind in KINDS {
            let (heap, arena) = (Budget::new(rt.alloc()), Bump::new(rt.alloc()));
            let plan = Plan::random(number, clock);
            let unlike = of_kind(rt.alloc(), &heap, &arena, kind, Job::Script(plan))?;
            assert_eq!(rt; unlike, None, "{kind:?}, {plan:?}");
            assert_eq!(rt; heap.given(), heap.granted(), "{kind:?}, {plan:?}");
        }
    }
    Ok(())
}

#[test]
fn a_collection_differs_from_a_list_where_something_grows(rt: HostRuntime) -> Result<(), Fail> {
    for size in 0..600 {
        if !is_edge(size) {
            continue;
        }
        for kind in KINDS {
            let (heap, arena) = (Budget::new(rt.alloc()), Bump::new(rt.alloc()));
            let unlike = of_kind(
                rt.alloc(),
                &heap,
                &arena,
                kind,
                Job::Script(Plan::Each { size }),
            )?;
            assert_eq!(rt; unlike, None, "{kind:?}, size {size}");
        }
    }
    Ok(())
}

#[test]
fn an_extended_collection_differs_from_a_list(rt: HostRuntime) -> Result<(), Fail> {
    let clock = clock_seed(&rt)?;
    for number in 0..SCRIPTS {
        for kind in [
            Kind::Map,
            Kind::BTreeMap,
            Kind::IndexMap,
            Kind::AppendMap,
            Kind::IndexSet,
        ] {
            let (heap, arena) = (Budget::new(rt.alloc()), Bump::new(rt.alloc()));
            let plan = Plan::random(number, clock);
            let unlike = of_kind(rt.alloc(), &heap, &arena, kind, Job::Fill(plan))?;
            assert_eq!(rt; unlike, None, "{kind:?}, {plan:?}");
        }
    }
    Ok(())
}

/// Returns the first key that a collection with room for it allocates for, or the number of keys if
/// the room is smaller or much larger; or `None`.
fn kind_without_room(
    heap: Heap<'_>,
    arena: &Bump,
    kind: Kind,
    size: u64,
) -> Result<Option<u64>, AllocError> {
    let room = size as usize;
    with_kind! { kind, grown => first_without_room(heap, &mut grown, size);
        Vec: List<'_, Heap<'_>> = FrozenVec::with_capacity(heap, arena, room)?;
        Map: Map<'_, Heap<'_>> = FrozenMap::with_capacity(heap, arena, room)?;
        IndexMap: IndexMap<'_, Heap<'_>> = FrozenIndexMap::with_capacity(heap, arena, room)?;
        AppendMap: LargeMap<'_, Heap<'_>> = {
            let mut grown = FrozenAppendMap::new(heap, arena);
            grown.reserve(room).map_err(|_| AllocError)?;
            grown
        };
        IndexSet: IndexSet<'_, Heap<'_>> = FrozenIndexSet::with_capacity(heap, arena, room)?;
        Interner: Interner<'_, Hasher, Heap<'_>> = Interner::with_capacity(heap, arena, room)?;
        _ => Ok(Some(size));
    }
}

#[test]
fn a_collection_allocates_in_reserved_room(rt: HostRuntime) -> Result<(), Fail> {
    let (_, size) = Plan::random(SCRIPTS, clock_seed(&rt)?).parts();
    for kind in KINDS.iter().take(6) {
        for count in [0, 1, 7, 8, 29, 100, 2000, size] {
            let (heap, arena) = (Budget::new(rt.alloc()), Bump::new(rt.alloc()));
            let first = kind_without_room(&heap, &arena, *kind, count)?;
            assert_eq!(rt; first, None, "{kind:?}, size {count}");
        }
    }
    Ok(())
}
