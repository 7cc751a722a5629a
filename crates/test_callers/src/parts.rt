//! Keys of two parts, with lookups by borrowed parts.
ghost use Rattle.std.specs.Prelude.{◌≡◌};
ghost use Rattle.std.specs.Map.{lookup};
ghost use Rattle.std.specs.String.{string_bytes};
ghost use Rattle.test_callers.specs.KeyLaws.{finds_equals, hashed_alike};
ghost use Rattle.test_callers.specs.Parts.{are_parts};

use bumpalo::Bump;
use elsa::{FrozenIndexMap, Own};
use elsa_tables::{Seeks, SeeksIndex};
use indexmap::{Equivalent, IndexMap};
use std::alloc::{AllocError, Allocator, Global};
use std::hash::{BuildHasher, Hash};
use std::test::*;

/// The key of a service: its host and its port.
type Service = (String, u32);

/// A query for a service by its parts, with a borrowed host.
#[derive(Clone, Copy, PartialEq, Eq, Hash)]
struct At<'q> {
    host: &'q str,
    port: u32,
}

// The parts equal those of a key, and are then hashed as the key.
impl<'q> Equivalent<Service> for At<'q> {
    ghost equivalent = { λ at key. are_parts at.host.now at.port (string_bytes key.0) key.1 };

    ghost respects_hash = { λ at key h. hashed_alike at.host.now at.port (string_bytes key.0) key.1 h };

    ghost respects_eq = { λ at x y h. finds_equals at.host.now at.port (string_bytes x.0) x.1 (string_bytes y.0) y.1 h };

    fn equivalent(&self, key: &Service) -> bool {
        self.host == key.0.as_str() && self.port == key.1
    }
}

// The search of an index map by the parts.
impl<'q, B, S: BuildHasher, A: Allocator + Copy> Seeks<IndexMap<Service, B, S, A>, Service, B>
    for At<'q> {
    ghost finds = { λ at key. are_parts at.host.now at.port (string_bytes key.0) key.1 };

    ghost finds_equals = { λ at x y h. finds_equals at.host.now at.port (string_bytes x.0) x.1 (string_bytes y.0) y.1 h };

    fn seek<'t>(self, table: &'t IndexMap<Service, B, S, A>) -> Option<(&'t Service, &'t B)> {
        table.get_key_value(self)
    }
}

impl<'q, B, S: BuildHasher, A: Allocator + Copy> SeeksIndex<IndexMap<Service, B, S, A>, Service, B>
    for At<'q> {
    fn seek_full<'t>(
        self,
        table: &'t IndexMap<Service, B, S, A>,
    ) -> Option<(usize, &'t Service, &'t B)> {
        table.get_full(self)
    }
}

/// Returns the number of the service with these parts.
fn number_of<'a>(
    numbers: &FrozenIndexMap<'a, Service, Own<u64>>,
    host: &str,
    port: u32,
) -> Option<&'a u64>
    ensures { result ≡ lookup (λ key. are_parts host.now port (string_bytes key.0) key.1) numbers.now }
{
    numbers.get(At { host, port })
}

// Returns whether services are found only by both of their parts.
fn are_found(alloc: Global) -> Result<bool, AllocError> {
    let arena = Bump::new(alloc);
    let mut numbers: FrozenIndexMap<'_, Service, Own<u64>> = FrozenIndexMap::new(alloc, &arena);
    numbers.insert((String::from_str(alloc, "web")?, 80), Own(1))?;
    numbers.insert((String::from_str(alloc, "web")?, 443), Own(2))?;
    let is_found = number_of(&numbers, "web", 443) == Some(&2);
    let is_absent = number_of(&numbers, "web", 22).is_none();
    let index = numbers.get_index_of(At {
        host: "web",
        port: 443,
    });
    Ok(is_found && is_absent && index == Some(1))
}

#[test]
fn a_service_was_not_found_by_its_parts(rt: HostRuntime) -> Result<(), Fail> {
    assert!(rt; are_found(rt.alloc())?);
    Ok(())
}
