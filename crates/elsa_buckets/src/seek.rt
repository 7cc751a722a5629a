//! Texts and slices as queries of an [`AppendMap`], in calls that take the queries of any map
//! implementation.
ghost use Rattle.std.specs.Cmp.Lexicographic.{pointwise};
ghost use Rattle.std.specs.Str.{bytes_eq};
ghost use Rattle.std.specs.String.{string_bytes};
ghost use Rattle.std.proofs.lemmas.Cmp.{lists_equiv, nat_list_eq_equiv};

use crate::append_map::AppendMap;
use elsa_tables::Seeks;
use std::alloc::Allocator;
use std::hash::{BuildHasher, Hash};

// ---- texts

impl<'q, 'b, B, S: BuildHasher, A: Allocator + Copy> Seeks<AppendMap<&'b str, B, S, A>, &'b str, B>
    for &'q str {
    ghost finds = { λ q k. bytes_eq q.now k.now };

    ghost finds_equals = { λ q x y. nat_list_eq_equiv.congr q.now x.now y.now };

    #[inline(always)]
    fn seek<'t>(self, table: &'t AppendMap<&'b str, B, S, A>) -> Option<(&'t &'b str, &'t B)> {
        let (_, key, value) = table.get_full(self)?;
        Some((key, value))
    }
}

impl<'q, B, S: BuildHasher, A: Allocator + Copy, Z: Allocator> Seeks<
    AppendMap<String<Z>, B, S, A>,
    String<Z>,
    B,
> for &'q str {
    ghost finds = { λ q k. bytes_eq q.now (string_bytes k) };

    ghost finds_equals = { λ q x y. nat_list_eq_equiv.congr q.now (string_bytes x) (string_bytes y) };

    #[inline(always)]
    fn seek<'t>(self, table: &'t AppendMap<String<Z>, B, S, A>) -> Option<(&'t String<Z>, &'t B)> {
        let (_, key, value) = table.get_full(self)?;
        Some((key, value))
    }
}

// ---- slices

impl<'q, 'b, U: Eq + Hash, B, S: BuildHasher, A: Allocator + Copy> Seeks<
    AppendMap<&'b [U], B, S, A>,
    &'b [U],
    B,
> for &'q [U] {
    ghost finds = { λ q k. pointwise U.eq q.now k.now };

    ghost finds_equals = { λ q x y. (lists_equiv U.Eq.laws).congr q.now x.now y.now };

    #[inline(always)]
    fn seek<'t>(self, table: &'t AppendMap<&'b [U], B, S, A>) -> Option<(&'t &'b [U], &'t B)> {
        let (_, key, value) = table.get_full(self)?;
        Some((key, value))
    }
}

impl<'q, U: Eq + Hash + Drop, B, S: BuildHasher, A: Allocator + Copy, Z: Allocator> Seeks<
    AppendMap<Vec<U, Z>, B, S, A>,
    Vec<U, Z>,
    B,
> for &'q [U] {
    ghost finds = { λ q k. pointwise U.eq q.now k.items };

    ghost finds_equals = { λ q x y. (lists_equiv U.Eq.laws).congr q.now x.items y.items };

    #[inline(always)]
    fn seek<'t>(self, table: &'t AppendMap<Vec<U, Z>, B, S, A>) -> Option<(&'t Vec<U, Z>, &'t B)> {
        let (_, key, value) = table.get_full(self)?;
        Some((key, value))
    }
}
