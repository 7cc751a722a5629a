//! The three map implementations, used through their trait. A closure makes the value of an absent
//! key, and a present key keeps its own.
use elsa_tables::{Inserted, Put, Refusal, Table, insert_with};
use indexmap::IndexMap;
use std::collections::{BTreeMap, HashMap};
use std::process::Abort;
use std::test::Fail;

// Checks insertions into an empty table, whose closure may fail, and the look-ups after them.
fn keeps_the_first<T: Table<u64, u64>>(rt: &impl Abort, table: &mut T) -> Result<(), Fail> {
    for (key, made, kept, is_new) in [
        (1, Ok(6), Ok(6), true),
        (1, Ok(9), Ok(6), false),
        (1, Err(5), Ok(6), false),
        (2, Ok(7), Ok(7), true),
        (3, Err(5), Err(5), false),
    ] {
        let put: Result<Inserted<u64>, Refusal<u64>> = insert_with(table, key, |_| made);
        let got = match put {
            Ok(done) => (Ok(done.value), done.is_new),
            Err(Refusal::Value(error)) => (Err(error), false),
            Err(_) => (Err(0), false),
        };
        assert_eq!(rt; (key, made, got), (key, made, (kept, is_new)));
    }
    let make = |_key: &u64| -> Result<(u64, u64), ()> { Err(()) };
    let put = table.put_with(2, make, |value: &u64| value + 1);
    assert!(rt; matches!(put, Ok(Put::Found(8, _))));
    assert_eq!(rt; table.len(), 2);
    let got = [1, 2, 3].map(|key| table.find(&key).copied());
    assert_eq!(rt; got, [Some(6), Some(7), None]);
    Ok(())
}

#[test]
fn a_table_lost_the_first_value_of_a_key(rt: HostRuntime) -> Result<(), Fail> {
    let mut hashed: HashMap<u64, u64> = HashMap::new(rt.alloc());
    let mut ordered: BTreeMap<u64, u64> = BTreeMap::new(rt.alloc());
    let mut in_order: IndexMap<u64, u64> = IndexMap::new(rt.alloc());
    keeps_the_first(&rt, &mut hashed)?;
    keeps_the_first(&rt, &mut ordered)?;
    keeps_the_first(&rt, &mut in_order)
}
