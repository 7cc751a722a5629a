//! The calls that docs/reference lists for the states of the locked collections and for the
//! recorder.
use elsa::sync::history::{CloseFault, MapCommand, MapReply, Recorder, VecCommand, VecReply};
use elsa::sync::map::{MapState, TreeState};
use elsa::sync::vec::VecState;
use elsa_history::ReceiptsFault;
use std::collections::BTreeMap;
use std::test::Fail;

#[test]
fn a_call_on_the_state_of_a_hashed_map_had_a_wrong_result(rt: HostRuntime) -> Result<(), Fail> {
    let mut map: MapState<u64, u64> = MapState::new(rt.alloc());
    let (first, is_new) = map.insert_new(1, 10)?;
    assert_eq!(rt; (*first, is_new), (10, true));
    assert_eq!(rt; *map.insert_with_key(2, |key| *key * 10)?, 20);
    let (again, is_new) = map.insert_new(2, 5)?;
    assert_eq!(rt; (*again, is_new), (20, false));
    assert_eq!(rt; (*map.insert_with(2, || 6)?, *map.insert(1, 7)?), (20, 10));
    assert_eq!(rt;
        (
            map.get_copy_or_insert(1, 5)?,
            map.get_copy_or_insert(3, 30)?
        ),
        (10, 30)
    );
    assert_eq!(rt; map.get_copy_or_insert_with_key(4, |key| *key * 10)?, 40);
    assert_eq!(rt; map.get_copy_or_insert_with(4, || 5)?, 40);
    assert_eq!(rt;
        (map.get_copy(&3), map.map_get(&4, |value| *value)),
        (Some(30), Some(40))
    );
    assert_eq!(rt; map.get(&4)?.map(|owner| *owner), Some(40));
    assert_eq!(rt; (map.len(), map.is_empty()), (4, false));
    let copy = map.copy()?;
    assert!(rt; map.same(&copy));
    assert_eq!(rt;
        (copy.keys_cloned()?.len(), copy.into_tuple_vec()?.len()),
        (4, 4)
    );
    Ok(())
}

type Ordered = TreeState<u64, u64>;

#[test]
fn a_call_on_the_state_of_an_ordered_map_had_a_wrong_result(rt: HostRuntime) -> Result<(), Fail> {
    let mut map: Ordered = TreeState::from_iter(rt.alloc(), [(1, 11), (1, 10)])?;
    let (first, is_new) = map.insert_new(2, 20)?;
    assert_eq!(rt; (*first, is_new, *map.insert(2, 5)?), (20, true, 20));
    assert_eq!(rt; map.get(&2)?.map(|owner| *owner), Some(20));
    assert_eq!(rt;
        (map.map_get(&1, |it| *it), map.map_get(&2, |it| *it)),
        (Some(10), Some(20))
    );
    assert_eq!(rt; (map.len(), map.is_empty()), (2, false));
    let copy = map.copy()?;
    assert!(rt; map.same(&copy));
    assert_eq!(rt; copy.into_tuple_vec()?.len(), 2);
    assert!(rt; !map.same(&TreeState::from_map(rt.alloc(), BTreeMap::new(rt.alloc()))));
    Ok(())
}

#[test]
fn a_call_on_the_state_of_a_vector_had_a_wrong_result(rt: HostRuntime) -> Result<(), Fail> {
    let mut list: VecState<u64> = VecState::new(rt.alloc());
    list.push(7)?;
    assert_eq!(rt; (*list.push_get(8)?, list.push_get_index(9)?), (8, 2));
    assert_eq!(rt; list.get(2)?.map(|owner| *owner), Some(9));
    assert_eq!(rt; (list.len(), list.is_empty()), (3, false));
    let again = VecState::from_vec(list.copy()?.into_vec());
    assert!(rt; list.same(&again));
    Ok(())
}

#[test]
fn a_call_on_the_recorder_had_a_wrong_result(rt: HostRuntime) -> Result<(), Fail> {
    let recorder: Recorder<Ordered> = Recorder::new(rt.alloc(), TreeState::new(rt.alloc()));
    let mut pass = recorder.pass(5);
    let reply = recorder.call(&rt, &mut pass, MapCommand::Insert(1, 10))?;
    assert_eq!(rt;
        (reply, pass.number(), pass.receipts().len()),
        (MapReply::Value(10), 5, 1)
    );
    let Ok(history) = recorder.close(vec![in rt.alloc(); pass]?) else {
        return Err(Fail::new("a close with each pass failed"));
    };
    let entries = [(5, MapCommand::Insert(1, 10), MapReply::Value(10))];
    assert_eq!(rt;
        (history.entries(), history.core().len()),
        (entries.as_slice(), 1)
    );
    Ok(())
}

#[test]
fn a_close_without_a_pass_lost_the_history(rt: HostRuntime) -> Result<(), Fail> {
    let alloc = rt.alloc();
    let recorder: Recorder<VecState<u64>> = Recorder::new(alloc, VecState::new(alloc));
    let mut pass = recorder.pass(1);
    assert_eq!(rt;
        recorder.call(&rt, &mut pass, VecCommand::Push(7))?,
        VecReply::Place(0)
    );
    let Err(CloseFault::Receipts(ReceiptsFault::MissingPass, history)) = recorder.close(Vec::new(
        alloc,
    )) else {
        return Err(Fail::new("another result of a close without the pass"));
    };
    assert_eq!(rt; history.entries().len(), 1);
    Ok(())
}
