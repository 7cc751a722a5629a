//! Names as values, and views of a shared interner of names.
use elsa_lock_free_map::entries::{one_to_one, same_index};
use elsa_lock_free_map::interner::{NamePass, SharedInterner};
use elsa_lock_free_map::name::{Name, NameFault};
use std::test::*;

#[test]
fn a_text_of_up_to_23_bytes_was_no_name(rt: HostRuntime) -> Result<(), Fail> {
    for text in ["", "a", "aaaaaaaaaaaaaaaaaaaaaaa", "ééééééééééé", "a\0"] {
        let name = Name::new(text);
        assert_eq!(rt; name.map(|name| name.as_str() == text), Ok(true), "{text}");
    }
    for text in ["aaaaaaaaaaaaaaaaaaaaaaaa", "éééééééééééé"] {
        let got = Name::new(text).map(|_| ());
        assert_eq!(rt; got, Err(NameFault::TooLong), "{text}");
    }
    Ok(())
}

#[test]
fn names_compared_otherwise_than_their_texts(rt: HostRuntime) -> Result<(), Fail> {
    let texts = ["", "a", "a\0", "ab", "b", "é", "aaaaaaaaaaaaaaaaaaaaaaa"];
    for one in texts {
        for other in texts {
            let (name, second) = (Name::new(one)?, Name::new(other)?);
            let got = (one, other, name.cmp(&second));
            assert_eq!(rt; got, (one, other, one.cmp(other)));
            assert_eq!(rt; (one, other, name == second), (one, other, one == other));
        }
    }
    Ok(())
}

/// Each name has the same number in both views, by contract.
#[test]
fn views_that_were_not_merged_had_different_numbers(rt: HostRuntime) -> Result<(), Fail> {
    let interner = SharedInterner::<Name>::new(rt.alloc())?;
    let (mut one, mut other) = (interner.pass(), interner.pass());
    assert_eq!(rt; interner.put(&rt, &mut one, Name::new("a")?), Ok(0));
    one_to_one(&one);
    same_index(&one, &other);
    assert_eq!(rt; (one.seen_len(), other.seen_len()), (1, 0));
    for (text, number) in [("b", 1), ("a", 0), ("b", 1)] {
        let got = interner.put(&rt, &mut other, Name::new(text)?);
        assert_eq!(rt; got, Ok(number), "{text}");
        let got = interner.put(&rt, &mut one, Name::new(text)?);
        assert_eq!(rt; got, Ok(number), "{text}");
        let name = interner.at(&mut one, number);
        let got = name.map(|name| name.as_str() == text);
        assert_eq!(rt; got, Some(true), "{text}");
    }
    Ok(())
}

#[test]
fn a_second_view_of_an_interner_lost_names(rt: HostRuntime) -> Result<(), Fail> {
    let interner = SharedInterner::<Name>::new(rt.alloc())?;
    let mut one = interner.pass();
    assert_eq!(rt; interner.put(&rt, &mut one, Name::new("a")?), Ok(0));
    assert_eq!(rt; interner.put(&rt, &mut one, Name::new("b")?), Ok(1));
    let mut two = one.again();
    assert_eq!(rt; two.seen_len(), 2);
    let name = interner.at(&mut two, 0);
    assert_eq!(rt; name.map(|name| name.as_str() == "a"), Some(true));
    assert_eq!(rt; interner.put(&rt, &mut two, Name::new("c")?), Ok(2));
    assert_eq!(rt; (one.seen_len(), two.seen_len()), (2, 3));
    Ok(())
}

#[test]
fn a_call_of_an_interner_had_no_path(rt: HostRuntime) -> Result<(), Fail> {
    let interner = SharedInterner::<Name>::new(rt.alloc())?;
    let mut one: NamePass = SharedInterner::pass(&interner);
    let mut other: NamePass = SharedInterner::pass(&interner);
    let name = Name::new("a")?;
    assert_eq!(rt; SharedInterner::put(&interner, &rt, &mut one, name), Ok(0));
    NamePass::meet(&mut one, &mut other);
    assert_eq!(rt; SharedInterner::at(&interner, &mut other, 0), Some(name));
    Ok(())
}
