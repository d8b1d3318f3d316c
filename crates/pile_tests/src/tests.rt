use action::call::Call;
use action::deed::Deed;
use action::kind::Kind;
use action::partner::Partner;
use fault::fault::Fault;
use std::test::Fail;
use translation::load::load_translation;
use translation::translated::Translated;
use translation::translation::Translation;
use watch::cap::Cap;
use watch::narrowed::Narrowed;
use watch::order::Order;
use watch::pair::Pair;
use watch::watch::Watch;

// Family 1 form 0 becomes signal 3 to partner 0 with the first two arguments, family 2 form 1 signal 3 to partner 1.
const TWO_ROWS: [u8; 11] = [2, 8, 17, 0, 3, 1, 2, 1, 3, 0, 0];

// Stays: crates of tests share no library, and each makes the deeds that it needs.
fn deed(partner: u8, signal: u8) -> Result<Deed, Fault> {
    Deed::from_bytes(&[partner, signal, 0, 0])
}

fn call(family: u8, form: u8) -> Result<Call, Fault> {
    Call::from_bytes(&[family, form, 5, 6, 7])
}

// How many actions come before the first that is barred; those are noted.
fn passed<W: Watch>(watch: &mut W, list: &[W::Act]) -> usize {
    // Stays: no `position`, since each action that passes is noted before the next is judged.
    for (i, action) in list.iter().enumerate() {
        if watch.bars(action) {
            return i;
        }
        watch.note(action);
    }
    list.len()
}

// The number and the place of a refusal.
// Stays: numbers, which are what is promised of a refusal.
fn told(fault: Fault) -> (u8, usize) {
    (fault.number(), fault.place())
}

// The number and the place of a refused load, 0 and 0 of an accepted one.
fn refusal(bytes: &[u8]) -> (u8, usize) {
    load_translation(bytes, &mut Translation::none()).map_or_else(told, |_| (0, 0))
}

#[test]
fn a_pile(rt: HostRuntime) -> Result<(), Fail> {
    let mut table = Translation::none();
    load_translation(&TWO_ROWS, &mut table)?;
    let none_to_one = Narrowed::new(Cap::new(3, 0)?, Partner::try_from(1)?);
    let mut pile = Translated::new(Pair::new(none_to_one, Cap::new(3, 2)?), table);
    let there = call(1, 0)?;
    let nowhere = call(1, 1)?;
    assert!(rt; pile.bars(&call(2, 1)?), "a deed to partner 1");
    assert_eq!(rt; passed(&mut pile, &[there, nowhere, there, nowhere]), 4);
    assert!(rt; pile.bars(&there), "a third signal 3");
    assert!(rt; !pile.broken(), "nothing barred was noted");
    Ok(())
}

#[test]
fn translations(rt: HostRuntime) -> Result<(), Fail> {
    let mut table = Translation::none();
    assert_eq!(rt; table.translate(&call(1, 0)?), None);
    load_translation(&TWO_ROWS, &mut table)?;
    assert_eq!(rt;
        table.translate(&call(1, 0)?),
        Some(Deed::from_bytes(&[0, 3, 5, 6])?)
    );
    assert_eq!(rt; table.translate(&call(2, 1)?), Some(deed(1, 3)?));
    assert_eq!(rt; table.translate(&call(2, 0)?), None);
    assert!(rt; load_translation(&[1, 8, 0, 3, 4, 0], &mut table).is_err());
    assert_eq!(rt;
        table.translate(&call(2, 1)?),
        Some(deed(1, 3)?),
        "a refused load changes nothing"
    );
    Ok(())
}

#[test]
fn refused_loads(rt: HostRuntime) {
    assert_eq!(rt; refusal(&[]), (9, 0));
    assert_eq!(rt; refusal(&[0]), (0, 0));
    assert_eq!(rt; refusal(&[0, 0]), (9, 0));
    assert_eq!(rt; refusal(&[1, 8, 0, 0, 0]), (9, 0));
    assert_eq!(rt; refusal(&[65; 326]), (9, 0));
    assert_eq!(rt;
        refusal(&[2, 9, 8, 0, 0, 0, 0, 8, 0, 0, 0]),
        (10, 1),
        "rows come before codes"
    );
    assert_eq!(rt; refusal(&[1, 8, 7, 31, 3, 3]), (0, 0));
    assert_eq!(rt; refusal(&[1, 8, 0, 32, 0, 0]), (10, 0));
    assert_eq!(rt; refusal(&[1, 8, 0, 0, 4, 0]), (10, 0));
    assert_eq!(rt; refusal(&[1, 8, 0, 0, 0, 4]), (10, 0));
    assert_eq!(rt;
        refusal(&[3, 7, 8, 8, 0, 0, 0, 0, 0, 0, 0, 0, 0, 0, 0, 0]),
        (11, 2)
    );
}

// The number and the place of a refused order, or how many signals come before the first that is barred.
// Stays: numbers, as in `told`.
fn ordered(pairs: &[(u8, u8)], signals: &[u8; 4]) -> Result<(u8, usize), Fault> {
    let list = [
        deed(0, signals[0])?,
        deed(1, signals[1])?,
        deed(2, signals[2])?,
        deed(3, signals[3])?,
    ];
    match Order::new(pairs) {
        Ok(mut order) => Ok((0, passed(&mut order, &list))),
        Err(fault) => Ok(told(fault)),
    }
}

#[test]
fn orders(rt: HostRuntime) -> Result<(), Fail> {
    assert_eq!(rt; ordered(&[], &[1, 2, 1, 2])?, (0, 4));
    assert_eq!(rt; ordered(&[(1, 2)], &[2, 2, 1, 1])?, (0, 4));
    assert_eq!(rt; ordered(&[(1, 2)], &[1, 2, 0, 0])?, (0, 1));
    assert_eq!(rt;
        ordered(&[(1, 2), (3, 4)], &[1, 3, 5, 2])?,
        (0, 3),
        "an older first"
    );
    assert_eq!(rt;
        ordered(&[(3, 4), (1, 2), (1, 31)], &[1, 5, 31, 0])?,
        (0, 2)
    );
    assert_eq!(rt; ordered(&[(4, 4)], &[4, 5, 4, 0])?, (0, 2));
    assert_eq!(rt; ordered(&[(0, 1), (1, 32)], &[0, 0, 0, 0])?, (13, 0));
    assert_eq!(rt; ordered(&[(32, 1)], &[0, 0, 0, 0])?, (13, 0));
    let mut calls = Order::new(&[(1, 2)])?;
    assert_eq!(rt;
        passed(&mut calls, &[call(1, 7)?, call(3, 7)?, call(2, 7)?]),
        2
    );
    Ok(())
}

#[test]
fn out_of_range(rt: HostRuntime) -> Result<(), Fail> {
    assert_eq!(rt; Partner::try_from(8).err(), Some(Fault::OutOfRange));
    match Cap::<Deed>::new(32, 1) {
        Ok(_) => Err(Fail::new("32 is no kind")),
        Err(fault) => {
            assert_eq!(rt; told(fault), (13, 0));
            Ok(())
        },
    }
}

#[test]
fn shown_by_name(rt: HostRuntime) -> Result<(), Fail> {
    let kind = format!(in rt.alloc(); "{:?}", Kind::new(31)?)?;
    let partner = format!(in rt.alloc(); "{:?}", Partner::new(7)?)?;
    assert_eq!(rt; kind.as_str(), "Kind { value: 31 }");
    assert_eq!(rt; partner.as_str(), "Partner { value: 7 }");
    Ok(())
}

#[test]
fn broken_piles(rt: HostRuntime) -> Result<(), Fail> {
    let mut narrow = Narrowed::new(Cap::new(3, 0)?, Partner::try_from(1)?);
    narrow.note(&deed(2, 3)?);
    assert!(rt; !narrow.bars(&deed(2, 3)?), "not shown below");
    narrow.note(&deed(1, 3)?);
    assert!(rt; narrow.broken());
    assert!(rt; narrow.bars(&deed(2, 5)?), "a deed to another partner");

    let mut table = Translation::none();
    load_translation(&TWO_ROWS, &mut table)?;
    let mut calls = Translated::new(narrow, table);
    assert!(rt; calls.bars(&call(9, 0)?), "a call without a row");
    calls.note(&call(9, 0)?);
    assert!(rt; calls.broken());
    Ok(())
}
