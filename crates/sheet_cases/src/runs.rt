use crate::told::told;
use action::deed::Deed;
use run_file::{MOST_DEEDS, load_run};

// How many deeds; or 0, and the number and place of the refusal.
// Stays: numbers, as in `told`.
fn loaded(bytes: &[u8]) -> (usize, u8, usize) {
    let mut deeds = [Deed::reading(7, 31, 15, 15); MOST_DEEDS];
    let outcome = load_run(bytes, &mut deeds);
    let (number, place) = told(outcome);
    (outcome.unwrap_or(0), number, place)
}

#[test]
fn shapes(rt: HostRuntime) {
    assert_eq!(rt; loaded(&[]), (0, 14, 0));
    assert_eq!(rt; loaded(&[0]), (0, 14, 0));
    assert_eq!(rt; loaded(&[0, 0]), (0, 0, 0));
    assert_eq!(rt; loaded(&[0, 0, 0]), (0, 14, 0));
    assert_eq!(rt; loaded(&[1, 0, 0, 3]), (0, 14, 0));
    assert_eq!(rt;
        loaded(&[64, 31]),
        (0, 14, 0),
        "8,000 deeds, and none there"
    );
    assert_eq!(rt; loaded(&[65, 31]), (0, 14, 0), "8,001 deeds");
}

#[test]
fn longest(rt: HostRuntime) {
    let mut b = [0; 24005];
    b[0] = 64;
    b[1] = 31;
    assert_eq!(rt; loaded(&b[0..24002]), (8000, 0, 0));
    assert_eq!(rt; loaded(&b), (0, 14, 0));
    b[0] = 65;
    assert_eq!(rt; loaded(&b), (0, 14, 0), "8,001 deeds");
}

#[test]
fn deeds(rt: HostRuntime) {
    assert_eq!(rt; loaded(&[2, 0, 7, 31, 0, 0, 255, 0]), (2, 0, 0));
    assert_eq!(rt; loaded(&[2, 0, 7, 31, 8, 0, 0, 0]), (0, 12, 1));
    assert_eq!(rt;
        loaded(&[2, 0, 7, 32, 8, 0, 0, 0]),
        (0, 12, 0),
        "the lowest of two"
    );
    let mut deeds = [Deed::reading(7, 31, 15, 15); MOST_DEEDS];
    assert!(rt; load_run(&[2, 0, 1, 2, 3, 4, 0x56, 0x78], &mut deeds).is_ok());
    assert_eq!(rt; deeds[1].address(), 3);
    assert_eq!(rt; deeds[1].signal(), 4);
    assert_eq!(rt; deeds[0].first(), 5);
    assert_eq!(rt; deeds[0].second(), 6);
    assert_eq!(rt; deeds[1].first(), 7);
    assert_eq!(rt; deeds[1].second(), 8);
    assert_eq!(rt; deeds[2].signal(), 31, "a later place keeps what it held");
}
