use crate::told::told;
use sheet::sheet::Sheet;
use sheet_file::load::load_sheet;

// The number and place of the refusal, or 0 and 0.
// Stays: numbers, as in `told`.
fn verdict(bytes: &[u8]) -> (u8, usize) {
    told(load_sheet(bytes, &mut Sheet::blank()))
}

// The neg of a step of signal 3.
const SAMPLE: [u8; 22] = [
    2, 1, 0, 0, 1, 5, 0, 3, 0, 0, 0, 0, 0, 0, 0, 0, 0, 0, 0, 0, 0, 0,
];

// 64 fragments: 31 steps, 30 alts that join them, a neg, and two loops.
fn full() -> [u8; 580] {
    let mut b = [0; 580];
    b[0] = 64;
    b[1] = 31;
    b[4..35].fill(1);
    b[35..65].fill(3);
    b[65..68].copy_from_slice(&[5, 4, 4]);
    // Stays: an alt's row goes by its number, which also says where it stands.
    for i in 31..61u8 {
        let at = 68 + 8 * i as usize;
        b[at] = if i == 31 { 0 } else { i - 1 };
        b[at + 1] = i - 30;
    }
    b[556] = 60;
    b[564] = 61;
    b[572] = 62;
    b
}

#[test]
fn sample(rt: HostRuntime) {
    let mut sheet = Sheet::blank();
    assert!(rt; load_sheet(&SAMPLE, &mut sheet).is_ok());
    assert_eq!(rt; sheet.diagram.count, 2);
    assert_eq!(rt; sheet.diagram.steps, 1);
    assert!(rt; !sheet.empty_runs(1).marked);
    assert!(rt; !sheet.empty_runs(1).plain);
}

#[test]
fn largest(rt: HostRuntime) {
    let mut b = full();
    assert_eq!(rt; verdict(&b), (0, 0));
    b[1] = 32;
    assert_eq!(rt; verdict(&b), (2, 0));
    b[1] = 31;
    b[0] = 65;
    assert_eq!(rt; verdict(&b), (2, 0));
    assert_eq!(rt; verdict(&b[0..579]), (2, 0));
    b[0] = 64;
    assert_eq!(rt; verdict(&b[0..579]), (3, 0));
}

#[test]
fn header_and_length(rt: HostRuntime) {
    let mut b = SAMPLE;
    assert_eq!(rt; verdict(&[]), (1, 0));
    assert_eq!(rt; verdict(&[0, 99, 99]), (1, 0));
    assert_eq!(rt; verdict(&[0, 0, 0, 0]), (2, 0));
    assert_eq!(rt; verdict(&b[0..21]), (3, 0));
    b[2] = 16;
    assert_eq!(rt; verdict(&b), (2, 0), "x starts above 15");
    b[2] = 15;
    b[3] = 16;
    assert_eq!(rt; verdict(&b), (2, 0), "y starts above 15");
    b[3] = 15;
    assert_eq!(rt; verdict(&b), (0, 0), "both start at 15");
}

#[test]
fn kinds_and_rows(rt: HostRuntime) {
    let mut b = SAMPLE;
    b[5] = 6;
    assert_eq!(rt; verdict(&b), (4, 1));
    b[4] = 6;
    assert_eq!(rt; verdict(&b), (4, 0), "the lowest of two");
    b[6] = 8;
    assert_eq!(rt; verdict(&b), (4, 0), "the lower number of two faults");
    b[4] = 1;
    b[5] = 5;
    assert_eq!(rt; verdict(&b), (5, 0), "partner 8");
    b[6] = 0;
    b[8] = 16;
    assert_eq!(rt; verdict(&b), (5, 0), "x on the left of no comparison");
    b[9] = 6;
    assert_eq!(rt; verdict(&b), (0, 0), "x at least 0");
    b[9] = 7;
    assert_eq!(rt; verdict(&b), (5, 0), "comparison 7");
    b[9] = 6;
    b[15] = 1;
    assert_eq!(rt; verdict(&b), (5, 1), "a second part of a neg");
}

#[test]
fn trees(rt: HostRuntime) {
    let mut b = [0; 31];
    b[0] = 3;
    b[1] = 1;
    b[4] = 1;
    b[5] = 2;
    b[6] = 5;
    b[8] = 3;
    b[23] = 1;
    assert_eq!(rt; verdict(&b), (6, 0), "a seq names one part twice");
    b[16] = 1;
    assert_eq!(rt; verdict(&b), (6, 1), "a seq names itself");
    b[5] = 5;
    b[6] = 4;
    b[16] = 0;
    assert_eq!(rt; verdict(&b), (0, 0), "the loop of the neg of a step");
    b[23] = 0;
    assert_eq!(rt;
        verdict(&b),
        (6, 0),
        "the step is named twice, the neg never"
    );
}

#[test]
fn steps_and_empty_lists(rt: HostRuntime) {
    let mut b = SAMPLE;
    b[1] = 2;
    assert_eq!(rt; verdict(&b), (7, 0));
    let mut skips = [0; 31];
    skips[0] = 3;
    skips[5] = 5;
    skips[6] = 4;
    skips[23] = 1;
    assert_eq!(rt; verdict(&skips), (8, 0), "the loop of the neg of a skip");
    skips[5] = 4;
    assert_eq!(rt; verdict(&skips), (0, 0), "the loop of the loop of a skip");
}

#[test]
fn a_refusal_leaves_the_place(rt: HostRuntime) {
    let mut sheet = Sheet::blank();
    assert!(rt; load_sheet(&full(), &mut sheet).is_ok());
    let mut b = SAMPLE;
    b[5] = 6;
    assert!(rt; load_sheet(&b, &mut sheet).is_err());
    assert_eq!(rt; sheet.diagram.count, 64);
    assert_eq!(rt; sheet.diagram.steps, 31);
}
