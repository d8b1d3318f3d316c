//! The sheets that are timed, as their bytes.

// The kind and the row of fragment i of n, where there is room for n.
// Stays: arrays, filled by number, and bytes for kinds and rows, here and below: a `Vec` of fragments asks the heap for memory.
fn put(bytes: &mut [u8], n: usize, i: usize, kind: u8, row: [u8; 8]) {
    if i < n && n <= 64 && 4 + 9 * n <= bytes.len() {
        bytes[4 + i] = kind;
        for j in 0..8 {
            bytes[4 + n + 8 * i + j] = row[j];
        }
    }
}

// A step of signal 5: the comparison, the target and what they take go by its number.
fn any_step(i: usize) -> [u8; 8] {
    let k = (i % 64) as u8;
    let comparison = k % 7;
    let target = k % 3;
    let (left, right) = if comparison == 0 {
        (0, 0)
    } else {
        (16 + k % 4, k * 3 % 20)
    };
    let (source, add) = if target == 0 {
        (0, 0)
    } else {
        (16 + k % 4, k % 5)
    };
    [0, 5, left, comparison, right, target, source, add]
}

fn put_worst(b: &mut [u8]) {
    let n = 62;
    for i in 0..31 {
        put(b, n, i, 1, any_step(i));
    }
    for i in 31..61 {
        let left = if i == 31 { 0 } else { i as u8 - 1 };
        put(b, n, i, 3, [left, i as u8 - 30, 0, 0, 0, 0, 0, 0]);
    }
    put(b, n, 61, 4, [60, 0, 0, 0, 0, 0, 0, 0]);
}

/// 31 steps of one signal, with comparisons and changes of every kind, in a loop of alts.
pub(crate) fn worst() -> [u8; 562] {
    let mut b = [0; 562];
    b[0] = 62;
    b[1] = 31;
    put_worst(&mut b);
    b
}

// One rule of four fragments, the k-th.
fn put_rule(b: &mut [u8], k: u8) {
    let k = k % 5;
    let at = 4 * k;
    let i = at as usize;
    put(b, 24, i, 1, [0, 2 * k, 0, 0, 0, 1, 18, 0]);
    put(b, 24, i + 1, 1, [0, 2 * k + 1, 18, 1, 16, 0, 0, 0]);
    put(b, 24, i + 2, 5, [at + 1, 0, 0, 0, 0, 0, 0, 0]);
    put(b, 24, i + 3, 2, [at, at + 2, 0, 0, 0, 0, 0, 0]);
}

fn put_ordinary(b: &mut [u8]) {
    for k in 0..5 {
        put_rule(b, k);
    }
    for i in 20..24u8 {
        let left = if i == 20 { 3 } else { i - 1 };
        put(
            b,
            24,
            i as usize,
            3,
            [left, 4 * (i - 20) + 7, 0, 0, 0, 0, 0, 0],
        );
    }
}

/// Ten steps: five rules, each of which remembers an argument of one signal and forbids another signal with that argument.
pub(crate) fn ordinary() -> [u8; 220] {
    let mut b = [0; 220];
    b[0] = 24;
    b[1] = 10;
    put_ordinary(&mut b);
    b
}
