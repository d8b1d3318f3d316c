//! Times a gate: how many microseconds a deed takes, on standard error.
#![tactic(auto)]

mod sheets;

use crate::sheets::{ordinary, worst};
use action::action::Action;
use action::call::Call;
use action::deed::Deed;
use action::partner::Partner;
use anyhow::anyhow;
use gate::answer::Answer;
use gate::gate::Gate;
use host::spool::Spool;
use sheet::sheet::Sheet;
use sheet_file::load::load_sheet;
use sheet_watch::watching::SheetWatch;
use std::array;
use std::time::Instant;
use translation::load::load_translation;
use translation::translated::Translated;
use translation::translation::Translation;
use watch::cap::Cap;
use watch::narrowed::Narrowed;
use watch::pair::Pair;
use watch::watch::Watch;

/// The deeds of a year.
const YEAR: usize = 30000;

/// The deeds of a week.
const WEEK: usize = 6000;

// Submits the actions to a gate over a spool, and tells how long one took; how many were done.
fn time<W: Watch + Drop>(
    rt: &HostRuntime,
    name: &str,
    watch: W,
    actions: &[W::Act],
    places: &mut [W::Act],
) -> anyhow::Result<usize> {
    let start = Instant::now(rt)?;
    let mut gate = Gate::open(watch, Spool::new(places));
    let mut done = 0usize;
    // Stays: no `filter` and `count`, with which a deed under the ordinary sheet takes a tenth longer.
    for a in actions {
        if gate.submit(a) == Answer::Done {
            done = done.saturating_add(1);
        }
    }
    let nanos = start.elapsed(rt)?.as_nanos() / (actions.len().max(1) as u128);
    let micros = nanos / 1000;
    let thousandths = nanos % 1000;
    eprintln!(rt; "{name}: {micros}.{thousandths:03} microseconds an action")?;
    Ok(done)
}

fn load(bytes: &[u8]) -> anyhow::Result<Sheet> {
    let mut sheet = Sheet::blank();
    load_sheet(bytes, &mut sheet).map_err(|_| anyhow!("the sheet is refused"))?;
    Ok(sheet)
}

// Deeds of the ten signals of the ordinary sheet, none of which it forbids.
fn ordinary_deed(i: usize) -> Deed {
    let k = (i % 240) as u8;
    let signal = k % 10;
    let first = if signal % 2 == 0 { k % 8 } else { 8 + k % 8 };
    Deed::reading(0, signal, first, k % 16)
}

fn worst_deed(i: usize) -> Deed {
    let k = (i % 256) as u8;
    Deed::reading(0, 5, k % 16, k / 16)
}

// A call of family 1 becomes the deed of the ordinary sheet that its form and arguments name.
fn ordinary_call(i: usize) -> anyhow::Result<Call> {
    let k = (i % 240) as u8;
    let first = if k % 2 == 0 { k % 8 } else { 8 + k % 8 };
    Call::from_bytes(&[1, k % 8, first, k % 16, 0]).map_err(|_| anyhow!("the call is refused"))
}

// The forms of family 1, as the signals 0 to 7.
const FORMS: [u8; 41] = [
    8, 8, 9, 10, 11, 12, 13, 14, 15, 0, 0, 1, 2, 0, 1, 1, 2, 0, 2, 1, 2, 0, 3, 1, 2, 0, 4, 1, 2, 0,
    5, 1, 2, 0, 6, 1, 2, 0, 7, 1, 2,
];

// Stays: arrays and no `Vec`, here and where they are timed: what needs nothing from the heap cannot fail for want of it.
fn worst_deeds() -> [Deed; YEAR] {
    array::from_fn(worst_deed)
}

fn ordinary_deeds() -> [Deed; YEAR] {
    array::from_fn(ordinary_deed)
}

fn ordinary_calls() -> anyhow::Result<[Call; YEAR]> {
    let mut calls = [ordinary_call(0)?; YEAR];
    for (i, call) in calls.iter_mut().enumerate() {
        *call = ordinary_call(i)?;
    }
    Ok(calls)
}

fn time_worst(rt: &HostRuntime) -> anyhow::Result<()> {
    let mut places = [Deed::reading(0, 0, 0, 0); YEAR];
    let sheet = load(&worst())?;
    let deeds = worst_deeds();
    let done = time(
        rt,
        "31 steps of one signal, a year",
        SheetWatch::new(&sheet),
        &deeds,
        &mut places,
    )?;
    println!(rt; "31 steps of one signal: {done} deeds done")?;
    Ok(())
}

fn time_ordinary(rt: &HostRuntime) -> anyhow::Result<()> {
    let mut places = [Deed::reading(0, 0, 0, 0); YEAR];
    let sheet = load(&ordinary())?;
    let deeds = ordinary_deeds();
    let done = time(
        rt,
        "an ordinary sheet, a year",
        SheetWatch::new(&sheet),
        &deeds,
        &mut places,
    )?;
    println!(rt; "an ordinary sheet: {done} deeds done")?;
    let done = time(
        rt,
        "an ordinary sheet, a week",
        SheetWatch::new(&sheet),
        &deeds[0..WEEK],
        &mut places,
    )?;
    println!(rt; "an ordinary sheet: {done} deeds done")?;
    Ok(())
}

fn time_calls(rt: &HostRuntime) -> anyhow::Result<()> {
    let calls = ordinary_calls()?;
    let mut places = calls;
    let sheet = load(&ordinary())?;
    let mut table = Translation::none();
    load_translation(&FORMS, &mut table).map_err(|_| anyhow!("the translation is refused"))?;
    let partner = Partner::try_from(0).map_err(|_| anyhow!("the partner is refused"))?;
    let cap = Cap::new(31, 65535).map_err(|_| anyhow!("the cap is refused"))?;
    let narrowed = Narrowed::new(SheetWatch::new(&sheet), partner);
    let pile = Translated::new(Pair::new(narrowed, cap), table);
    let done = time(rt, "a pile over calls, a year", pile, &calls, &mut places)?;
    println!(rt; "a pile over calls: {done} calls done")?;
    Ok(())
}

fn run(rt: &HostRuntime) -> anyhow::Result<()> {
    time_worst(rt)?;
    time_ordinary(rt)?;
    time_calls(rt)
}

fn main(rt: HostRuntime) -> anyhow::Result<()> {
    run(&rt)
}
