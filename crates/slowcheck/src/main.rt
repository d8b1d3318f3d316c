//! A slow program beside the fast ones: what a sheet forbids, found by trying everything, on many sheets and lists that are drawn
//! at random, the same in every run. A difference is printed whole and fails the run.
#![tactic(auto)]

mod beside;
mod draw;
mod edges;
mod encode;
mod ends;
mod fronts;
mod numbers;
mod random;
mod runs;
mod slow;
mod tally;
mod verdict;

ghost use Rattle.std.specs.Prelude.{◌≤◌};

use crate::beside::Case;
use crate::draw::{Lists, damage, diagram};
use crate::edges::{Tall, arguments, expect, full_board, no_places};
use crate::encode::encode;
use crate::fronts::fronts;
use crate::numbers::numbers;
use crate::random::Random;
use crate::runs::{RunTally, run_verdict};
use crate::tally::Tally;
use crate::verdict::{decoded, verdict};
use anyhow::anyhow;
use fault::fault::Fault;
use sheet::diagram::Diagram;
use sheet::sheet::Sheet;
use sheet_file::load::load_sheet;
use std::io;

// How many lists for each sheet that is accepted.
const LISTS: usize = 6;

fn print_hex(rt: &HostRuntime, bytes: &[u8]) -> io::Result<()> {
    for b in bytes {
        print!(rt; "{b:02x}")?;
    }
    println!(rt; "")
}

// Prints the number and place of a refusal; 0 and 0 where there is none.
fn print_verdict(rt: &HostRuntime, whose: &str, verdict: Result<(), Fault>) -> io::Result<()> {
    match verdict {
        Ok(()) => println!(rt; "{whose}: 0 at 0"),
        Err(fault) => println!(rt; "{whose}: {fault}"),
    }
}

// What answers otherwise than the rules ask, and the file on which it does.
#[derive(Clone, Copy)]
struct Difference<'a> {
    what: &'a str,
    file: &'a [u8],
}

impl Difference<'_> {
    // Prints it, and fails.
    fn tell(self, rt: &HostRuntime) -> anyhow::Result<()> {
        println!(rt; "difference: {}", self.what)?;
        print_hex(rt, self.file)?;
        Err(anyhow!("a difference"))
    }

    // Prints what was found of the file, what the rules ask for, and the difference; and fails.
    fn tell_verdict(
        self,
        rt: &HostRuntime,
        found: Result<(), Fault>,
        asked: Result<(), Fault>,
    ) -> anyhow::Result<()> {
        print_verdict(rt, "found", found)?;
        print_verdict(rt, "asked for", asked)?;
        self.tell(rt)
    }
}

// Prints a difference on a list, what all answer, and what was found of its front parts; and fails.
fn tell_list(rt: &HostRuntime, what: &str, case: &Case) -> anyhow::Result<()> {
    println!(rt; "{:?}", case.deeds)?;
    println!(rt; "{:?}", case.found)?;
    case.print_fast(rt)?;
    let file = case.rule;
    Difference { what, file }.tell(rt)
}

// Sheets that are tried, each with some lists, and what they came to.
#[derive(Drop)]
struct Trials<'a> {
    rt: &'a HostRuntime,
    random: Random,
    lists: Lists,
    tally: Tally,
}

impl Trials<'_> {
    // Some lists under one sheet.
    fn lists(&mut self, rule: &[u8], d: &Diagram, sheet: &Sheet) -> anyhow::Result<()> {
        let heap = self.rt.alloc();
        for _ in 0..LISTS {
            let list = self.lists.draw(heap, &mut self.random, d)?;
            let found = fronts(heap, d, list.as_slice())?;
            let case = Case {
                rule,
                sheet,
                deeds: list.as_slice(),
                found: found.as_slice(),
            };
            if let Some(what) = case.difference(heap)? {
                return tell_list(self.rt, what, &case);
            }
            self.tally.list(found.as_slice());
        }
        Ok(())
    }

    // One sheet, of which the diagram is known: is it loaded or refused alike, and do all agree on some lists?
    fn sheet(&mut self, bytes: &[u8], d: &Diagram) -> anyhow::Result<()> {
        let mut sheet = Sheet::blank();
        let found = load_sheet(bytes, &mut sheet);
        let asked = verdict(bytes);
        if found != asked {
            let difference = Difference {
                what: "loader of sheets",
                file: bytes,
            };
            return difference.tell_verdict(self.rt, found, asked);
        }
        self.tally.sheet(found);
        match found {
            Ok(()) => self.lists(bytes, d, &sheet),
            Err(_) => Ok(()),
        }
    }

    // One tall sheet, of which the verdict is known.
    fn tall(&mut self, tall: Tall, asked: Result<(), Fault>) -> anyhow::Result<()> {
        let bytes = tall.bytes(self.rt.alloc())?;
        expect(verdict(bytes.as_slice()) == asked, "a tall sheet")?;
        let d = decoded(bytes.as_slice());
        self.random = Random::new(3);
        self.sheet(bytes.as_slice(), &d)
    }
}

// So many sheets as they are drawn, of at most so many fragments.
fn drawn_sheets(
    rt: &HostRuntime,
    sheets: usize,
    fragments: usize,
    lists: Lists,
) -> anyhow::Result<()>
    requires { (1 ≤ fragments) × (fragments ≤ 64) }
{
    let mut trials = Trials {
        rt,
        random: Random::new(1),
        lists,
        tally: Tally::default(),
    };
    for _ in 0..sheets {
        let d = diagram(rt.alloc(), &mut trials.random, fragments)?;
        let bytes = encode(rt.alloc(), &d)?;
        trials.sheet(bytes.as_slice(), &d)?;
    }
    println!(rt;
        "sheets of at most {fragments} fragments, lists of at most {} deeds: {sheets}",
        lists.most
    )?;
    Ok(trials.tally.print(rt)?)
}

// So many sheets, damaged.
fn damaged_sheets(rt: &HostRuntime, sheets: usize) -> anyhow::Result<()> {
    let mut trials = Trials {
        rt,
        random: Random::new(2),
        lists: Lists { most: 6 },
        tally: Tally::default(),
    };
    for _ in 0..sheets {
        let drawn = diagram(rt.alloc(), &mut trials.random, 9)?;
        let mut bytes = encode(rt.alloc(), &drawn)?;
        damage(&mut trials.random, &mut bytes)?;
        let d = decoded(bytes.as_slice());
        trials.sheet(bytes.as_slice(), &d)?;
    }
    println!(rt; "damaged sheets: {sheets}")?;
    Ok(trials.tally.print(rt)?)
}

// 64 fragments and 65, 31 steps and 32.
fn tall_sheets(rt: &HostRuntime) -> anyhow::Result<()> {
    let mut trials = Trials {
        rt,
        random: Random::new(3),
        lists: Lists { most: 6 },
        tally: Tally::default(),
    };
    let refused = Err(Fault::SheetHeader);
    trials.tall(
        Tall {
            steps: 31,
            count: 64,
        },
        Ok(()),
    )?;
    trials.tall(
        Tall {
            steps: 31,
            count: 65,
        },
        refused,
    )?;
    trials.tall(
        Tall {
            steps: 32,
            count: 64,
        },
        refused,
    )?;
    println!(rt; "tall sheets: 3")?;
    Ok(trials.tally.print(rt)?)
}

// So many run files: are they loaded or refused alike, and is the list that is lent filled as it has to be?
fn drawn_runs(rt: &HostRuntime, files: usize) -> anyhow::Result<()> {
    let mut random = Random::new(4);
    let mut tally = RunTally::default();
    for _ in 0..files {
        let bytes = runs::run(rt.alloc(), &mut random)?;
        let loaded = runs::load(bytes.as_slice());
        let asked = run_verdict(bytes.as_slice());
        if loaded.verdict != asked || !loaded.filled {
            let difference = Difference {
                what: "loader of runs",
                file: bytes.as_slice(),
            };
            return difference.tell_verdict(rt, loaded.verdict, asked);
        }
        tally.run(loaded.verdict);
    }
    eprintln!(rt; "run files: {files}")?;
    Ok(tally.print(rt)?)
}

fn run(rt: &HostRuntime) -> anyhow::Result<()> {
    numbers()?;
    drawn_sheets(rt, 12000, 9, Lists { most: 6 })?;
    drawn_sheets(rt, 500, 64, Lists { most: 4 })?;
    damaged_sheets(rt, 12000)?;
    tall_sheets(rt)?;
    drawn_runs(rt, 4000)?;
    arguments()?;
    println!(rt; "arguments 15 and 16: held")?;
    no_places()?;
    println!(rt; "spool of no places: held")?;
    full_board()?;
    println!(rt; "999th and 1,000th on a board: held")?;
    println!(rt; "differences: 0")?;
    Ok(())
}

fn main(rt: HostRuntime) -> anyhow::Result<()> {
    run(&rt)
}
