//! Judges the rule sheet `rule.sht` in the current folder, or in each folder that is named, and prints an account of it.
#![tactic(auto)]

use file_input::files::read_rule;
use file_input::folders::{Program, for_each_folder};
use file_input::tell::tell_refusal;
use outline::outline::outline;
use outline::words::InWords;
use sheet::sheet::Sheet;

fn show(rt: &HostRuntime, sheet: &Sheet) -> anyhow::Result<()> {
    let diagram = &sheet.diagram;
    println!(rt; "sheet accepted")?;
    println!(rt; "fragments: {}", diagram.count)?;
    println!(rt; "steps: {}", diagram.steps)?;
    println!(rt; "starts: x {}, y {}", diagram.start.x, diagram.start.y)?;
    println!(rt; "outline:")?;
    let lines = outline(rt.alloc(), sheet)?;
    for line in lines.iter() {
        for _ in 0..line.depth {
            print!(rt; "  ")?;
        }
        println!(rt; "  {}", InWords(line.fragment))?;
    }
    Ok(())
}

struct Sheetcheck;

impl Program for Sheetcheck {
    fn account(&self, rt: &HostRuntime, folder: &str) -> anyhow::Result<()> {
        let mut sheet = Sheet::blank();
        match read_rule(rt, folder, &mut sheet)? {
            Ok(()) => show(rt, &sheet),
            Err(fault) => Ok(tell_refusal(rt, "sheet", fault)?),
        }
    }
}

fn main(rt: HostRuntime) -> anyhow::Result<()> {
    for_each_folder(&rt, &Sheetcheck)
}
