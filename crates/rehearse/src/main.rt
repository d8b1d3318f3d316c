//! Rehearses the run `run.dds` under the rule sheet `rule.sht`, both in the current folder or in each folder that is named, and
//! prints how far it would get.
#![tactic(auto)]

use action::deed::Deed;
use file_input::files::{read_rule, read_run};
use file_input::folders::{Program, for_each_folder};
use file_input::tell::tell_refusal;
use run_file::MOST_DEEDS;
use sheet::sheet::Sheet;
use sheet_watch::rehearsal::rehearse;
use sheet_watch::watching::SheetWatch;
use std::io;

fn show(rt: &HostRuntime, sheet: &Sheet, deeds: &[Deed]) -> io::Result<()> {
    let mut watch = SheetWatch::new(sheet);
    let before = rehearse(&mut watch, deeds);
    println!(rt; "{before} of {} deeds before the first barred", deeds.len())?;
    let Some(deed) = deeds.get(before) else {
        return println!(rt; "barred: none");
    };
    println!(rt;
        "barred: deed {before}, partner {}, signal {}, arguments {} and {}",
        deed.partner().value(),
        deed.signal(),
        deed.first(),
        deed.second()
    )
}

struct Rehearse;

impl Program for Rehearse {
    fn account(&self, rt: &HostRuntime, folder: &str) -> anyhow::Result<()> {
        let mut sheet = Sheet::blank();
        if let Err(fault) = read_rule(rt, folder, &mut sheet)? {
            return Ok(tell_refusal(rt, "sheet", fault)?);
        }
        let none = Deed::reading(0, 0, 0, 0);
        let mut deeds = [none; MOST_DEEDS];
        match read_run(rt, folder, &mut deeds)? {
            Ok(n) => Ok(show(rt, &sheet, &deeds[..n])?),
            Err(fault) => Ok(tell_refusal(rt, "run", fault)?),
        }
    }
}

fn main(rt: HostRuntime) -> anyhow::Result<()> {
    for_each_folder(&rt, &Rehearse)
}
