//! Runs the deeds of `run.dds` through a gate: under the rule sheet `rule.sht`, over a board; both files in the current folder, or
//! in each folder that is named.
#![tactic(auto)]

use answers::files::{Refused, answer_files};
use file_input::files::{RUN_BYTES, SHEET_BYTES, rule_bytes, run_bytes};
use file_input::folders::{Program, for_each_folder};
use file_input::tell::tell_refusal;
use gate::answer::Answer;
use gate::ask::Reply;
use run_file::MOST_DEEDS;
use std::io;

// Prints the answers and how many deeds were done.
fn show(rt: &HostRuntime, replies: &[Reply]) -> io::Result<()> {
    for (i, reply) in replies.iter().enumerate() {
        if let Reply::Answered(answer) = reply {
            println!(rt; "{i} {}", answer.number())?;
        }
    }
    let done = replies
        .iter()
        .filter(|reply| matches!(reply, Reply::Answered(Answer::Done)))
        .count();
    println!(rt; "done {done}")
}

fn refuse(rt: &HostRuntime, refused: Refused) -> io::Result<()> {
    match refused {
        Refused::Sheet(fault) => tell_refusal(rt, "sheet", fault),
        Refused::Run(fault) => tell_refusal(rt, "run", fault),
    }
}

struct Gaterun;

impl Program for Gaterun {
    fn account(&self, rt: &HostRuntime, folder: &str) -> anyhow::Result<()> {
        let mut rule = [0; SHEET_BYTES];
        let rule_len = rule_bytes(rt, folder, &mut rule)?;
        let mut run = [0; RUN_BYTES];
        let run_len = run_bytes(rt, folder, &mut run)?;
        let mut replies = [Reply::Answered(Answer::Declined); MOST_DEEDS];
        match answer_files(&rule[..rule_len], &run[..run_len], &mut replies) {
            Ok(account) => Ok(show(rt, &replies[..account.many])?),
            Err(refused) => Ok(refuse(rt, refused)?),
        }
    }
}

fn main(rt: HostRuntime) -> anyhow::Result<()> {
    for_each_folder(&rt, &Gaterun)
}
