//! The folders that a program is to work in.
use crate::tell::tell_folder;
use std::env;
use std::rt::Env;

/// The folders that a program is to work in, each as what stands before the name of a file in it: those that its arguments
/// name, or the current folder where there are none.
pub fn folders<R: Env + AllocGlobal>(rt: &R) -> anyhow::Result<Vec<String>> {
    let heap = rt.alloc();
    let mut all = Vec::new(heap);
    for folder in env::args(rt)?.skip(1) {
        all.push(format!(in heap; "{folder}/")?)?;
    }
    if all.is_empty() {
        all.push(String::new(heap))?;
    }
    Ok(all)
}

/// A program that gives an account of each folder.
// Stays: a trait and no closure: who takes a closure asks that it may be called, and calls of libraries ask nothing.
pub trait Program {
    fn account(&self, rt: &HostRuntime, folder: &str) -> anyhow::Result<()>;
}

/// Gives the account of each folder that the program is to work in, under its name, up to the first that fails.
pub fn for_each_folder<P: Program>(rt: &HostRuntime, program: &P) -> anyhow::Result<()> {
    for folder in folders(rt)?.iter() {
        tell_folder(rt, folder.as_str())?;
        program.account(rt, folder.as_str())?;
    }
    Ok(())
}
