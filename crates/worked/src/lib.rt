//! The worked cases of the rules: what sheets forbid and how a gate answers, proved of the definitions.
#![tactic(auto)]

ghost use Rattle.worked.specs.Cases.{WorkedCases};

/// Does nothing: that the worked cases hold of the definitions is its contract.
pub fn worked_cases()
    ensures { WorkedCases }
{}
