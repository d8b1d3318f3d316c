//! What the definitions mean.
ghost use Rattle.sheet.specs.Laws.{MeaningReads, EmptyMeans, EmptyRuleMeans};

/// The runs of a fragment are those of its kind over the runs of its parts.
pub fn meaning_reads()
    ensures { MeaningReads }
{}

/// The test of emptiness says which marks the runs over the empty list have.
pub fn emptiness_means()
    ensures { EmptyMeans }
{}

/// The rule about the empty list refuses exactly where that is a negative trace.
pub fn empty_rule_means()
    ensures { EmptyRuleMeans }
{}
