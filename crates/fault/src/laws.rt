//! What the definitions of the checks mean.
ghost use Rattle.fault.specs.Laws.{LowestMeans};

/// The lowest index that a test picks is the lowest, and none is picked where the test holds nowhere.
pub fn lowest_is_lowest()
    ensures { LowestMeans }
{}
