//! What the definitions mean.
ghost use Rattle.followers.specs.Laws.{FindsNegatives};

/// First steps and followers find the negative traces of a sheet, and nothing else.
pub fn followers_find_negatives()
    ensures { FindsNegatives }
{}
