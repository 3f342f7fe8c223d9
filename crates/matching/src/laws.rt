// A law of reductions that is no call's own: what a policy that keeps its laws draws is determined by the relation alone.
ghost use Rattle.matching.specs.Drawn.{OneAnswer};

// No two lists of draws answer one reduction, and no two lists of lots are left.
pub fn one_answer()
    ensures { OneAnswer }
{}
