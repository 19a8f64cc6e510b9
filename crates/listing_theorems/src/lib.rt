// What the steps of `listing` put together are: the records one after the other, the lines of a stretch in whatever parts, the list asked on with
// whatever slices, and all of a run.
#![tactic(auto)]

ghost use Rattle.listing_theorems.specs.Whole.{Whole};

// Put together they are what the definition says.
pub fn listing_whole()
    ensures { Whole }
{}
