// Laws over all rules. Each is the clause of a function that does nothing else, since a clause is what a check wants
// proved.
ghost use Rattle.rules.specs.Laws.{RefusalsChangeNothing, OneChangeAtMost, EitherOrder, OnlyLargerReplaces, EpochNeverFalls, OpensSo, MarkedAsAnswered};

// A refused call leaves the store, its medium and its results as they were.
pub fn refusals_change_nothing() -> bool
    ensures { RefusalsChangeNothing }
{
    true
}

// A call changes the medium at most once, so a cut inside it is one before or after it.
pub fn one_change_at_most() -> bool
    ensures { OneChangeAtMost }
{
    true
}

// Replayed blocks may come in any order, since any two versions may, and one that is not newer changes nothing.
pub fn versions_in_either_order() -> bool
    ensures order { EitherOrder }
    ensures larger { OnlyLargerReplaces }
{
    true
}

// The last persist's answer is the epoch on the mark, however many calls were refused in between.
pub fn marked_as_answered() -> bool
    ensures { MarkedAsAnswered }
{
    true
}

// The marked epoch never falls, whatever is called, and always lies before what is still under way.
pub fn epoch_never_falls() -> bool
    ensures falls { EpochNeverFalls }
    ensures opens { OpensSo }
{
    true
}
