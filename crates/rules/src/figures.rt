// Computed checks of the rules, as clauses of functions that do nothing else.
ghost use Rattle.rules.specs.Figures.{Figures};
ghost use Rattle.rules.specs.SmallNights.{SmallNights};

// The numbers that the rules must give, computed by the checker.
pub fn figures_hold() -> bool
    ensures { Figures }
{
    true
}

// Seven nights with their cuts and recoveries, played by the checker.
pub fn small_nights_hold() -> bool
    ensures { SmallNights }
{
    true
}
