// A medium made of lanes, and of a store that keeps their blocks.
ghost use Rattle.lane.specs.Meaning.{model_of};
ghost use Rattle.medium.specs.Sound.{Sound};

use crate::lanes::Lanes;
use crate::plan::Plan;
use crate::slots::Slots;
use medium::mark::Mark;

mod cut;
mod media;

#[derive(Drop)]
pub struct Laned<S: Slots> {
    slots: S,
    lanes: Lanes,
    mark: Mark,
    ghost serves: { ∥ S.serves slots lanes.all ∥₁ },
    ghost sound: { Sound (model_of (S.cell slots) lanes.all mark) },
}

impl<S: Slots> Laned<S> {
    ghost use Rattle.std.specs.Prelude.{◌≡◌};
    ghost use Rattle.medium.specs.Sound.{fresh_of, Fresh};
    ghost use Rattle.lane.specs.Laned.{meaning_of};

    // The fresh medium of a plan, in a store that serves the plan's lanes: whoever made the store for the plan knows
    // that it does.
    pub fn new(plan: Plan, slots: S) -> Laned<S>
        requires { ∥ S.serves slots plan.lanes.all ∥₁ }
        ensures is { meaning_of result ≡ fresh_of plan.capacities }
        ensures fresh { Fresh (meaning_of result) }
    {
        Laned {
            slots,
            lanes: plan.lanes,
            mark: Mark::zeros(),
        }
    }
}
