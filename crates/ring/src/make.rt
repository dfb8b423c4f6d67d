// Making a ring, after the check that the memory suffices.
ghost use Rattle.std.specs.Prelude.{◌≡◌, ◌≤◌, length};
ghost use Rattle.ring.specs.Meaning.{meaning_of};
ghost use Rattle.medium.specs.Sound.{fresh_of, Fresh};

use crate::{Cells, Ring};
use lane::laned::Laned;
use lane::plan::Plan;

// An empty ring over the cells; it cannot fail. That they are as many as the plan takes, whoever passed their number to
// `plan_of` knows: the plan and the memory are two values, so the fact is asked of both.
pub fn make_ring<'a>(plan: Plan, cells: &'a mut [[u8; 512]]) -> Ring<'a>
    requires { plan.total ≤ length cells.old }
    ensures is { meaning_of result ≡ fresh_of plan.capacities }
    ensures fresh { Fresh (meaning_of result) }
{
    Laned::new(plan, Cells { cells })
}
