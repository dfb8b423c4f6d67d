// The check of capacities against memory.
ghost use Rattle.std.specs.Prelude.{◌≡◌, ◌+◌, ◌<◌, ◌≤◌, true, false, length, sum, OnOk, OnErr, IfOk, IfErr};
ghost use Rattle.lane.specs.Fits.{plan_fits};
ghost use Rattle.lane.specs.Lanes.{Inside, Sized, Unused};

use crate::lane::Lane;
use crate::lanes::Lanes;
use base::limits::MAX_CAPACITY;
use base::refusal::Refusal;

// Eight empty lanes, and how many slots they take. The capacities stand beside the lanes, which have them too, since
// whoever makes a medium of the plan is promised these capacities and sees no lane.
#[derive(Clone, Copy)]
pub struct Plan {
    pub capacities: [u32; 8],
    pub lanes: Lanes,
    pub total: u32,
    ghost all: { length capacities ≡ 8 },
    ghost sized: { Sized lanes.all capacities },
    ghost inside: { Inside lanes.all total },
    ghost few: { total ≤ 32768 },
    ghost unused: { Unused lanes.all },
}

fn empty_lane(base: u32, capacity: u32) -> Lane
    requires some { 0 < capacity }
    requires few { capacity ≤ 4096 }
    requires low { base + capacity ≤ 32768 }
    ensures base { result.base ≡ base }
    ensures capacity { result.capacity ≡ capacity }
    ensures first { result.first ≡ 0 }
    ensures count { result.count ≡ 0 }
    ensures synced { result.synced ≡ 0 }
{
    Lane {
        base,
        capacity,
        first: 0,
        count: 0,
        synced: 0,
    }
}

// Lays eight files out, if each capacity is 1 to 4,096 and all fit into the slots.
pub fn plan_of(capacities: &[u32; 8], slots: usize) -> Result<Plan, Refusal>
    ensures fits { OnOk result (plan_fits capacities.now slots ≡ true) }
    ensures capacities { IfOk result (λ p. p.capacities ≡ capacities.now) }
    ensures total { IfOk result (λ p. p.total ≡ sum capacities.now) }
    ensures within { IfOk result (λ p. p.total ≤ slots) }
    ensures unfit { OnErr result (plan_fits capacities.now slots ≡ false) }
    ensures refusal { IfErr result (λ e. e ≡ Refusal.BadMemory) }
{
    let mut all = [empty_lane(0, 1); 8];
    let mut next: u32 = 0;
    // By index: a loop over `all.iter_mut().zip(..)` was tried, and of the lanes that it wrote no proof can speak.
    for (i, &capacity) in capacities.iter().enumerate() {
        if capacity == 0 || capacity > MAX_CAPACITY {
            return Err(Refusal::BadMemory);
        }
        all[i] = empty_lane(next, capacity);
        next += capacity;
    }
    if next as usize > slots {
        return Err(Refusal::BadMemory);
    }
    Ok(Plan {
        capacities: *capacities,
        lanes: Lanes { all },
        total: next,
    })
}
