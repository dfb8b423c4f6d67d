// The check of the memory for a pool, and the making after it.
ghost use Rattle.std.specs.Prelude.{◌≡◌, ◌+◌, ◌/◌, ◌≤◌, min, true, false, length, slice_index, EachIndex, OnOk, OnErr, IfOk, IfErr};
ghost use Rattle.lane.specs.Fits.{plan_fits};
ghost use Rattle.medium.specs.Sound.{fresh_of, Fresh};
ghost use Rattle.pool.specs.Meaning.{meaning_of};

use crate::{Pages, Pool};
use base::refusal::Refusal;
use lane::laned::Laned;
use lane::plan::{Plan, plan_of};

// Lays eight files out, if their capacities fit into so many pages, with two numbers for each page.
pub fn plan_pool(capacities: &[u32; 8], pages: usize, numbers: usize) -> Result<Plan, Refusal>
    ensures fits { OnOk result (plan_fits capacities.now (min pages (numbers / 2)) ≡ true) }
    ensures capacities { IfOk result (λ p. p.capacities ≡ capacities.now) }
    ensures paged { IfOk result (λ p. p.total ≤ pages) }
    ensures tabled { IfOk result (λ p. p.total + p.total ≤ numbers) }
    ensures unfit { OnErr result (plan_fits capacities.now (min pages (numbers / 2)) ≡ false) }
    ensures refusal { IfErr result (λ e. e ≡ Refusal.BadMemory) }
{
    plan_of(capacities, pages.min(numbers / 2))
}

// An empty pool over the pages; it cannot fail. That pages and table are as long as the plan takes, whoever passed
// their lengths to `plan_pool` knows: the plan and the memory are three values, so the fact is asked of all.
pub fn make_pool<'a>(plan: Plan, pages: &'a mut [[u8; 512]], table: &'a mut [u32]) -> Pool<'a>
    requires paged { plan.total ≤ length pages.old }
    requires tabled { plan.total + plan.total ≤ length table.old }
    ensures is { meaning_of result ≡ fresh_of plan.capacities }
    ensures fresh { Fresh (meaning_of result) }
{
    let total = plan.total;
    let slots = total as usize;
    number_pages(&mut table[slots..2 * slots]);
    Laned::new(
        plan,
        Pages {
            pages,
            table,
            total,
            spare: total,
        },
    )
}

// Makes every page spare.
fn number_pages(spares: &mut [u32])
    requires { length spares.old ≤ 32768 }
    ensures { EachIndex spares.new (λ k. slice_index spares.new k ≡ k) }
{
    for (page, place) in spares.iter_mut().enumerate() {
        *place = page as u32;
    }
}
