// A medium in lent memory: one pool of pages, which all files share.
#![tactic(auto)]

ghost use Rattle.std.specs.Prelude.{◌+◌, ◌≤◌, length};

use lane::laned::Laned;

mod make;
mod slots;

pub use make::{make_pool, plan_pool};

// Slots that are numbers of pages. The table holds the number of the page in each slot, and behind the slots a stack of
// the spare pages, `spare` of them: it is lent memory of a fixed size, so the stack is not a Vec.
#[derive(Drop)]
pub struct Pages<'a> {
    pages: &'a mut [[u8; 512]],
    table: &'a mut [u32],
    total: u32,
    spare: u32,
    ghost few: { total ≤ 32768 },
    ghost paged: { total ≤ length pages.now },
    ghost tabled: { total + total ≤ length table.now },
    ghost room: { spare ≤ total },
}

// A slot takes whichever page is spare, and gives it back.
pub type Pool<'a> = Laned<Pages<'a>>;
