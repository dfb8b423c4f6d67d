// A medium in lent memory: a ring of blocks for each file.
#![tactic(auto)]

use lane::laned::Laned;

mod make;
mod slots;

pub use make::make_ring;

// Slots that are lent blocks themselves.
#[derive(Drop)]
pub struct Cells<'a> {
    cells: &'a mut [[u8; 512]],
}

// Each file has a stretch of the cells of its own, and uses it in turn.
pub type Ring<'a> = Laned<Cells<'a>>;
