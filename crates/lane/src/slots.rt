// What keeps the blocks of the lanes.
ghost use Rattle.std.specs.Prelude.{◌≡◌, ℕ, ◌-◌, false, List, slice_set};
ghost use Rattle.base.specs.Files.{index_of};
ghost use Rattle.lane.specs.declared.lane.Lane.{Lane};
ghost use Rattle.lane.specs.Lanes.{lane_of, slot, lane_lacks};
ghost use Rattle.lane.specs.Steps.{Grows, Narrows, Stays};

use crate::lane::Lane;
use crate::lanes::Lanes;
use base::file::File;

// A store of blocks by their slots. Each call asks that the store serves the lanes: store and lanes are two values
// here, so that one kind of lanes goes with every store, and `Laned` keeps it true of the two.
pub trait Slots {
    // The block in a slot.
    ghost cell: { Self → ℕ → List ℕ };

    // What the store keeps true while it holds the blocks of these lanes.
    ghost serves: { Self → List Lane → Type 0 };

    // Gives a file a lane with one number more, and stores a block in the slot of that number. That there is room the
    // longer lane shows.
    fn fill(&mut self, lanes: &mut Lanes, file: File, longer: Lane, block: &[u8; 512])
        requires serves { ∥ serves self.old lanes.old.all ∥₁ }
        requires longer { Grows (lane_of lanes.old.all (index_of file)) longer }
        ensures lanes { lanes.new.all ≡ slice_set lanes.old.all (index_of file) longer }
        ensures serves { ∥ serves self.new lanes.new.all ∥₁ }
        ensures filled { cell self.new (slot longer (longer.count - 1)) ≡ block.now }
        ensures others { Stays lanes.old.all (cell self.old) (cell self.new) };

    // Gives a file a lane with fewer numbers, and lets go of the blocks that it no longer has. Whoever narrows a lane
    // knows that it is narrower.
    fn narrow(&mut self, lanes: &mut Lanes, file: File, left: Lane)
        requires serves { ∥ serves self.old lanes.old.all ∥₁ }
        requires left { Narrows (lane_of lanes.old.all (index_of file)) left }
        ensures lanes { lanes.new.all ≡ slice_set lanes.old.all (index_of file) left }
        ensures serves { ∥ serves self.new lanes.new.all ∥₁ }
        ensures others { Stays lanes.old.all (cell self.old) (cell self.new) };

    // Copies a block that the file keeps, which the caller has looked up in the lane.
    fn read(&self, lanes: &Lanes, file: File, number: u32, into: &mut [u8; 512])
        requires serves { ∥ serves self.now lanes.now.all ∥₁ }
        requires kept { lane_lacks (lane_of lanes.now.all (index_of file)) number ≡ false }
        ensures { into.new ≡ cell self.now (slot (lane_of lanes.now.all (index_of file)) number) };
}
