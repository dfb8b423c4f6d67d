// The cells as slots.
ghost use Rattle.std.specs.Prelude.{length};
ghost use Rattle.lane.specs.Lanes.{Inside};
ghost use Rattle.ring.specs.Cells.{cell_of};

use crate::Cells;
use base::file::File;
use lane::lane::Lane;
use lane::lanes::Lanes;
use lane::slots::Slots;

impl<'a> Slots for Cells<'a> {
    ghost cell = { λ s n. cell_of s.cells.now n };

    ghost serves = { λ s ls. Inside ls (length s.cells.now) };

    fn fill(&mut self, lanes: &mut Lanes, file: File, longer: Lane, block: &[u8; 512]) {
        self.cells[longer.slot(longer.count - 1)] = *block;
        lanes.replace(file, longer);
    }

    fn narrow(&mut self, lanes: &mut Lanes, file: File, left: Lane) {
        lanes.replace(file, left);
    }

    fn read(&self, lanes: &Lanes, file: File, number: u32, into: &mut [u8; 512]) {
        *into = self.cells[lanes.of(file).slot(number)];
    }
}
