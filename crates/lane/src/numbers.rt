// What the numbers of a lane decide.
ghost use Rattle.std.specs.Prelude.{◌≡◌};
ghost use Rattle.lane.specs.Lanes.{slot, lane_full, lane_lacks, lane_holds};

use crate::lane::Lane;
use base::limits::LAST_COUNT;

impl Lane {
    // The slot of a block's number.
    pub fn slot(self, number: u32) -> usize
        ensures { result ≡ slot self number }
    {
        (self.base + number % self.capacity) as usize
    }

    // Whether no block can be added.
    pub fn is_full(self) -> bool
        ensures { result ≡ lane_full self }
    {
        self.count - self.first == self.capacity || self.count == LAST_COUNT
    }

    // Whether no block of this number is kept.
    pub fn lacks(self, number: u32) -> bool
        ensures { result ≡ lane_lacks self number }
    {
        number < self.first || number >= self.count
    }

    // Whether the blocks below this number have to stay.
    pub fn holds(self, number: u32) -> bool
        ensures { result ≡ lane_holds self number }
    {
        number < self.first || number > self.synced
    }
}
