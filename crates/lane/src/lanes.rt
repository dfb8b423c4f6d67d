// The lanes of the eight files.
ghost use Rattle.std.specs.Prelude.{◌≡◌, length};
ghost use Rattle.lane.specs.Lanes.{Apart};

use crate::lane::Lane;
use base::file::File;

// Lanes that lie one after the other.
#[derive(Clone, Copy)]
pub struct Lanes {
    pub all: [Lane; 8],
    ghost eight: { length all ≡ 8 },
    ghost apart: { Apart all },
}

impl Lanes {
    ghost use Rattle.std.specs.Prelude.{slice_set};
    ghost use Rattle.base.specs.Files.{index_of};
    ghost use Rattle.lane.specs.Lanes.{lane_of};
    ghost use Rattle.lane.specs.Steps.{SamePlace};

    // The lane of a file.
    pub fn of(&self, file: File) -> Lane
        ensures { result ≡ lane_of self.now.all (index_of file) }
    {
        self.all[file.index()]
    }

    // Gives a file another lane of the same slots, which whoever turns a lane into another knows.
    pub fn replace(&mut self, file: File, lane: Lane)
        requires { SamePlace (lane_of self.old.all (index_of file)) lane }
        ensures { self.new.all ≡ slice_set self.old.all (index_of file) lane }
    {
        let place = file.index();
        self.all[place] = lane;
    }
}
