// The pages as slots.
ghost use Rattle.std.specs.Prelude.{◌≡◌, slice_set};
ghost use Rattle.base.specs.Files.{index_of};
ghost use Rattle.lane.specs.Lanes.{lane_of};
ghost use Rattle.pool.specs.Pages.{page_of, Serves, Frees, SameBelow};

use crate::Pages;
use base::file::File;
use lane::lane::Lane;
use lane::lanes::Lanes;
use lane::slots::Slots;

impl<'a> Pages<'a> {
    // Gives a file a lane without one of its numbers, and makes the page of that number spare.
    fn free(&mut self, lanes: &mut Lanes, file: File, number: u32, rest: Lane)
        requires serves { ∥ Serves lanes.old.all self.old.total self.old.spare self.old.table.now ∥₁ }
        requires rest { Frees (lane_of lanes.old.all (index_of file)) rest number }
        ensures lanes { lanes.new.all ≡ slice_set lanes.old.all (index_of file) rest }
        ensures serves { ∥ Serves lanes.new.all self.new.total self.new.spare self.new.table.now ∥₁ }
        ensures pages { self.new.pages.now ≡ self.old.pages.now }
        ensures total { self.new.total ≡ self.old.total }
        ensures table { SameBelow self.old.total self.old.table.now self.new.table.now }
    {
        let page = self.table[rest.slot(number)];
        self.table[(self.total + self.spare) as usize] = page;
        self.spare += 1;
        lanes.replace(file, rest);
    }
}

impl<'a> Slots for Pages<'a> {
    ghost cell = { λ s n. page_of s.pages.now s.table.now n };

    ghost serves = { λ s ls. Serves ls s.total s.spare s.table.now };

    fn fill(&mut self, lanes: &mut Lanes, file: File, longer: Lane, block: &[u8; 512]) {
        let page = self.table[(self.total + self.spare - 1) as usize];
        self.pages[page as usize] = *block;
        self.table[longer.slot(longer.count - 1)] = page;
        self.spare -= 1;
        lanes.replace(file, longer);
    }

    // Numbers go one by one, those at the front first, since each gives its page back.
    fn narrow(&mut self, lanes: &mut Lanes, file: File, left: Lane) {
        for front in lanes.of(file).first..left.first {
            let mut lane = lanes.of(file);
            lane.first += 1;
            self.free(lanes, file, front, lane);
        }
        for back in (left.count..lanes.of(file).count).rev() {
            let mut lane = lanes.of(file);
            lane.count -= 1;
            self.free(lanes, file, back, lane);
        }
        lanes.replace(file, left);
    }

    fn read(&self, lanes: &Lanes, file: File, number: u32, into: &mut [u8; 512]) {
        let page = self.table[lanes.of(file).slot(number)];
        *into = self.pages[page as usize];
    }
}
