// A cut: each file in turn keeps what is synced, and shows its part of the tails.
ghost use Rattle.std.specs.Prelude.{◌≡◌, ◌+◌, ◌-◌, ◌≤◌, min, length, take};
ghost use Rattle.base.specs.Files.{index_of};
ghost use Rattle.medium.specs.Model.{count_of};
ghost use Rattle.medium.specs.Cuts.{trimmed, extended, unsynced, cut_file, cut_after, Cut};
ghost use Rattle.lane.specs.Laned.{meaning_of, file_in, Turns};

use super::Laned;
use crate::slots::Slots;
use base::file::File;
use medium::cuttable::Cuttable;

impl<S: Slots> Laned<S> {
    // Lets go of all that is not synced, and answers how many blocks that was.
    fn truncate(&mut self, file: File) -> u32
        ensures number { result ≡ unsynced (file_in self.old (index_of file)) }
        ensures after { Turns self.old self.new (index_of file) (trimmed (file_in self.old (index_of file)) ((file_in self.old (index_of file)).synced - (file_in self.old (index_of file)).first)) }
    {
        let mut lane = self.lane(file);
        let many = lane.count - lane.synced;
        lane.count -= many;
        self.slots.narrow(&mut self.lanes, file, lane);
        many
    }

    // Adds these blocks.
    fn refill(&mut self, file: File, tail: &[[u8; 512]])
        requires room { length (file_in self.old (index_of file)).kept + length tail.now ≤ (file_in self.old (index_of file)).capacity }
        requires numbers { count_of (file_in self.old (index_of file)) + length tail.now ≤ 16777215 }
        ensures { Turns self.old self.new (index_of file) (extended (file_in self.old (index_of file)) tail.now) }
    {
        for block in tail {
            self.put(file, block);
        }
    }

    // Cuts one file, which shows so many of the tails, or all that it had unsynced if that is less.
    fn cut_file(&mut self, file: File, shown: u32, tails: &[[u8; 512]])
        ensures { Turns self.old self.new (index_of file) (cut_file (file_in self.old (index_of file)) (take (min shown (unsynced (file_in self.old (index_of file)))) tails.now)) }
    {
        let lost = self.truncate(file);
        let many = (shown.min(lost) as usize).min(tails.len());
        self.refill(file, &tails[..many]);
        self.settle(file);
    }

    // Cuts all files.
    fn cut_all(&mut self, shown: &[u32; 8], tails: &[[u8; 512]])
        ensures after { meaning_of self.new ≡ cut_after (meaning_of self.old) shown.now tails.now }
        ensures allowed { Cut (meaning_of self.old) (meaning_of self.new) }
    {
        let mut rest = tails;
        for (&file, &many) in File::all().iter().zip(shown) {
            self.cut_file(file, many, rest);
            rest = &rest[(many as usize).min(rest.len())..];
        }
    }
}

impl<S: Slots> Cuttable for Laned<S> {
    fn cut(&mut self, shown: &[u32; 8], tails: &[[u8; 512]]) {
        self.cut_all(shown, tails)
    }
}
