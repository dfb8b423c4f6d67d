// The calls of a medium, on lanes: tests first, then one step on a file that exists.
ghost use Rattle.std.specs.Prelude.{◌≡◌, false};
ghost use Rattle.base.specs.Files.{index_of};
ghost use Rattle.medium.specs.Model.{count_of};
ghost use Rattle.medium.specs.Steps.{is_full, longer, all_synced, lacks, block_at, not_retirable, retired};
ghost use Rattle.lane.specs.Lanes.{lane_of, Shows};
ghost use Rattle.lane.specs.Laned.{meaning_of, file_in, Turns};

use super::Laned;
use crate::lane::Lane;
use crate::slots::Slots;
use base::file::File;
use base::refusal::Refusal;
use medium::mark::Mark;
use medium::media::Medium;

impl<S: Slots> Laned<S> {
    pub(super) fn lane(&self, file: File) -> Lane
        ensures is { result ≡ lane_of self.now.lanes.all (index_of file) }
        ensures shows { Shows (file_in self.now (index_of file)) result }
    {
        self.lanes.of(file)
    }

    fn is_full(&self, file: File) -> bool
        ensures { result ≡ is_full (file_in self.now (index_of file)) }
    {
        self.lane(file).is_full()
    }

    fn lacks(&self, file: File, number: u32) -> bool
        ensures { result ≡ lacks (file_in self.now (index_of file)) number }
    {
        self.lane(file).lacks(number)
    }

    fn holds(&self, file: File, number: u32) -> bool
        ensures { result ≡ not_retirable (file_in self.now (index_of file)) number }
    {
        self.lane(file).holds(number)
    }

    // Adds a block, and answers its number.
    pub(super) fn put(&mut self, file: File, block: &[u8; 512]) -> u32
        requires { is_full (file_in self.old (index_of file)) ≡ false }
        ensures number { result ≡ count_of (file_in self.old (index_of file)) }
        ensures after { Turns self.old self.new (index_of file) (longer (file_in self.old (index_of file)) block.now) }
    {
        let mut lane = self.lane(file);
        let number = lane.count;
        lane.count += 1;
        self.slots.fill(&mut self.lanes, file, lane, block);
        number
    }

    // Makes all blocks last, and answers how many numbers are synced.
    pub(super) fn settle(&mut self, file: File) -> u32
        ensures number { result ≡ count_of (file_in self.old (index_of file)) }
        ensures after { Turns self.old self.new (index_of file) (all_synced (file_in self.old (index_of file))) }
    {
        let mut lane = self.lane(file);
        lane.synced = lane.count;
        self.slots.narrow(&mut self.lanes, file, lane);
        lane.count
    }

    // Copies a kept block.
    fn read(&self, file: File, number: u32, into: &mut [u8; 512])
        requires { lacks (file_in self.now (index_of file)) number ≡ false }
        ensures { into.new ≡ block_at (file_in self.now (index_of file)) number into.old }
    {
        self.slots.read(&self.lanes, file, number, into);
    }

    // Lets go of the blocks below a number.
    fn release(&mut self, file: File, number: u32)
        requires { not_retirable (file_in self.old (index_of file)) number ≡ false }
        ensures { Turns self.old self.new (index_of file) (retired (file_in self.old (index_of file)) number) }
    {
        let mut lane = self.lane(file);
        lane.first = number;
        self.slots.narrow(&mut self.lanes, file, lane);
    }
}

impl<S: Slots> Medium for Laned<S> {
    ghost meaning = { meaning_of };

    ghost sound = { λ l. l.sound };

    fn append(&mut self, file: u8, block: &[u8; 512]) -> Result<u32, Refusal> {
        let file = File::try_from(file)?;
        if self.is_full(file) {
            return Err(Refusal::FileFull);
        }
        Ok(self.put(file, block))
    }

    fn sync(&mut self, file: u8) -> Result<u32, Refusal> {
        let file = File::try_from(file)?;
        Ok(self.settle(file))
    }

    fn fetch(&self, file: u8, number: u32, into: &mut [u8; 512]) -> Result<u32, Refusal> {
        let file = File::try_from(file)?;
        if self.lacks(file, number) {
            return Err(Refusal::NoSuchBlock);
        }
        self.read(file, number, into);
        Ok(number)
    }

    fn retire(&mut self, file: u8, number: u32) -> Result<u32, Refusal> {
        let file = File::try_from(file)?;
        if self.holds(file, number) {
            return Err(Refusal::RetireOutOfRange);
        }
        self.release(file, number);
        Ok(0)
    }

    fn set_mark(&mut self, mark: Mark) -> u32 {
        self.mark = mark;
        0
    }

    fn capacity(&self, file: u8) -> Result<u32, Refusal> {
        Ok(self.lane(File::try_from(file)?).capacity)
    }

    fn first(&self, file: u8) -> Result<u32, Refusal> {
        Ok(self.lane(File::try_from(file)?).first)
    }

    fn count(&self, file: u8) -> Result<u32, Refusal> {
        Ok(self.lane(File::try_from(file)?).count)
    }

    fn synced(&self, file: u8) -> Result<u32, Refusal> {
        Ok(self.lane(File::try_from(file)?).synced)
    }

    fn mark(&self) -> Mark {
        self.mark
    }
}
