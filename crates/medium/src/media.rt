// The calls of a medium.
ghost use Rattle.std.specs.Prelude.{◌≡◌};
ghost use Rattle.medium.specs.Model.{MediumModel};
ghost use Rattle.medium.specs.Sound.{Sound};
ghost use Rattle.medium.specs.Steps.{append_answer, append_after, sync_answer, sync_after, fetch_answer, fetch_into, retire_answer, retire_after, set_mark_after, capacity_answer, first_answer, count_answer, synced_answer};

use crate::mark::Mark;
use base::refusal::Refusal;

// Files go by plain numbers: a call with one that is too large is a call too, and refused. That retire and set-mark
// answer 0 is a rule of the store.
pub trait Medium {
    ghost meaning: { Self → MediumModel };

    // Adds a block, and answers its number.
    fn append(&mut self, file: u8, block: &[u8; 512]) -> Result<u32, Refusal>
        ensures answer { result ≡ append_answer (meaning self.old) file }
        ensures after { meaning self.new ≡ append_after (meaning self.old) file block.now };

    // Makes every block of the file last, and answers how many numbers are synced.
    fn sync(&mut self, file: u8) -> Result<u32, Refusal>
        ensures answer { result ≡ sync_answer (meaning self.old) file }
        ensures after { meaning self.new ≡ sync_after (meaning self.old) file };

    // Copies a block into the buffer, and answers its number.
    fn fetch(&self, file: u8, number: u32, into: &mut [u8; 512]) -> Result<u32, Refusal>
        ensures answer { result ≡ fetch_answer (meaning self.now) file number }
        ensures after { into.new ≡ fetch_into (meaning self.now) file number into.old };

    // Lets go of the blocks below a number, and answers 0.
    fn retire(&mut self, file: u8, number: u32) -> Result<u32, Refusal>
        ensures answer { result ≡ retire_answer (meaning self.old) file number }
        ensures after { meaning self.new ≡ retire_after (meaning self.old) file number };

    // Replaces the whole mark, and answers 0.
    fn set_mark(&mut self, mark: Mark) -> u32
        ensures answer { result ≡ 0 }
        ensures after { meaning self.new ≡ set_mark_after (meaning self.old) mark };

    fn capacity(&self, file: u8) -> Result<u32, Refusal>
        ensures answer { result ≡ capacity_answer (meaning self.now) file };

    fn first(&self, file: u8) -> Result<u32, Refusal>
        ensures answer { result ≡ first_answer (meaning self.now) file };

    fn count(&self, file: u8) -> Result<u32, Refusal>
        ensures answer { result ≡ count_answer (meaning self.now) file };

    fn synced(&self, file: u8) -> Result<u32, Refusal>
        ensures answer { result ≡ synced_answer (meaning self.now) file };

    fn mark(&self) -> Mark
        ensures answer { result ≡ (meaning self.now).mark };

    // Every medium is sound.
    ghost sound: { (m : Self) → Sound (meaning m) };
}

// A medium that is lent is a medium.
impl<'m, M: Medium> Medium for &'m mut M {
    ghost meaning = { λ t. M.Medium.meaning t.now };

    ghost sound = { λ t. M.Medium.sound t.now };

    fn append(&mut self, file: u8, block: &[u8; 512]) -> Result<u32, Refusal> {
        (**self).append(file, block)
    }

    fn sync(&mut self, file: u8) -> Result<u32, Refusal> {
        (**self).sync(file)
    }

    fn fetch(&self, file: u8, number: u32, into: &mut [u8; 512]) -> Result<u32, Refusal> {
        (**self).fetch(file, number, into)
    }

    fn retire(&mut self, file: u8, number: u32) -> Result<u32, Refusal> {
        (**self).retire(file, number)
    }

    fn set_mark(&mut self, mark: Mark) -> u32 {
        (**self).set_mark(mark)
    }

    fn capacity(&self, file: u8) -> Result<u32, Refusal> {
        (**self).capacity(file)
    }

    fn first(&self, file: u8) -> Result<u32, Refusal> {
        (**self).first(file)
    }

    fn count(&self, file: u8) -> Result<u32, Refusal> {
        (**self).count(file)
    }

    fn synced(&self, file: u8) -> Result<u32, Refusal> {
        (**self).synced(file)
    }

    fn mark(&self) -> Mark {
        (**self).mark()
    }
}
