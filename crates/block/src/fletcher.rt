// Fletcher-16, with the remainders taken once for each run of bytes instead of at every byte.
ghost use Rattle.std.specs.Prelude.{◌≡◌, ◌+◌, ◌*◌, ◌<◌, ◌≤◌, length, fold};
ghost use Rattle.block.specs.Fletcher.{Sums as Remainders, add_byte, fletcher16};

use std::marker::Model;

// Both sums of up to so many bytes fit 32 bits.
const RUN: usize = 4_096;

#[derive(Drop)]
struct Sums {
    low: u32,
    high: u32,
}

// Between two runs both sums are remainders.
impl Model for Sums {
    ghost Value = { Remainders };

    ghost view = { λ s. record { low = s.low; high = s.high } };

    ghost invariant = { λ s. (s.low < 255) × (s.high < 255) };
}

impl Sums {
    // Both sums, one run of bytes further.
    fn add_run(self, run: &[u8]) -> Sums
        requires { length run.now ≤ 4096 }
        ensures { result ≡ fold add_byte self run.now }
    {
        let mut low = self.low;
        let mut high = self.high;
        for b in run {
            low += *b as u32;
            high += low;
        }
        Sums {
            low: low % 255,
            high: high % 255,
        }
    }

    // The second sum first.
    fn joined(&self) -> u16
        ensures { result ≡ self.now.high * 256 + self.now.low }
    {
        (self.high * 256 + self.low) as u16
    }
}

// The sum of any bytes.
#[tactic(auto, unfolding(crate::specs::Fletcher::fletcher16, crate::specs::Fletcher::sums))]
pub fn fletcher16(bytes: &[u8]) -> u16
    ensures { result ≡ fletcher16 bytes.now }
{
    let mut sums = Sums { low: 0, high: 0 };
    for run in bytes.chunks(RUN) {
        sums = sums.add_run(run);
    }
    sums.joined()
}
