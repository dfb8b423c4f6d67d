// Blocks changed behind the writer's back, and what the reader and the writer say of them.
#![tactic(auto)]

ghost use Rattle.std.specs.Prelude.{◌≡◌, slice_set};
ghost use Rattle.blocktests.specs.Damage.{resealed};

use block::fletcher::fletcher16;
use block::sizes::SUM;

#[cfg(test)]
mod tests;

// The block with the sum that it should have.
pub fn reseal(block: [u8; 512]) -> [u8; 512]
    ensures { result ≡ resealed block }
{
    let mut right = block;
    let [high, low] = fletcher16(&block[0..SUM]).to_be_bytes();
    right[SUM] = high;
    right[SUM + 1] = low;
    right
}

// The block with another byte at one place; past its end there is none.
pub fn damage(block: [u8; 512], at: usize, byte: u8) -> [u8; 512]
    ensures { result ≡ slice_set block at byte }
{
    let mut wrong = block;
    // A test of the place and no `get_mut`: tried, and the check left open what then stands behind the reference.
    if at < wrong.len() {
        wrong[at] = byte;
    }
    wrong
}
