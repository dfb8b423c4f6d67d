// A sum over any medium.
ghost use Rattle.std.specs.Prelude.{◌≡◌};
ghost use Rattle.mediumdemo.specs.Tally.{tally_answer};

use base::refusal::Refusal;
use medium::media::Medium;

// The first bytes of all kept blocks of a file, added up.
pub fn tally<M: Medium>(m: &M, file: u8) -> Result<u32, Refusal>
    ensures { result ≡ tally_answer (M.meaning m.now) file }
{
    let first = m.first(file)?;
    let count = m.count(file)?;
    let mut block = [0u8; 512];
    let mut sum: u32 = 0;
    for n in first..count {
        m.fetch(file, n, &mut block)?;
        sum += block[0] as u32;
    }
    Ok(sum)
}
