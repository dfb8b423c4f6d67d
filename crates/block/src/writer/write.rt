// The writer.
ghost use Rattle.std.specs.Prelude.{◌≡◌};
ghost use Rattle.block.specs.Writing.{write_answer, ReadsAsWritten};

use super::WriteError;
use crate::address::Address;
use crate::checks::check_entry;
use crate::draft::Draft;
use crate::entry::Entry;
use crate::way::Way;
use base::limits::LAST_EPOCH;

// The block of some commands at a place of a file, exactly if each of them may stand there and all fit.
pub fn write_block(at: Address, entries: &[Entry]) -> Result<[u8; 512], WriteError>
    ensures answer { result ≡ write_answer at.file at.number entries.now }
    ensures back { ReadsAsWritten at.file at.number entries.now result }
{
    at.check_file()?;
    let mut draft = Draft::new();
    let mut way = Way::start();
    for what in entries {
        check_entry(at, LAST_EPOCH as u32, way, what)?;
        draft.push(*what)?;
        way = way.onward(what);
    }
    Ok(draft.image(at))
}
