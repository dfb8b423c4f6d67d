// Where a block stands, and the faults that are found there.
ghost use Rattle.std.specs.Prelude.{◌≡◌, cond, nat_lt};
ghost use Rattle.base.specs.declared.refusal.Refusal.TheVariants.{NoSuchIndex};
ghost use Rattle.block.specs.Checks.{fault, fault_at, passed};

use base::fault::{BlockFault, Place};
use base::file::File;
use base::refusal::Refusal;

// A file, and the number of a block in it. Any number may be asked for or stand in a block, so the file is no `File`.
#[derive(Clone, Copy, PartialEq, Eq, Debug)]
pub struct Address {
    pub file: u8,
    pub number: u32,
}

impl Address {
    // Files are numbered from 0 to 7.
    pub(crate) fn check_file(self) -> Result<(), Refusal>
        ensures { result ≡ cond (nat_lt 7 self.file) (Err NoSuchIndex) (Ok tt) }
    {
        File::try_from(self.file).map(|_| ())
    }

    pub(crate) fn fault(self, refusal: Refusal, byte: u16, epoch: u32) -> BlockFault
        ensures { result ≡ fault self.file self.number refusal byte epoch }
    {
        BlockFault {
            refusal,
            at: Place {
                file: self.file,
                block: self.number,
                byte,
                epoch,
            },
            cause: None,
        }
    }

    // A check that found nothing passes; a byte that it found is a fault.
    pub(crate) fn pass(self, refusal: Refusal, found: Option<u16>) -> Result<(), BlockFault>
        ensures { result ≡ passed tt (fault_at self.file self.number refusal 0 0 found) }
    {
        found.map_or(Ok(()), |byte| Err(self.fault(refusal, byte, 0)))
    }
}
