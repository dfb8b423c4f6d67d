// Writing a block of commands in one go.
ghost use Rattle.std.specs.Prelude.{◌≡◌};
ghost use Rattle.block.specs.declared.writer.WriteError.TheVariants.{Refused as refused, Faulty as faulty};

use base::fault::BlockFault;
use base::refusal::Refusal;

mod write;

pub use write::write_block;

// Why there is no block: a refusal of the call, or the fault that a reader would find in it.
#[derive(Clone, Copy, PartialEq, Debug)]
pub enum WriteError {
    Refused(Refusal),
    Faulty(BlockFault),
}

impl From<Refusal> for WriteError {
    ghost from_gives = { λ e r. r ≡ refused e };

    fn from(e: Refusal) -> WriteError {
        WriteError::Refused(e)
    }
}

impl From<BlockFault> for WriteError {
    ghost from_gives = { λ e r. r ≡ faulty e };

    fn from(e: BlockFault) -> WriteError {
        WriteError::Faulty(e)
    }
}
