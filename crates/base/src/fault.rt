// Faults: a refusal with the place where it arose, and the fault of the layer below that caused it.
ghost use Rattle.std.specs.Prelude.{◌≡◌};
ghost use Rattle.base.specs.Faults.{raised};

use crate::refusal::Refusal;
use std::convert::Infallible;
use std::fmt;

// The layers that a fault passes on its way up.
#[derive(Clone, Copy, PartialEq, Eq, Debug)]
pub enum Layer {
    Medium,
    Block,
    Replay,
}

// Where a fault arose: the byte is the first of the wrong field, command or padding, the epoch the one last read in
// the block. Each number is 0 if there is none, and no option: so the store's rules give a fault its numbers.
#[derive(Clone, Copy, PartialEq, Eq, Debug)]
pub struct Place {
    pub file: u8,
    pub block: u32,
    pub byte: u16,
    pub epoch: u32,
}

// A fault of one layer, with the fault of the layer below that caused it, if one did. The cause stands first: with it
// last, a writer whose checks find nothing was measured to take an eighth longer.
#[derive(Clone, Copy, PartialEq)]
pub struct Fault<Cause> {
    pub cause: Option<Cause>,
    pub at: Place,
    pub refusal: Refusal,
}

// Below the medium there is no layer.
pub type MediumFault = Fault<Infallible>;

pub type BlockFault = Fault<MediumFault>;

pub type ReplayFault = Fault<BlockFault>;

// Each layer's name is a constant of its fault: a trait with that constant would be one item more for the same three.
impl MediumFault {
    pub const LAYER: Layer = Layer::Medium;
}

impl BlockFault {
    pub const LAYER: Layer = Layer::Block;
}

impl ReplayFault {
    pub const LAYER: Layer = Layer::Replay;
}

// A fault met by the layer above.
impl<Cause: Copy> From<Fault<Cause>> for Fault<Fault<Cause>> {
    ghost from_gives = { λ e r. r ≡ raised e };

    fn from(below: Fault<Cause>) -> Fault<Fault<Cause>> {
        Fault {
            refusal: below.refusal,
            at: below.at,
            cause: Some(below),
        }
    }
}

impl<Cause: fmt::Debug> Fault<Cause> {
    fn show<W: fmt::Write>(&self, name: &str, f: &mut fmt::Formatter<W>) -> fmt::Result {
        f.debug_struct(name)
            .field("refusal", &self.refusal)
            .field("at", &self.at)
            .field("cause", &self.cause)
            .finish()
    }
}

// By hand, so that each fault is printed under the name of its layer; a medium's has no cause to show.
impl fmt::Debug for MediumFault {
    fn fmt<W: fmt::Write>(&self, f: &mut fmt::Formatter<W>) -> fmt::Result {
        f.debug_struct("MediumFault")
            .field("refusal", &self.refusal)
            .field("at", &self.at)
            .finish()
    }
}

impl fmt::Debug for BlockFault {
    fn fmt<W: fmt::Write>(&self, f: &mut fmt::Formatter<W>) -> fmt::Result {
        self.show("BlockFault", f)
    }
}

impl fmt::Debug for ReplayFault {
    fn fmt<W: fmt::Write>(&self, f: &mut fmt::Formatter<W>) -> fmt::Result {
        self.show("ReplayFault", f)
    }
}
