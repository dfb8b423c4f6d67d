// Transaction numbers: an epoch and a place within it. A TID is a plain number and no type of its own, since a block
// may hold any number in its place: so these are functions, and no conversions of a type.
ghost use Rattle.std.specs.Prelude.{◌≡◌};
ghost use Rattle.base.specs.Tids.{tid_of, epoch_of, sequence_of};

pub const SEQUENCES: u64 = 65_536;

// The TID of a place in an epoch.
pub fn tid_of(epoch: u32, sequence: u16) -> u64
    ensures value { result ≡ tid_of epoch sequence }
    ensures epoch_back { epoch_of result ≡ epoch }
    ensures sequence_back { sequence_of result ≡ sequence }
{
    epoch as u64 * SEQUENCES + sequence as u64
}

// The epoch of a TID; of any number, since a block may hold any.
pub fn epoch_of(tid: u64) -> u64
    ensures { result ≡ epoch_of tid }
{
    tid / SEQUENCES
}

// The place of a TID within its epoch.
pub fn sequence_of(tid: u64) -> u16
    ensures { result ≡ sequence_of tid }
{
    (tid % SEQUENCES) as u16
}
