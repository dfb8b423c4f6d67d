// A command by its values, as it is written.
ghost use Rattle.std.specs.Prelude.{◌≡◌};
ghost use Rattle.block.specs.Format.{size_of};

use base::key::Key;

#[derive(Clone, Copy, PartialEq, Debug)]
pub enum Entry {
    Txn { tid: u64 },
    Put { key: Key, value: i64 },
    Del { key: Key },
    Row { tid: u64, key: Key, value: i64 },
    Gone { tid: u64, key: Key },
}

// The first byte of each command. Constants and no enum: each is written and read in one place, beside its command, and
// a block may hold any other byte.
pub const TXN: u8 = 0x01;

pub const PUT: u8 = 0x02;

pub const DEL: u8 = 0x03;

pub const ROW: u8 = 0x04;

pub const GONE: u8 = 0x05;

impl Entry {
    // The bytes that it takes in a block.
    pub fn size(&self) -> usize
        ensures { result ≡ size_of self.now }
    {
        match self {
            Entry::Txn { .. } => 9,
            Entry::Put { .. } => 26,
            Entry::Del { .. } => 18,
            Entry::Row { .. } => 34,
            Entry::Gone { .. } => 26,
        }
    }
}
