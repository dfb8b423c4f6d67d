// The numbers that bound everything.
ghost use Rattle.std.specs.Prelude.{◌≡◌};
ghost use Rattle.base.specs.Limits.{value_fits, epoch_fits};

// A value is whole seconds within these two.
pub const LEAST_VALUE: i64 = -1_000_000_000;

pub const GREATEST_VALUE: i64 = 1_000_000_000;

// Epochs go from 1 to this one.
pub const LAST_EPOCH: u64 = 1_000_000;

// A table holds at most so many records, a transaction reads and writes at most so many keys.
pub const MAX_RECORDS: usize = 256;

pub const MAX_KEYS: usize = 16;

// Workers, loggers and checkpoint parts are numbered from 0 to 3, files from 0 to 7, key kinds from 0 to 3.
pub const WORKERS: usize = 4;

pub const LOG_FILES: u8 = 4;

pub const FILES: usize = 8;

pub const LAST_KIND: u8 = 3;

// A file keeps at most so many blocks, and numbers none from this count on.
pub const MAX_CAPACITY: u32 = 4_096;

pub const LAST_COUNT: u32 = 16_777_215;

pub fn value_fits(value: i64) -> bool
    ensures { result ≡ value_fits value }
{
    (LEAST_VALUE..=GREATEST_VALUE).contains(&value)
}

pub fn epoch_fits(epoch: u64) -> bool
    ensures { result ≡ epoch_fits epoch }
{
    (1..=LAST_EPOCH).contains(&epoch)
}
