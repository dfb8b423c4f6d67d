// The layout of a block, in bytes.

// The first byte of every block.
pub const TAG: u8 = 0x42;
// Command bytes begin here, behind the header.
pub const COMMANDS: usize = 8;
// A block has room for so many command bytes.
pub const ROOM: usize = 502;
// The sum stands here, behind all that it goes over.
pub const SUM: usize = 510;
// All of it.
pub const BLOCK: usize = 512;
