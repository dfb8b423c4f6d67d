// Commands as they are read: each case holds parts of the block, and the byte at which it begins.
ghost use Rattle.std.specs.Prelude.{◌+◌, ◌≤◌, length};

mod parse;

// The five cases stand here by the parts that spell them, and at `Entry` by their values: the store's rules want both.
#[derive(Clone, Copy)]
pub enum Command<'a> {
    Txn {
        at: usize,
        tid: &'a [u8; 8],
    },
    Put {
        at: usize,
        kind: u8,
        code: &'a [u8; 16],
        value: &'a [u8; 8],
    },
    Del {
        at: usize,
        kind: u8,
        code: &'a [u8; 16],
    },
    Row {
        at: usize,
        tid: &'a [u8; 8],
        kind: u8,
        code: &'a [u8; 16],
        value: &'a [u8; 8],
    },
    Gone {
        at: usize,
        tid: &'a [u8; 8],
        kind: u8,
        code: &'a [u8; 16],
    },
}

// The commands of a block, one after the other: what is left of its command bytes, and the byte where that begins.
#[derive(Clone, Copy)]
pub struct Commands<'a> {
    rest: &'a [u8],
    at: usize,
    // The sum stands behind them.
    ghost within: { at + length rest.now ≤ 510 },
}
