// A way through the commands of a block.

// The byte come to, the epoch last read (0 if none was, as a fault says it), and whether a TXN came. In specs the way
// of any commands goes on past a block's end, so that the bound on `at` is asked by the two functions that need it, and
// is no ghost field.
#[derive(Clone, Copy)]
pub struct Way {
    pub at: u16,
    pub epoch: u32,
    pub opened: bool,
}
