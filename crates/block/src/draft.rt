// A block in the making: what a logger fills until it is spilled.
ghost use Rattle.std.specs.Prelude.{◌≡◌, ◌+◌, ◌-◌, ◌≤◌, length, drop, replicate};

mod filling;

// The command bytes lie where the block will have them, and all behind them is zero, so that a block is one copy of
// the array: out of an `ArrayVec` of command bytes it would be a copy and a filling up with zeros.
#[derive(Clone, Copy)]
pub struct Draft {
    bytes: [u8; 512],
    used: usize,
    ghost room: { used ≤ 502 },
    ghost whole: { length bytes ≡ 512 },
    ghost clear: { drop (8 + used) bytes ≡ replicate (504 - used) 0 },
}
