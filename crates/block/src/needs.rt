// What a transaction needs in a block.
ghost use Rattle.std.specs.Prelude.{◌≡◌};
ghost use Rattle.block.specs.Fitting.{needed};
ghost use Rattle.block.specs.Filling.{Counts};

// The command bytes of a transaction with so many writes and erases; without both it has no command.
pub fn needed_bytes(writes: u32, erases: u32) -> u64
    ensures bytes { result ≡ needed writes erases }
    ensures counts { Counts writes erases result }
{
    if writes as u64 + erases as u64 == 0 {
        return 0;
    }
    9 + 26 * writes as u64 + 18 * erases as u64
}
