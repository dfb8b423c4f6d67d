// A lane: one file's slots and its numbers.
ghost use Rattle.std.specs.Prelude.{◌+◌, ◌<◌, ◌≤◌};

// The slots from `base` on, used in turn.
#[derive(Clone, Copy)]
pub struct Lane {
    pub base: u32,
    pub capacity: u32,
    pub first: u32,
    pub count: u32,
    pub synced: u32,
    ghost some: { 0 < capacity },
    ghost few: { capacity ≤ 4096 },
    ghost low: { base + capacity ≤ 32768 },
    ghost dropped: { first ≤ synced },
    ghost lasting: { synced ≤ count },
    ghost room: { count ≤ first + capacity },
    ghost most: { count ≤ 16777215 },
}
