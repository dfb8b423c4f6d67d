// Calls and their answers, as values: a list of calls is something that a program can hold.
use base::key::Key;
use base::refusal::Refusal;

// One call of a store. A worker stands for the ticket that it has; a held result goes by the number that install
// answered. Workers, loggers, files and parts are plain numbers: a call with a number that is too large is a call too,
// and refused.
#[derive(Clone, Copy, PartialEq, Eq, Debug)]
pub enum Call {
    Begin { worker: u8 },
    Read { worker: u8, key: Key },
    Write { worker: u8, key: Key, value: i64 },
    Erase { worker: u8, key: Key },
    Lock { worker: u8 },
    Validate { worker: u8 },
    Install { worker: u8 },
    Abandon { worker: u8 },
    Advance,
    Spill { logger: u8 },
    Sync { file: u8 },
    Persist,
    Release { result: u64 },
    Void { result: u64 },
    CheckpointStart,
    CheckpointStep { part: u8 },
    CheckpointClose,
    Retire { file: u8 },
    Value { key: Key },
}

// What a call that is not refused tells.
#[derive(Clone, Copy, PartialEq, Eq, Debug)]
pub enum Reply {
    Number(u64),
    // A value, or absence.
    Cell(Option<i64>),
}

pub type Answer = Result<Reply, Refusal>;

// A call with its answer.
#[derive(Clone, Copy, PartialEq, Eq, Debug)]
pub struct Event {
    pub call: Call,
    pub answer: Answer,
}
