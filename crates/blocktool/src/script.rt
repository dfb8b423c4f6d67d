// The text that the tool reads: a command to a line.
use base::group::Group;
use base::key::{Key, Slot};
use base::limits::LAST_EPOCH;
use base::tid::tid_of;
use block::address::Address;
use block::entry::Entry;
use std::alloc::{AllocError, Global};
use std::num::ParseIntError;
use thiserror::Error;

// What is wrong with a line.
#[derive(Clone, Copy, Debug, Error)]
pub enum Mistake {
    #[error("no such command, or too few or too many words")]
    Words,
    #[error("not a number, or one out of range")]
    Number,
    #[error("a key is `slot NUMBER` or `group TEXT`")]
    Kind,
    #[error("a group has 1 to 16 bytes")]
    Group,
    #[error("`block FILE NUMBER` comes first")]
    BlockFirst,
    #[error("there is one `block` line")]
    BlockOnce,
    #[error("no memory")]
    Memory(#[from(alloc)] AllocError),
}

// Without the error itself, which is no `Copy`.
impl From<ParseIntError> for Mistake {
    fn from(_e: ParseIntError) -> Mistake {
        Mistake::Number
    }
}

#[derive(Clone, Copy)]
enum Line {
    Blank,
    Block(Address),
    Marked(u32),
    Command(Entry),
}

#[derive(Drop)]
pub struct Script {
    // The place that a block is written for.
    pub target: Option<Address>,
    pub marked: u32,
    pub entries: Vec<Entry>,
}

fn parse_group(text: &[u8]) -> Result<Key, Mistake> {
    Group::try_from(text)
        .map(|group| Key::from(&group))
        .map_err(|_| Mistake::Group)
}

fn parse_key(kind: &str, name: &str) -> Result<Key, Mistake> {
    match kind {
        "slot" => Ok(Key::from(&Slot {
            number: name.parse::<u64>()?,
        })),
        "group" => parse_group(name.as_bytes()),
        _ => Err(Mistake::Kind),
    }
}

fn parse_tid(epoch: &str, sequence: &str) -> Result<u64, Mistake> {
    Ok(tid_of(epoch.parse::<u32>()?, sequence.parse::<u16>()?))
}

// A line by its words; what stands behind a `#` is not read.
fn parse_line(heap: Global, text: &str) -> Result<Line, Mistake> {
    let said = text.split('#').next().unwrap_or("");
    let words = said.split_whitespace().collect::<Vec<&str>>(heap)?;
    match words.as_slice() {
        [] => Ok(Line::Blank),
        ["block", file, number] => Ok(Line::Block(Address {
            file: file.parse::<u8>()?,
            number: number.parse::<u32>()?,
        })),
        ["marked", epoch] => Ok(Line::Marked(epoch.parse::<u32>()?)),
        ["txn", epoch, sequence] => Ok(Line::Command(Entry::Txn {
            tid: parse_tid(epoch, sequence)?,
        })),
        ["put", kind, name, seconds] => {
            Ok(Line::Command(Entry::Put {
                key: parse_key(kind, name)?,
                value: seconds.parse::<i64>()?,
            }))
        }
        ["del", kind, name] => Ok(Line::Command(Entry::Del {
            key: parse_key(kind, name)?,
        })),
        ["row", epoch, sequence, kind, name, seconds] => {
            Ok(Line::Command(Entry::Row {
                tid: parse_tid(epoch, sequence)?,
                key: parse_key(kind, name)?,
                value: seconds.parse::<i64>()?,
            }))
        }
        ["gone", epoch, sequence, kind, name] => {
            Ok(Line::Command(Entry::Gone {
                tid: parse_tid(epoch, sequence)?,
                key: parse_key(kind, name)?,
            }))
        }
        _ => Err(Mistake::Words),
    }
}

impl Script {
    // Rows of every epoch are read unless a line says otherwise.
    pub(crate) fn new(heap: Global) -> Script {
        Script {
            target: None,
            marked: LAST_EPOCH as u32,
            entries: Vec::new(heap),
        }
    }

    // One line more.
    pub(crate) fn take(&mut self, heap: Global, text: &str) -> Result<(), Mistake> {
        match (parse_line(heap, text)?, self.target) {
            (Line::Blank, _) => Ok(()),
            (Line::Block(target), None) => {
                self.target = Some(target);
                Ok(())
            }
            (Line::Block(_), Some(_)) => Err(Mistake::BlockOnce),
            (_, None) => Err(Mistake::BlockFirst),
            (Line::Marked(epoch), Some(_)) => {
                self.marked = epoch;
                Ok(())
            }
            (Line::Command(entry), Some(_)) => Ok(self.entries.push(entry)?),
        }
    }
}
