// What may be wrong with a command, for the writer and the reader alike.
ghost use Rattle.std.specs.Prelude.{◌≡◌, ◌^◌, ◌<◌, ◌≤◌, OnOk};
ghost use Rattle.block.specs.Checks.{placed, wrong_field, wrong_tid, wrong_row, wrong_kind, wrong_value, epoch_or, epoch_after, start, onward, entry_fault, passed};
ghost use Rattle.block.specs.Laws.{Coded};

use crate::address::Address;
use crate::entry::Entry;
use crate::way::Way;
use base::fault::BlockFault;
use base::key::Key;
use base::limits::{LAST_KIND, LOG_FILES, epoch_fits, value_fits};
use base::refusal::Refusal;
use base::tid::epoch_of;

// Whether a command may stand here: transactions in logs, each TXN before its writes, and rows in parts.
fn is_placed(file: u8, opened: bool, what: &Entry) -> bool
    ensures { result ≡ placed file opened what.now }
{
    let log = file < LOG_FILES;
    match what {
        Entry::Txn { .. } => log,
        Entry::Put { .. } | Entry::Del { .. } => log && opened,
        Entry::Row { .. } | Entry::Gone { .. } => !log,
    }
}

fn wrong_tid(tid: u64) -> Option<u16>
    ensures { result ≡ wrong_tid tid }
{
    (!epoch_fits(epoch_of(tid))).then_some(1)
}

fn wrong_row(marked: u32, tid: u64) -> Option<u16>
    ensures { result ≡ wrong_row marked tid }
{
    wrong_tid(tid).or((epoch_of(tid) > marked as u64).then_some(1))
}

// `coded` is what the type of a code says: that a written block reads back rests on it.
fn wrong_kind(at: u16, key: Key) -> Option<u16>
    ensures answer { result ≡ wrong_kind at key }
    ensures coded { key.code < 2 ^ 128 }
{
    (key.kind > LAST_KIND).then_some(at)
}

fn wrong_value(at: u16, value: i64) -> Option<u16>
    ensures { result ≡ wrong_value at value }
{
    (!value_fits(value)).then_some(at)
}

// The first field of a command that is out of range, by its place in the command.
fn wrong_field(marked: u32, what: &Entry) -> Option<u16>
    ensures answer { result ≡ wrong_field marked what.now }
    ensures coded { Coded what.now }
{
    match *what {
        Entry::Txn { tid } => wrong_tid(tid),
        Entry::Put { key, value } => wrong_kind(1, key).or(wrong_value(18, value)),
        Entry::Del { key } => wrong_kind(1, key),
        Entry::Row { tid, key, value } => wrong_row(marked, tid)
            .or(wrong_kind(9, key))
            .or(wrong_value(26, value)),
        Entry::Gone { tid, key } => wrong_row(marked, tid).or(wrong_kind(9, key)),
    }
}

// The epoch of a TID, or the epoch read before if it is none.
fn epoch_or(epoch: u32, tid: u64) -> u32
    ensures { result ≡ epoch_or epoch tid }
{
    let read = epoch_of(tid);
    if epoch_fits(read) { read as u32 } else { epoch }
}

fn epoch_after(epoch: u32, what: &Entry) -> u32
    ensures { result ≡ epoch_after epoch what.now }
{
    match *what {
        Entry::Txn { tid } | Entry::Row { tid, .. } | Entry::Gone { tid, .. } => {
            epoch_or(epoch, tid)
        }
        Entry::Put { .. } | Entry::Del { .. } => epoch,
    }
}

impl Way {
    pub(crate) fn start() -> Way
        ensures { result ≡ start }
    {
        Way {
            at: 8,
            epoch: 0,
            opened: false,
        }
    }

    pub(crate) fn onward(self, what: &Entry) -> Way
        requires { self.at ≤ 510 }
        ensures { result ≡ onward self what.now }
    {
        let opened = matches!(what, Entry::Txn { .. }) || self.opened;
        Way {
            at: self.at + what.size() as u16,
            epoch: epoch_after(self.epoch, what),
            opened,
        }
    }
}

// What is wrong with a command: its place, else a field of it.
pub(crate) fn check_entry(
    at: Address,
    marked: u32,
    way: Way,
    what: &Entry,
) -> Result<(), BlockFault>
    requires { way.at ≤ 510 }
    ensures answer { result ≡ passed tt (entry_fault at.file at.number marked way what.now) }
    ensures coded { OnOk result (Coded what.now) }
{
    if !is_placed(at.file, way.opened, what) {
        return Err(at.fault(Refusal::MisplacedCommand, way.at, way.epoch));
    }
    // A match and no `map_or`: that the sum of the two places fits is shown here, and a closure would have to ask for
    // it.
    match wrong_field(marked, what) {
        None => Ok(()),
        Some(i) => Err(at.fault(
            Refusal::FieldOutOfRange,
            way.at + i,
            epoch_after(way.epoch, what),
        )),
    }
}
