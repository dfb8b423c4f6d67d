// Commands, faults and blocks as text.
use base::fault::BlockFault;
use base::key::Key;
use base::tid::{epoch_of, sequence_of};
use block::entry::Entry;
use std::fmt;

// A value of another crate, as this tool prints it.
#[derive(Clone, Copy)]
pub(crate) struct Shown<T>(pub(crate) T);

impl fmt::Display for Shown<Key> {
    fn fmt<W: fmt::Write>(&self, f: &mut fmt::Formatter<W>) -> fmt::Result {
        let Key { kind, code } = self.0;
        // Kinds are open, and go by their numbers: this tool knows the names of two.
        match kind {
            0 => write!(f, "slot {code}"),
            1 => {
                f.write_str("group ")?;
                for b in code.to_be_bytes() {
                    if b == 0 {
                        break;
                    }
                    f.write_char(char::from(b))?;
                }
                Ok(())
            }
            _ => write!(f, "kind {kind} code {code}"),
        }
    }
}

// A transaction by its number.
#[derive(Clone, Copy)]
struct Transaction(u64);

impl fmt::Display for Transaction {
    fn fmt<W: fmt::Write>(&self, f: &mut fmt::Formatter<W>) -> fmt::Result {
        write!(
            f,
            "epoch {} sequence {}",
            epoch_of(self.0),
            sequence_of(self.0)
        )
    }
}

impl fmt::Display for Shown<Entry> {
    fn fmt<W: fmt::Write>(&self, f: &mut fmt::Formatter<W>) -> fmt::Result {
        match self.0 {
            Entry::Txn { tid } => write!(f, "TXN {}", Transaction(tid)),
            Entry::Put { key, value } => write!(f, "PUT {}, {value} seconds", Shown(key)),
            Entry::Del { key } => write!(f, "DEL {}", Shown(key)),
            Entry::Row { tid, key, value } => {
                write!(
                    f,
                    "ROW {}: {}, {value} seconds",
                    Transaction(tid),
                    Shown(key)
                )
            }
            Entry::Gone { tid, key } => write!(f, "GONE {}: {}", Transaction(tid), Shown(key)),
        }
    }
}

impl fmt::Display for Shown<BlockFault> {
    fn fmt<W: fmt::Write>(&self, f: &mut fmt::Formatter<W>) -> fmt::Result {
        let BlockFault { refusal, at, .. } = self.0;
        write!(
            f,
            "{} {refusal:?}, layer {:?}",
            refusal.number(),
            BlockFault::LAYER
        )?;
        write!(
            f,
            ", file {}, block {}, byte {}, epoch {}",
            at.file, at.block, at.byte, at.epoch
        )
    }
}

// Bytes in hexadecimal digits, a space in front of each.
#[derive(Clone, Copy)]
pub(crate) struct Hex<'a>(pub(crate) &'a [u8]);

impl fmt::Display for Hex<'_> {
    fn fmt<W: fmt::Write>(&self, f: &mut fmt::Formatter<W>) -> fmt::Result {
        for b in self.0 {
            write!(f, " {b:02x}")?;
        }
        Ok(())
    }
}
