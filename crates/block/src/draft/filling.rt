// Filling a draft, and making a block of it.
ghost use Rattle.std.specs.Prelude.{◌≡◌, ◌+◌, ◌-◌, ◌≤◌, true, [], ◌++◌, length, take, ◌==◌};
ghost use Rattle.base.specs.Bytes.{be};
ghost use Rattle.block.specs.Drafts.{written, push_answer, push_after, seal_answer};
ghost use Rattle.block.specs.Fitting.{fits, room};
ghost use Rattle.block.specs.Fletcher.{fletcher16 as sum_of};
ghost use Rattle.block.specs.Filling.{GoesIn};
ghost use Rattle.block.specs.Format.{header, key_bytes, bytes_of, size_of, sealed};

use super::Draft;
use crate::address::Address;
use crate::entry::{DEL, Entry, GONE, PUT, ROW, TXN};
use crate::fletcher::fletcher16;
use crate::sizes::{BLOCK, COMMANDS, ROOM, SUM, TAG};
use base::key::Key;
use base::refusal::Refusal;

impl Draft {
    pub fn new() -> Draft
        ensures { written result ≡ [] }
    {
        Draft {
            bytes: [0; 512],
            used: 0,
        }
    }

    // Whether there is no command byte yet.
    pub fn is_empty(&self) -> bool
        ensures { result ≡ (length (written self.now) == 0) }
    {
        self.used == 0
    }

    fn left(&self) -> usize
        ensures { result ≡ 502 - self.now.used }
    {
        ROOM - self.used
    }

    // Whether so many command bytes more fit; if so, commands of so many bytes all go in, one after the other.
    pub fn has_room(&self, more: usize) -> bool
        ensures answer { result ≡ fits room (length (written self.now)) more }
        ensures fills { result ≡ true → GoesIn room (written self.now) more }
    {
        more <= self.left()
    }

    // Parts have a fixed length, so that each is laid down by one store.
    fn append<const N: usize>(&mut self, part: &[u8; N])
        requires { self.old.used + N ≤ 502 }
        ensures bytes { written self.new ≡ written self.old ++ part.now }
        ensures len { self.new.used ≡ self.old.used + N }
    {
        let at = COMMANDS + self.used;
        self.bytes[at..at + N].copy_from_slice(part);
        self.used = self.used + N;
    }

    fn append_key(&mut self, key: Key)
        requires { self.old.used + 17 ≤ 502 }
        ensures bytes { written self.new ≡ written self.old ++ key_bytes key }
        ensures len { self.new.used ≡ self.old.used + 17 }
    {
        self.append(&[key.kind]);
        self.append(&key.code.to_be_bytes());
    }

    fn append_entry(&mut self, what: Entry)
        requires { self.old.used + size_of what ≤ 502 }
        ensures bytes { written self.new ≡ written self.old ++ bytes_of what }
        ensures len { self.new.used ≡ self.old.used + size_of what }
    {
        match what {
            Entry::Txn { tid } => {
                self.append(&[TXN]);
                self.append(&tid.to_be_bytes());
            }
            Entry::Put { key, value } => {
                self.append(&[PUT]);
                self.append_key(key);
                self.append(&value.to_be_bytes());
            }
            Entry::Del { key } => {
                self.append(&[DEL]);
                self.append_key(key);
            }
            Entry::Row { tid, key, value } => {
                self.append(&[ROW]);
                self.append(&tid.to_be_bytes());
                self.append_key(key);
                self.append(&value.to_be_bytes());
            }
            Entry::Gone { tid, key } => {
                self.append(&[GONE]);
                self.append(&tid.to_be_bytes());
                self.append_key(key);
            }
        }
    }

    // One command more, exactly if it fits; answers the command bytes there are then.
    pub fn push(&mut self, what: Entry) -> Result<usize, Refusal>
        ensures answer { result ≡ push_answer (written self.old) what }
        ensures after { written self.new ≡ push_after (written self.old) what }
    {
        if !self.has_room(what.size()) {
            return Err(Refusal::NoRoomInBlock);
        }
        self.append_entry(what);
        Ok(self.used)
    }

    // The block of these commands, for a place in a file.
    pub fn seal(&self, at: Address) -> Result<[u8; 512], Refusal>
        ensures { result ≡ seal_answer at.file at.number (written self.now) }
    {
        at.check_file()?;
        Ok(self.image(at))
    }

    pub(crate) fn image(&self, at: Address) -> [u8; 512]
        ensures { result ≡ sealed at.file at.number (written self.now) }
    {
        let mut block = self.bytes;
        block[0..COMMANDS].copy_from_slice(&head(at, self.used as u16));
        let sum = sum_bytes(&block);
        block[SUM..BLOCK].copy_from_slice(&sum);
        block
    }
}

// The sum goes over every byte before it, padding included.
fn sum_bytes(block: &[u8; 512]) -> [u8; 2]
    ensures { result ≡ be 2 (sum_of (take 510 block.now)) }
{
    fletcher16(&block[0..SUM]).to_be_bytes()
}

fn head(at: Address, n: u16) -> [u8; 8]
    ensures { result ≡ header at.file n at.number }
{
    let n = n.to_be_bytes();
    let number = at.number.to_be_bytes();
    [
        TAG, at.file, n[0], n[1], number[0], number[1], number[2], number[3],
    ]
}
