// What a table does.
ghost use Rattle.std.specs.Prelude.{◌≡◌, [], length, IfOk};
ghost use Rattle.std.specs.List.{slice_get};
ghost use Rattle.table.specs.Order.{before};
ghost use Rattle.table.specs.Places.{Placed};
ghost use Rattle.table.specs.Records.{look, take_out, next_behind};
ghost use Rattle.table.specs.View.{put_answer, put_after};

use crate::Table;
use crate::record::Record;
use base::key::Key;
use base::limits::MAX_RECORDS;
use base::refusal::Refusal;
use std::alloc::{AllocError, Global};

impl Table {
    // Gets all the memory that the table will ever use.
    pub fn new(heap: Global) -> Result<Table, AllocError>
        ensures { IfOk result (λ t. t.records ≡ []) }
    {
        let records = Vec::with_capacity(heap, MAX_RECORDS)?;
        Ok(Table { records })
    }

    pub fn len(&self) -> usize
        ensures { result ≡ length self.now.records }
    {
        self.records.len()
    }

    pub fn record_at(&self, index: usize) -> Option<Record>
        ensures { result ≡ slice_get self.now.records index }
    {
        self.records.get(index).copied()
    }

    // Where a key stands, or where it would be put. A search that asks for less alone, and then once for equality: one
    // that compares in three ways (`binary_search_by_key`) was measured to take a put up to 1.4 times as long.
    #[tactic(auto, using(crate::proofs::Keys::key_lt))]
    fn search(&self, key: Key) -> Result<usize, usize>
        ensures { Placed key self.now.records result }
    {
        let at = self.records.partition_point(
            |record: &Record| -> bool
                ensures { result ≡ before record.now.key key }
            { record.key < key },
        );
        match self.records.get(at) {
            Some(record) if record.key == key => Ok(at),
            _ => Err(at),
        }
    }

    pub fn find(&self, key: Key) -> Option<Record>
        ensures { result ≡ look key self.now.records }
    {
        match self.search(key) {
            Ok(at) => Some(self.records[at]),
            Err(_) => None,
        }
    }

    // The first record behind a key, or the first of all: by this a walk goes on from the key that it reached.
    #[tactic(auto, using(crate::proofs::Nexts::next_first))]
    pub fn next_behind(&self, key: Option<Key>) -> Option<Record>
        ensures { result ≡ next_behind key self.now.records }
    {
        match key {
            None => self.record_at(0),
            Some(last) => match self.search(last) {
                Ok(at) => self.record_at(at + 1),
                Err(at) => self.record_at(at),
            },
        }
    }

    // Refused only if the key is new and the table is full.
    pub fn put(&mut self, fresh: Record) -> Result<(), Refusal>
        ensures answer { result ≡ put_answer fresh self.old.records }
        ensures after { self.new.records ≡ put_after fresh self.old.records }
    {
        match self.search(fresh.key) {
            Ok(at) => self.records[at] = fresh,
            Err(_) if self.len() >= MAX_RECORDS => return Err(Refusal::TableFull),
            // The memory is there since `new`, so this is never refused.
            Err(at) => {
                let _ = self.records.insert(at, fresh);
            }
        }
        Ok(())
    }

    pub fn remove(&mut self, key: Key) -> Option<Record>
        ensures answer { result ≡ look key self.old.records }
        ensures after { self.new.records ≡ take_out key self.old.records }
    {
        match self.search(key) {
            Ok(at) => Some(self.records.remove(at)),
            Err(_) => None,
        }
    }

    pub fn clear(&mut self)
        ensures { self.new.records ≡ [] }
    {
        self.records.clear();
    }
}
