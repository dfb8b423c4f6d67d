// A table of records, sorted by key, in memory that is got once.
#![tactic(auto)]

ghost use Rattle.std.specs.Prelude.{◌≡◌, ◌≤◌, true, length, vec_capacity};
ghost use Rattle.table.specs.Order.{sorted, most_records};

mod calls;
pub mod record;
#[cfg(test)]
mod tests;

use crate::record::Record;
use std::marker::Model;

// A sorted Vec and no BTreeMap: a map gets memory with each new key, so a put could fail for want of it. By `room`
// none asks for any.
#[derive(Drop)]
pub struct Table {
    records: Vec<Record>,
    ghost ordered: { sorted records.items ≡ true },
    ghost few: { length records.items ≤ most_records },
    ghost room: { most_records ≤ vec_capacity records },
}

impl Model for Table {
    ghost use Rattle.table.specs.View.{SortedRecords};

    ghost Value = { SortedRecords };

    ghost view = { λ t. record { records = t.records.items; ordered = t.ordered; few = t.few } };
}
