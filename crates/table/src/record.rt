// Records: what a table holds of a key.
use base::key::Key;

#[derive(Clone, Copy)]
pub struct Record {
    pub key: Key,
    // The transaction that wrote it last.
    pub tid: u64,
    // No value: the key is absent, as after a removal.
    pub value: Option<i64>,
    // The worker that holds it locked, if any does.
    pub holder: Option<u8>,
}
