use crate::Table;
use crate::record::Record;
use base::key::Key;
use base::refusal::Refusal;
use std::test::Fail;

fn key(kind: u8, code: u128) -> Key {
    Key { kind, code }
}

fn written(key: Key, tid: u64) -> Record {
    Record {
        key,
        tid,
        value: Some(-7),
        holder: None,
    }
}

fn tid(found: Option<Record>) -> Option<u64> {
    found.map(|r| r.tid)
}

// Keys 1 of kind 0, 9 of kind 0 and 0 of kind 2, put out of order.
fn three(rt: &HostRuntime) -> Result<Table, Fail> {
    let mut table = Table::new(rt.alloc())?;
    table.put(written(key(2, 0), 30))?;
    table.put(written(key(0, 9), 20))?;
    table.put(written(key(0, 1), 10))?;
    Ok(table)
}

#[test]
fn puts_in_order(rt: HostRuntime) -> Result<(), Fail> {
    let table = three(&rt)?;
    assert_eq!(rt; table.len(), 3);
    assert_eq!(rt; tid(table.record_at(0)), Some(10));
    assert_eq!(rt; tid(table.record_at(1)), Some(20));
    assert_eq!(rt; tid(table.record_at(2)), Some(30));
    assert_eq!(rt; tid(table.record_at(3)), None);
    Ok(())
}

#[test]
fn replaces_and_removes(rt: HostRuntime) -> Result<(), Fail> {
    let mut table = three(&rt)?;
    table.put(written(key(0, 9), 21))?;
    assert_eq!(rt; table.len(), 3);
    assert_eq!(rt; tid(table.find(key(0, 9))), Some(21));
    assert_eq!(rt; tid(table.find(key(1, 9))), None);
    assert_eq!(rt; tid(table.remove(key(0, 9))), Some(21));
    assert_eq!(rt; tid(table.remove(key(0, 9))), None);
    assert_eq!(rt; tid(table.find(key(2, 0))), Some(30));
    table.clear();
    assert_eq!(rt; table.len(), 0);
    Ok(())
}

#[test]
fn walks_all(rt: HostRuntime) -> Result<(), Fail> {
    let table = three(&rt)?;
    assert_eq!(rt; tid(table.next_behind(None)), Some(10));
    assert_eq!(rt; tid(table.next_behind(Some(key(0, 1)))), Some(20));
    assert_eq!(rt; tid(table.next_behind(Some(key(1, 5)))), Some(30));
    assert_eq!(rt; tid(table.next_behind(Some(key(2, 0)))), None);
    Ok(())
}

#[test]
fn refuses_one_too_many(rt: HostRuntime) -> Result<(), Fail> {
    let mut table = Table::new(rt.alloc())?;
    for code in 0..256u64 {
        table.put(written(key(3, code as u128), 5))?;
    }
    assert_eq!(rt; table.put(written(key(1, 0), 6)), Err(Refusal::TableFull));
    assert_eq!(rt; table.len(), 256);
    assert_eq!(rt; tid(table.find(key(1, 0))), None);
    table.put(written(key(3, 200), 7))?;
    assert_eq!(rt; tid(table.find(key(3, 200))), Some(7));
    Ok(())
}
