// What the reader and the writer of blocks say, of right blocks and of wrong ones.
use super::{damage, reseal};
use base::fault::{BlockFault, Place};
use base::key::Key;
use base::refusal::Refusal;
use base::tid::tid_of;
use block::address::Address;
use block::draft::Draft;
use block::entry::Entry;
use block::fletcher::fletcher16;
use block::reader::read;
use block::writer::{WriteError, write_block};
use std::alloc::{AllocError, Global};
use std::process::Abort;
use std::test::Fail;

const NUMBER: u32 = 7;

const MARKED: u32 = 1_000_000;

const SLOT: Key = Key { kind: 0, code: 7 };

const GROUP: Key = Key {
    kind: 1,
    code: 0x4d33_3100_0000_0000_0000_0000_0000_0000,
};

const WRONG_KIND: Key = Key { kind: 4, code: 7 };

fn address(file: u8) -> Address {
    Address {
        file,
        number: NUMBER,
    }
}

fn txn(tid: u64) -> Entry {
    Entry::Txn { tid }
}

fn put(key: Key, value: i64) -> Entry {
    Entry::Put { key, value }
}

fn del(key: Key) -> Entry {
    Entry::Del { key }
}

fn row(tid: u64, key: Key, value: i64) -> Entry {
    Entry::Row { tid, key, value }
}

fn gone(tid: u64, key: Key) -> Entry {
    Entry::Gone { tid, key }
}

// A number of transactions, then of writes and erases.
fn log_entries(heap: Global, txns: u8, puts: u8, dels: u8) -> Result<Vec<Entry>, AllocError> {
    let mut entries = Vec::new(heap);
    for i in 0..txns {
        entries.push(txn(tid_of(3, u16::from(i))))?;
    }
    for i in 0..puts {
        entries.push(put(SLOT, i64::from(i) - 5))?;
    }
    for i in 0..dels {
        entries.push(del(Key {
            kind: 2,
            code: u128::from(i),
        }))?;
    }
    Ok(entries)
}

// A number of rows, then of erased ones.
fn part_entries(heap: Global, rows: u8, erased: u8) -> Result<Vec<Entry>, AllocError> {
    let mut entries = Vec::new(heap);
    for i in 0..rows {
        entries.push(row(tid_of(2, u16::from(i)), SLOT, i64::from(i) - 5))?;
    }
    for i in 0..erased {
        let key = Key {
            kind: 3,
            code: u128::from(i),
        };
        entries.push(gone(tid_of(2, u16::from(i)), key))?;
    }
    Ok(entries)
}

// Written, a block is read as the same commands, and as many bytes as they take.
fn comes_back(rt: &impl Abort, file: u8, entries: &[Entry], bytes: u16) -> Result<(), Fail> {
    let block = write_block(address(file), entries)?;
    assert_eq!(rt; u16::from_be_bytes([block[2], block[3]]), bytes);
    let commands = read(&block, address(file), MARKED)?;
    assert!(rt;
        commands
            .map(|command| command.entry())
            .eq(entries.iter().copied())
    );
    Ok(())
}

fn fault(file: u8, refusal: Refusal, byte: u16, epoch: u32) -> BlockFault {
    BlockFault {
        refusal,
        at: Place {
            file,
            block: NUMBER,
            byte,
            epoch,
        },
        cause: None,
    }
}

fn is_refused(
    rt: &impl Abort,
    block: &[u8; 512],
    marked: u32,
    wanted: BlockFault,
) -> Result<(), Fail> {
    let at = Address {
        file: wanted.at.file,
        number: wanted.at.block,
    };
    assert_eq!(rt; read(block, at, marked).err(), Some(wanted));
    Ok(())
}

// A block of these commands, whatever they are.
fn draft_of(file: u8, entries: &[Entry]) -> Result<[u8; 512], Refusal> {
    let mut draft = Draft::new();
    for entry in entries {
        draft.push(*entry)?;
    }
    draft.seal(address(file))
}

#[test]
fn sum_of_five_letters(rt: HostRuntime) {
    assert_eq!(rt; fletcher16(b"abcde"), 0xc8f0);
    assert_eq!(rt; fletcher16(b""), 0);
}

// Empty, one command, full, and as near to full as commands come.
#[test]
fn blocks_come_back(rt: HostRuntime) -> Result<(), Fail> {
    let heap = rt.alloc();
    for (txns, puts, dels, bytes) in [
        (0u8, 0u8, 0u8, 0u16),
        (1, 0, 0, 9),
        (2, 11, 11, 502),
        (1, 12, 10, 501),
    ] {
        comes_back(
            &rt,
            0,
            log_entries(heap, txns, puts, dels)?.as_slice(),
            bytes,
        )?;
    }
    for (rows, erased, bytes) in [
        (0u8, 0u8, 0u16),
        (1, 0, 34),
        (0, 1, 26),
        (1, 18, 502),
        (4, 14, 500),
    ] {
        comes_back(&rt, 4, part_entries(heap, rows, erased)?.as_slice(), bytes)?;
    }
    Ok(())
}

// One command more than fits, and a file that there is not.
#[test]
fn calls_are_refused(rt: HostRuntime) -> Result<(), Fail> {
    let heap = rt.alloc();
    let no_room = WriteError::Refused(Refusal::NoRoomInBlock);
    for (txns, puts, dels) in [(3u8, 11u8, 11u8), (2, 12, 10), (1, 12, 11)] {
        assert_eq!(rt;
            write_block(address(3), log_entries(heap, txns, puts, dels)?.as_slice()),
            Err(no_room)
        );
    }
    for (rows, erased) in [(1u8, 19u8), (4, 15), (15, 0)] {
        assert_eq!(rt;
            write_block(address(7), part_entries(heap, rows, erased)?.as_slice()),
            Err(no_room)
        );
    }
    assert_eq!(rt;
        write_block(address(8), &[]),
        Err(WriteError::Refused(Refusal::NoSuchIndex))
    );
    Ok(())
}

// Each pair of commands, in a block of its own, gives the reader and the writer the same fault.
fn both_refuse(rt: &impl Abort, pairs: &[(Entry, Entry, BlockFault)]) -> Result<(), Fail> {
    for (first, second, wanted) in pairs {
        let entries = [*first, *second];
        let block = draft_of(wanted.at.file, &entries)?;
        is_refused(rt, &block, MARKED, *wanted)?;
        assert_eq!(rt;
            write_block(address(wanted.at.file), &entries),
            Err(WriteError::Faulty(*wanted))
        );
    }
    Ok(())
}

// Commands that may not stand where they stand.
fn misplaced_ones_are_refused(rt: &impl Abort) -> Result<(), Fail> {
    let begin = txn(tid_of(3, 0));
    let write = put(SLOT, 900);
    let kept = row(tid_of(2, 5), SLOT, 900);
    let misplaced = Refusal::MisplacedCommand;
    both_refuse(
        rt,
        &[
            (write, write, fault(0, misplaced, 8, 0)),
            (del(GROUP), write, fault(3, misplaced, 8, 0)),
            (begin, kept, fault(0, misplaced, 17, 3)),
            (begin, gone(tid_of(2, 5), GROUP), fault(0, misplaced, 17, 3)),
            (kept, begin, fault(4, misplaced, 42, 2)),
            (kept, write, fault(7, misplaced, 42, 2)),
            (kept, del(GROUP), fault(4, misplaced, 42, 2)),
        ],
    )
}

// Commands of a log with a field out of range.
fn log_fields_are_refused(rt: &impl Abort) -> Result<(), Fail> {
    let begin = txn(tid_of(3, 0));
    let field = Refusal::FieldOutOfRange;
    both_refuse(
        rt,
        &[
            (begin, txn(tid_of(0, 1)), fault(0, field, 18, 3)),
            (txn(tid_of(1_000_001, 0)), begin, fault(0, field, 9, 0)),
            (
                begin,
                put(WRONG_KIND, 1_000_000_001),
                fault(0, field, 18, 3),
            ),
            (begin, put(SLOT, 1_000_000_001), fault(0, field, 35, 3)),
            (begin, put(SLOT, -1_000_000_001), fault(0, field, 35, 3)),
            (begin, del(WRONG_KIND), fault(0, field, 18, 3)),
        ],
    )
}

// Rows of a part with a field out of range.
fn part_fields_are_refused(rt: &impl Abort) -> Result<(), Fail> {
    let kept = row(tid_of(2, 5), SLOT, 900);
    let field = Refusal::FieldOutOfRange;
    both_refuse(
        rt,
        &[
            (kept, row(tid_of(0, 5), SLOT, 1), fault(4, field, 43, 2)),
            (
                gone(tid_of(1_000_001, 5), SLOT),
                kept,
                fault(4, field, 9, 0),
            ),
            (
                kept,
                row(tid_of(9, 5), WRONG_KIND, 1),
                fault(4, field, 51, 9),
            ),
            (kept, gone(tid_of(9, 5), WRONG_KIND), fault(4, field, 51, 9)),
            (
                kept,
                row(tid_of(9, 5), SLOT, -1_000_000_001),
                fault(4, field, 68, 9),
            ),
        ],
    )
}

// Commands that may not stand there or are out of range: the reader and the writer find the same fault.
#[test]
fn wrong_commands_are_refused(rt: HostRuntime) -> Result<(), Fail> {
    misplaced_ones_are_refused(&rt)?;
    log_fields_are_refused(&rt)?;
    part_fields_are_refused(&rt)
}

// Each limit itself is taken, and a row is held to the marked epoch.
#[test]
fn limits_are_kept(rt: HostRuntime) -> Result<(), Fail> {
    let last = tid_of(1_000_000, 65_535);
    let key = Key {
        kind: 3,
        code: u128::MAX,
    };
    comes_back(&rt, 0, &[txn(tid_of(1, 0)), put(key, 1_000_000_000)], 35)?;
    comes_back(&rt, 0, &[txn(last), put(SLOT, -1_000_000_000)], 35)?;
    comes_back(&rt, 7, &[row(last, key, 0), gone(last, SLOT)], 60)?;
    let rows = [row(tid_of(2, 0), SLOT, 1), gone(tid_of(3, 0), SLOT)];
    let block = write_block(address(4), &rows)?;
    is_refused(&rt, &block, 2, fault(4, Refusal::FieldOutOfRange, 43, 3))?;
    is_refused(&rt, &block, 1, fault(4, Refusal::FieldOutOfRange, 9, 2))?;
    assert!(rt; read(&block, address(4), 3).is_ok());
    Ok(())
}

// A block of 35 command bytes, whose last value ends in a zero byte.
fn short_block() -> Result<[u8; 512], WriteError> {
    write_block(address(0), &[txn(tid_of(3, 0)), put(SLOT, 0x300)])
}

// One byte is changed, and then the sum is made right: each later check is reached.
#[test]
fn wrong_bytes_are_refused(rt: HostRuntime) -> Result<(), Fail> {
    let block = short_block()?;
    let cases = [
        (0usize, 0x43u8, Refusal::BadHeader, 0u16, 0u32),
        (1, 1, Refusal::BadHeader, 1, 0),
        (2, 2, Refusal::BadHeader, 2, 0),
        (4, 1, Refusal::BadHeader, 4, 0),
        (7, 8, Refusal::BadHeader, 4, 0),
        (43, 1, Refusal::BadPadding, 43, 0),
        (509, 255, Refusal::BadPadding, 509, 0),
        (8, 0, Refusal::BadCommand, 8, 0),
        (17, 6, Refusal::BadCommand, 17, 3),
        (3, 34, Refusal::BadCommand, 17, 3),
        (3, 36, Refusal::BadCommand, 43, 3),
    ];
    for (at, byte, refusal, wrong, epoch) in cases {
        is_refused(
            &rt,
            &reseal(damage(block, at, byte)),
            MARKED,
            fault(0, refusal, wrong, epoch),
        )?;
    }
    is_refused(
        &rt,
        &damage(block, 43, 1),
        MARKED,
        fault(0, Refusal::BadSum, 510, 0),
    )?;
    is_refused(
        &rt,
        &damage(block, 511, 0xff),
        MARKED,
        fault(0, Refusal::BadSum, 510, 0),
    )?;
    assert_eq!(rt; reseal(block), block);
    assert_eq!(rt; reseal(damage(block, 512, 1)), block);
    Ok(())
}

// No single bit of a block can be turned unseen.
#[test]
fn turned_bits_are_refused(rt: HostRuntime) -> Result<(), Fail> {
    let block = short_block()?;
    for (at, byte) in block.iter().enumerate() {
        for bit in [1u8, 2, 4, 8, 16, 32, 64, 128] {
            assert!(rt; read(&damage(block, at, *byte ^ bit), address(0), MARKED).is_err());
        }
    }
    Ok(())
}

// The sum counts modulo 255, so that it takes a byte of 255 for one of 0: in a code no other check sees it.
#[test]
fn zero_and_255_sum_alike(rt: HostRuntime) -> Result<(), Fail> {
    let block = damage(short_block()?, 19, 255);
    assert!(rt; read(&block, address(0), MARKED).is_ok());
    assert_eq!(rt; reseal(block), block);
    Ok(())
}
