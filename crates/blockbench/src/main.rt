// Writes or reads many blocks, and says what came of it, so that another program can be held to the same answer.
// `write COUNT` and `read COUNT` are for timing; `bytes COUNT` goes over every byte of the blocks that are written.
#![tactic(auto)]

use anyhow::{Context, anyhow};
use base::key::Key;
use base::tid::tid_of;
use block::address::Address;
use block::entry::Entry;
use block::reader::read;
use block::writer::{WriteError, write_block};
use std::alloc::{AllocError, Global};

// So many blocks are made before they are read, round and round.
const BLOCKS: u32 = 64;

// What a run gives: the blocks gone through, and a number that every one of them has a part in.
#[derive(Clone, Copy, Default)]
struct Tally {
    blocks: u64,
    digest: u64,
}

impl Tally {
    fn add(self, part: u64) -> Tally {
        Tally {
            blocks: self.blocks.wrapping_add(1),
            digest: self.digest.wrapping_mul(31).wrapping_add(part),
        }
    }
}

// All blocks are of one file.
fn address(number: u32) -> Address {
    Address { file: 0, number }
}

// The commands of a full block: 2 transactions, 11 writes and 11 erases, 502 bytes.
fn full_log(heap: Global) -> Result<Vec<Entry>, AllocError> {
    let mut entries = Vec::new(heap);
    for i in 0..2u16 {
        entries.push(Entry::Txn { tid: tid_of(3, i) })?;
    }
    for i in 0..11u32 {
        entries.push(Entry::Put {
            key: Key {
                kind: 0,
                code: u128::from(i),
            },
            value: i64::from(i) - 5,
        })?;
        entries.push(Entry::Del {
            key: Key {
                kind: 1,
                code: u128::MAX - u128::from(i),
            },
        })?;
    }
    Ok(entries)
}

// So many rounds of one step, by their numbers; a round that gives nothing is not counted.
fn tally_of<F: Fn(u32) -> Option<u64>>(rounds: u32, step: F) -> Tally
    requires { F.IsAlwaysCallable step }
{
    let mut tally = Tally::default();
    for number in 0..rounds {
        if let Some(part) = step(number) {
            tally = tally.add(part);
        }
    }
    tally
}

// The sum of a block, which all its bytes have a part in; 0 where there is no block, as in the program that this one
// is held to.
fn sum_of(written: Result<[u8; 512], WriteError>) -> u64 {
    written.map_or(
        0,
        |block| u64::from(u16::from_be_bytes([block[510], block[511]])),
    )
}

// The writes of a block, by the codes of their keys; 0 where the block is not read.
fn codes_of(block: &[u8; 512], number: u32) -> u64 {
    let Ok(commands) = read(block, address(number), 1_000_000) else {
        return 0;
    };
    let mut all = 0u64;
    for command in commands {
        if let Entry::Put { key, .. } = command.entry() {
            all = all.wrapping_add((key.code & 0xffff) as u64).wrapping_add(1);
        }
    }
    all
}

fn some_blocks(heap: Global, entries: &[Entry]) -> Result<Vec<[u8; 512]>, AllocError> {
    let mut blocks = Vec::new(heap);
    for number in 0..BLOCKS {
        if let Ok(block) = write_block(address(number), entries) {
            blocks.push(block)?;
        }
    }
    Ok(blocks)
}

// Every byte has a part, and its place counts.
fn bytes_digest(block: &[u8; 512]) -> u64 {
    block.iter().fold(
        0u64,
        |all, b| all.wrapping_mul(31).wrapping_add(u64::from(*b)),
    )
}

#[derive(Clone, Copy)]
enum Task {
    Write(u32),
    Read(u32),
    Bytes(u32),
}

fn task_of(line: &str) -> anyhow::Result<Task> {
    let (what, count) = line
        .split_once(' ')
        .context("a line is `write`, `read` or `bytes`, and a count")?;
    let rounds = count.trim().parse::<u32>()?;
    match what {
        "write" => Ok(Task::Write(rounds)),
        "read" => Ok(Task::Read(rounds)),
        "bytes" => Ok(Task::Bytes(rounds)),
        _ => Err(anyhow!("a line is `write`, `read` or `bytes`, and a count")),
    }
}

fn run(rt: &HostRuntime) -> anyhow::Result<()> {
    let heap = rt.alloc();
    let entries = full_log(heap)?;
    let blocks = some_blocks(heap, entries.as_slice())?;
    for line in rt.lines(heap) {
        let tally = match task_of(line?.as_str())? {
            Task::Write(rounds) => tally_of(rounds, |n| {
                let block = write_block(address(n), &entries);
                Some(sum_of(block))
            }),
            Task::Read(rounds) => tally_of(rounds, |n| {
                let number = n % BLOCKS;
                let block = blocks.get(number as usize)?;
                Some(codes_of(block, number))
            }),
            Task::Bytes(rounds) => tally_of(rounds, |n| {
                write_block(address(n), &entries)
                    .ok()
                    .map(|block| bytes_digest(&block))
            }),
        };
        println!(rt; "{} {}", tally.blocks, tally.digest)?;
    }
    Ok(())
}

fn main(rt: HostRuntime) -> anyhow::Result<()> {
    run(&rt)
}
