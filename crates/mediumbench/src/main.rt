// Fills a file of 4,096 blocks, syncs it, reads it back and retires it, many times, on a ring or on a pool.
#![tactic(auto)]

use anyhow::anyhow;
use base::refusal::Refusal;
use lane::plan::plan_of;
use medium::media::Medium;
use pool::{make_pool, plan_pool};
use ring::make_ring;

// One long file; the others have a block each.
const CAPACITIES: [u32; 8] = [4_096, 1, 1, 1, 1, 1, 1, 1];

const BLOCKS: usize = 4_103;

#[derive(Clone, Copy)]
struct Tally {
    next: u32,
    digest: u64,
}

fn fill<M: Medium>(m: &mut M) -> Result<u32, Refusal> {
    let mut block = [0u8; 512];
    for i in 0..4_096u32 {
        block[0] = (i & 0xff) as u8;
        m.append(0, &block)?;
    }
    m.sync(0)
}

fn read_all<M: Medium>(m: &M, from: u32, to: u32, digest: u64) -> Result<u64, Refusal> {
    let mut block = [0u8; 512];
    let mut sum = digest;
    for n in from..to {
        m.fetch(0, n, &mut block)?;
        sum = sum.wrapping_mul(31).wrapping_add(block[0] as u64);
    }
    Ok(sum)
}

fn round<M: Medium>(m: &mut M, tally: Tally) -> Result<Tally, Refusal> {
    let end = fill(m)?;
    let digest = read_all(m, tally.next, end, tally.digest)?;
    m.retire(0, end)?;
    Ok(Tally { next: end, digest })
}

// The rounds that were asked for, or as many as the file's numbers last.
fn rounds<M: Medium>(m: &mut M, count: u32) -> Tally {
    let mut tally = Tally { next: 0, digest: 7 };
    for _ in 0..count {
        let Ok(more) = round(m, tally) else {
            return tally;
        };
        tally = more;
    }
    tally
}

fn on_ring(cells: &mut [[u8; 512]], count: u32) -> Result<Tally, Refusal> {
    let plan = plan_of(&CAPACITIES, cells.len())?;
    let mut ring = make_ring(plan, cells);
    Ok(rounds(&mut ring, count))
}

fn on_pool(pages: &mut [[u8; 512]], table: &mut [u32], count: u32) -> Result<Tally, Refusal> {
    let plan = plan_pool(&CAPACITIES, pages.len(), table.len())?;
    let mut pool = make_pool(plan, pages, table);
    Ok(rounds(&mut pool, count))
}

fn play(rt: HostRuntime, line: &str) -> anyhow::Result<()> {
    let heap = rt.alloc();
    let Some((what, number)) = line.split_once(' ') else {
        return Err(anyhow!("ring COUNT or pool COUNT"));
    };
    let count = number.parse::<u32>()?;
    let mut cells = vec![in heap; [0u8; 512]; BLOCKS]?;
    let mut table = vec![in heap; 0u32; 2 * BLOCKS]?;
    let done = match what {
        "ring" => on_ring(&mut cells, count),
        _ => on_pool(&mut cells, &mut table, count),
    };
    match done {
        Ok(tally) => println!(rt; "{what}: {} blocks, digest {}", tally.next, tally.digest)?,
        Err(e) => println!(rt; "refused {}", e.number())?,
    }
    Ok(())
}

fn main(rt: HostRuntime) -> anyhow::Result<()> {
    for line in rt.lines(rt.alloc()) {
        play(rt, line?.as_str())?;
    }
    Ok(())
}
