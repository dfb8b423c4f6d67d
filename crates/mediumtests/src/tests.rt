use base::refusal::Refusal;
use lane::plan::plan_of;
use medium::cuttable::Cuttable;
use medium::mark::Mark;
use medium::media::Medium;
use pool::{make_pool, plan_pool};
use ring::make_ring;
use std::process::Abort;
use std::test::Fail;

fn answers(rt: &impl Abort, got: Result<u32, Refusal>, number: u32) -> Result<(), Fail> {
    assert_eq!(rt; got, Ok(number));
    Ok(())
}

// Refusals go by number here, as docs/REFUSALS.md lists them: so the numbers are tried too.
fn refuses(rt: &impl Abort, got: Result<u32, Refusal>, number: u8) -> Result<(), Fail> {
    assert_eq!(rt; got.map_err(|refusal| refusal.number()), Err(number));
    Ok(())
}

// Fetches a block, and looks at its first and last byte.
fn holds<M: Medium>(rt: &impl Abort, m: &M, file: u8, number: u32, byte: u8) -> Result<(), Fail> {
    let mut block = [0u8; 512];
    answers(rt, m.fetch(file, number, &mut block), number)?;
    assert_eq!(rt; block[0], byte);
    assert_eq!(rt; block[511], byte);
    Ok(())
}

// Fills file 0, makes room for one block, and goes round.
fn wraps<M: Medium>(rt: &impl Abort, m: &mut M, capacity: u32) -> Result<(), Fail> {
    for n in 0..capacity {
        answers(rt, m.append(0, &[7; 512]), n)?;
    }
    refuses(rt, m.append(0, &[8; 512]), 43)?;
    answers(rt, m.sync(0), capacity)?;
    answers(rt, m.retire(0, 1), 0)?;
    answers(rt, m.append(0, &[9; 512]), capacity)?;
    refuses(rt, m.fetch(0, 0, &mut [0; 512]), 44)?;
    holds(rt, m, 0, capacity, 9)
}

fn wraps_in(rt: &impl Abort, capacities: &[u32; 8], cells: &mut [[u8; 512]]) -> Result<(), Fail> {
    let plan = plan_of(capacities, cells.len())?;
    let mut ring = make_ring(plan, cells);
    wraps(rt, &mut ring, capacities[0])
}

#[test]
fn ring_goes_round(rt: HostRuntime) -> Result<(), Fail> {
    let mut cells = [[0u8; 512]; 10];
    wraps_in(&rt, &[1; 8], &mut cells)?;
    wraps_in(&rt, &[2, 1, 1, 1, 1, 1, 1, 1], &mut cells)?;
    wraps_in(&rt, &[3, 1, 1, 1, 1, 1, 1, 1], &mut cells)
}

fn all_refusals<M: Medium>(rt: &impl Abort, m: &mut M) -> Result<(), Fail> {
    refuses(rt, m.append(8, &[1; 512]), 13)?;
    refuses(rt, m.sync(8), 13)?;
    refuses(rt, m.fetch(8, 0, &mut [0; 512]), 13)?;
    refuses(rt, m.retire(8, 0), 13)?;
    refuses(rt, m.capacity(8), 13)?;
    refuses(rt, m.first(8), 13)?;
    refuses(rt, m.count(8), 13)?;
    refuses(rt, m.synced(8), 13)?;
    answers(rt, m.append(5, &[1; 512]), 0)?;
    refuses(rt, m.append(5, &[2; 512]), 43)?;
    refuses(rt, m.fetch(5, 1, &mut [0; 512]), 44)?;
    refuses(rt, m.retire(5, 1), 45)?;
    holds(rt, m, 5, 0, 1)
}

fn mark_stays<M: Medium>(rt: &impl Abort, m: &mut M) -> Result<(), Fail> {
    let before = m.mark();
    assert_eq!(rt; before.epoch, 0);
    let mark = Mark {
        epoch: 3,
        starts: [1; 8],
        ends: [2; 8],
    };
    assert_eq!(rt; m.set_mark(mark), 0);
    assert_eq!(rt; m.mark(), mark);
    Ok(())
}

#[test]
fn ring_refuses(rt: HostRuntime) -> Result<(), Fail> {
    let mut cells = [[0u8; 512]; 8];
    assert!(rt; plan_of(&[0, 1, 1, 1, 1, 1, 1, 1], 8).is_err());
    assert!(rt; plan_of(&[4097, 1, 1, 1, 1, 1, 1, 1], 9000).is_err());
    assert!(rt; plan_of(&[2, 1, 1, 1, 1, 1, 1, 1], 8).is_err());
    let plan = plan_of(&[1; 8], cells.len())?;
    let mut ring = make_ring(plan, &mut cells);
    all_refusals(&rt, &mut ring)?;
    mark_stays(&rt, &mut ring)
}

// Fills two files, lets both go, and fills them again in the other order.
fn pages_change_hands<M: Medium>(rt: &impl Abort, m: &mut M) -> Result<(), Fail> {
    answers(rt, m.append(0, &[10; 512]), 0)?;
    answers(rt, m.append(1, &[20; 512]), 0)?;
    answers(rt, m.sync(0), 1)?;
    answers(rt, m.sync(1), 1)?;
    answers(rt, m.retire(0, 1), 0)?;
    answers(rt, m.retire(1, 1), 0)?;
    answers(rt, m.append(0, &[30; 512]), 1)?;
    answers(rt, m.append(1, &[40; 512]), 1)?;
    holds(rt, m, 0, 1, 30)?;
    holds(rt, m, 1, 1, 40)
}

#[test]
fn pool_uses_pages_again(rt: HostRuntime) -> Result<(), Fail> {
    let mut pages = [[0u8; 512]; 8];
    let mut table = [0u32; 16];
    assert!(rt; plan_pool(&[1; 8], 7, 16).is_err());
    assert!(rt; plan_pool(&[1; 8], 8, 15).is_err());
    let plan = plan_pool(&[1; 8], pages.len(), table.len())?;
    let mut pool = make_pool(plan, &mut pages, &mut table);
    pages_change_hands(&rt, &mut pool)?;
    all_refusals(&rt, &mut pool)?;
    mark_stays(&rt, &mut pool)
}

// One synced block and two that are not, in file 2.
fn three_blocks<M: Medium>(rt: &impl Abort, m: &mut M) -> Result<(), Fail> {
    answers(rt, m.append(2, &[1; 512]), 0)?;
    answers(rt, m.sync(2), 1)?;
    answers(rt, m.append(2, &[2; 512]), 1)?;
    answers(rt, m.append(2, &[3; 512]), 2)
}

fn cuts<M: Cuttable>(rt: &impl Abort, m: &mut M) -> Result<(), Fail> {
    three_blocks(rt, m)?;
    m.cut(&[0; 8], &[]);
    answers(rt, m.count(2), 1)?;
    holds(rt, m, 2, 0, 1)?;
    answers(rt, m.append(2, &[4; 512]), 1)?;
    m.cut(&[0, 0, 9, 0, 0, 0, 0, 0], &[[5; 512]; 3]);
    answers(rt, m.count(2), 2)?;
    answers(rt, m.synced(2), 2)?;
    holds(rt, m, 2, 0, 1)?;
    holds(rt, m, 2, 1, 5)
}

#[test]
fn ring_is_cut(rt: HostRuntime) -> Result<(), Fail> {
    let mut cells = [[0u8; 512]; 24];
    let plan = plan_of(&[3; 8], cells.len())?;
    let mut ring = make_ring(plan, &mut cells);
    cuts(&rt, &mut ring)
}

#[test]
fn pool_is_cut(rt: HostRuntime) -> Result<(), Fail> {
    let mut pages = [[0u8; 512]; 24];
    let mut table = [0u32; 48];
    let plan = plan_pool(&[3; 8], pages.len(), table.len())?;
    let mut pool = make_pool(plan, &mut pages, &mut table);
    cuts(&rt, &mut pool)
}
