// Runs the same calls on each medium, and prints what they answer.
#![tactic(auto)]

use crate::round::{Round, play_round, play_twins};
use crate::tally::tally;
use base::refusal::Refusal;
use lane::plan::plan_of;
use medium::cuttable::Cuttable;
use medium::media::Medium;
use pool::{Pool, make_pool, plan_pool};
use ring::{Ring, make_ring};
use std::io;

mod round;
mod tally;

// Two blocks for each file.
const CAPACITIES: [u32; 8] = [2; 8];

fn show(rt: HostRuntime, what: &str, answer: Result<u32, Refusal>) -> io::Result<()> {
    match answer {
        Ok(n) => println!(rt; "  {what} + {n}"),
        Err(e) => println!(rt; "  {what} - {}", e.number()),
    }
}

fn show_round(rt: HostRuntime, r: Round) -> io::Result<()> {
    show(rt, "append", r.appended)?;
    show(rt, "sync", r.synced)?;
    show(rt, "sum", r.sum)?;
    show(rt, "retire", r.retired)
}

// One round on a file, and a line for each answer.
fn play<M: Medium>(rt: HostRuntime, m: &mut M, file: u8, byte: u8, number: u32) -> io::Result<()> {
    println!(rt; " file {file}, byte {byte}, retire {number}")?;
    show_round(rt, play_round(m, file, &[byte; 512], number))
}

fn script<M: Medium>(rt: HostRuntime, m: &mut M) -> io::Result<()> {
    play(rt, m, 0, 7, 0)?;
    play(rt, m, 0, 9, 0)?;
    play(rt, m, 0, 11, 3)?;
    play(rt, m, 0, 13, 1)?;
    play(rt, m, 0, 15, 2)?;
    play(rt, m, 7, 200, 1)?;
    play(rt, m, 8, 1, 0)
}

// A synced block and two that are not, a cut that shows one block of tail, and what the file then holds.
fn fail_power<M: Cuttable>(rt: HostRuntime, m: &mut M) -> io::Result<()> {
    println!(rt; "cut")?;
    play(rt, m, 3, 20, 0)?;
    show(rt, "append", m.append(3, &[30; 512]))?;
    m.cut(&[0, 0, 0, 1, 0, 0, 0, 0], &[[77; 512]]);
    show(rt, "count", m.count(3))?;
    show(rt, "synced", m.synced(3))?;
    show(rt, "sum", tally(m, 3))
}

fn main(rt: HostRuntime) -> io::Result<()> {
    let mut cells = [[0u8; 512]; 16];
    let mut pages = [[0u8; 512]; 16];
    let mut table = [0u32; 32];
    on_both(rt, &mut cells, &mut pages, &mut table)
}

// Makes both media, runs the script on each, and then one round on both.
fn on_both(
    rt: HostRuntime,
    cells: &mut [[u8; 512]],
    pages: &mut [[u8; 512]],
    table: &mut [u32],
) -> io::Result<()> {
    let plans = (
        plan_of(&CAPACITIES, cells.len()),
        plan_pool(&CAPACITIES, pages.len(), table.len()),
    );
    match plans {
        (Ok(ring_plan), Ok(pool_plan)) => {
            let mut ring = make_ring(ring_plan, cells);
            let mut pool = make_pool(pool_plan, pages, table);
            play_both(rt, &mut ring, &mut pool)
        }
        (Err(e), _) | (_, Err(e)) => println!(rt; "refused {}", e.number()),
    }
}

fn play_both(rt: HostRuntime, ring: &mut Ring<'_>, pool: &mut Pool<'_>) -> io::Result<()> {
    println!(rt; "ring")?;
    script(rt, ring)?;
    println!(rt; "pool")?;
    script(rt, pool)?;
    println!(rt; "both")?;
    let twins = play_twins(ring, pool, 5, &[50; 512], 0);
    show_round(rt, twins.one)?;
    show_round(rt, twins.other)?;
    fail_power(rt, pool)
}
