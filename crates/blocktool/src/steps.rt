// The steps of the tool: write, show, read back, change.
use crate::script::Script;
use crate::show::{Hex, Shown};
use anyhow::anyhow;
use block::address::Address;
use block::command::Commands;
use block::reader::read;
use block::sizes::{COMMANDS, SUM};
use block::writer::{WriteError, write_block};
use blocktests::{damage, reseal};

// The block in lines of 32 bytes, without the lines that are all zero.
fn show_block(rt: &HostRuntime, block: &[u8; 512]) -> anyhow::Result<()> {
    let mut hidden = false;
    for (at, row) in (0..512usize).step_by(32).zip(block.chunks(32)) {
        let zero = row.iter().all(|b| *b == 0);
        if !zero {
            println!(rt; "  {at:3}:{}", Hex(row))?;
        } else if !hidden {
            println!(rt; "  ...")?;
        }
        hidden = zero;
    }
    Ok(())
}

fn show_commands(rt: &HostRuntime, commands: Commands<'_>) -> anyhow::Result<()> {
    for command in commands {
        println!(rt; "  byte {:3}: {}", command.place(), Shown(command.entry()))?;
    }
    Ok(())
}

// What the reader answers.
fn show_reading(
    rt: &HostRuntime,
    block: &[u8; 512],
    target: Address,
    marked: u32,
) -> anyhow::Result<()> {
    match read(block, target, marked) {
        Ok(commands) => show_commands(rt, commands),
        Err(fault) => Ok(println!(rt; "  fault {}", Shown(fault))?),
    }
}

// The first byte behind the commands, if there is one before the sum.
fn padding_at(block: &[u8; 512]) -> Option<usize> {
    let at = COMMANDS + u16::from_be_bytes([block[2], block[3]]) as usize;
    (at < SUM).then_some(at)
}

fn show_changes(
    rt: &HostRuntime,
    block: [u8; 512],
    target: Address,
    marked: u32,
) -> anyhow::Result<()> {
    let Some(at) = padding_at(&block) else {
        println!(rt; "The block is full: there is no padding to change.")?;
        return Ok(());
    };
    let wrong = damage(block, at, 1);
    println!(rt; "With padding byte {at} changed to 1:")?;
    show_reading(rt, &wrong, target, marked)?;
    println!(rt; "And with the sum corrected:")?;
    show_reading(rt, &reseal(wrong), target, marked)
}

fn show_refusal(rt: &HostRuntime, error: WriteError) -> anyhow::Result<()> {
    match error {
        WriteError::Refused(refusal) => {
            println!(rt; "  refused {} {refusal:?}", refusal.number())?;
        }
        WriteError::Faulty(fault) => println!(rt; "  fault {}", Shown(fault))?,
    }
    Ok(())
}

pub(crate) fn run(rt: &HostRuntime, script: &Script) -> anyhow::Result<()> {
    let Some(target) = script.target else {
        return Err(anyhow!("there is no `block FILE NUMBER` line"));
    };
    let file = target.file;
    let number = target.number;
    let marked = script.marked;
    let count = script.entries.len();
    println!(rt; "Writing {count} commands as block {number} of file {file}:")?;
    match write_block(target, script.entries.as_slice()) {
        Err(error) => show_refusal(rt, error),
        Ok(block) => {
            show_block(rt, &block)?;
            println!(rt; "Read back, rows up to epoch {marked}:")?;
            show_reading(rt, &block, target, marked)?;
            show_changes(rt, block, target, marked)
        }
    }
}
