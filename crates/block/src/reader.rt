// Reading a block: its checks, in the order in which they count, and then its commands.
ghost use Rattle.std.specs.Prelude.{◌≡◌, ◌+◌, ◌≤◌, length, take, drop, IfOk};
ghost use Rattle.base.specs.Bytes.{number_at};
ghost use Rattle.block.specs.Checks.{wrong_header, summed_right, wrong_sum, nonzero, passed, header_fault, sum_fault, padding_fault, commands_fault, read_answer};
ghost use Rattle.block.specs.Commands.{answered};
ghost use Rattle.block.specs.Laws.{ReadsBack, OnlyWritten};

use crate::address::Address;
use crate::checks::check_entry;
use crate::command::Commands;
use crate::fletcher::fletcher16;
use crate::sizes::{COMMANDS, ROOM, SUM, TAG};
use crate::way::Way;
use base::fault::BlockFault;
use base::refusal::Refusal;

// So many bytes of a block, from one place on.
fn bytes_at<const N: usize>(block: &[u8; 512], at: usize) -> [u8; N]
    requires { at + N ≤ 512 }
    ensures { result ≡ take N (drop at block.now) }
{
    *block[at..].first_chunk::<N>().unwrap()
}

// Two bytes of a block as a number; and four, below: no trait of the library's reads numbers of both widths.
fn two_at(block: &[u8; 512], at: usize) -> u16
    requires { at + 2 ≤ 512 }
    ensures { result ≡ number_at 2 at block.now }
{
    u16::from_be_bytes(bytes_at(block, at))
}

fn four_at(block: &[u8; 512], at: usize) -> u32
    requires { at + 4 ≤ 512 }
    ensures { result ≡ number_at 4 at block.now }
{
    u32::from_be_bytes(bytes_at(block, at))
}

// The first header field that is wrong, by its byte.
fn wrong_header(block: &[u8; 512], at: Address) -> Option<u16>
    ensures { result ≡ wrong_header at.file at.number block.now }
{
    if block[0] != TAG {
        return Some(0);
    }
    if block[1] != at.file || at.check_file().is_err() {
        return Some(1);
    }
    if two_at(block, 2) as usize > ROOM {
        return Some(2);
    }
    if four_at(block, 4) != at.number {
        return Some(4);
    }
    None
}

// The sum goes over every byte before it, padding included.
fn is_summed(block: &[u8; 512]) -> bool
    ensures { result ≡ summed_right block.now }
{
    two_at(block, SUM) == fletcher16(&block[0..SUM])
}

fn wrong_sum(block: &[u8; 512]) -> Option<u16>
    ensures { result ≡ wrong_sum block.now }
{
    (!is_summed(block)).then_some(510)
}

// The first of these bytes that is not zero, by its place in the block.
fn nonzero(at: u16, padding: &[u8]) -> Option<u16>
    requires { at + length padding.now ≤ 510 }
    ensures { result ≡ nonzero at padding.now }
{
    let i = padding.iter().position(|b| *b != 0)?;
    Some(at + i as u16)
}

// The number of command bytes, once the header is right. That it is at most 502 is said where it is made and asked by
// the two checks after it: a type for it would be made and taken apart within `read`, as would one for block and
// address.
fn check_header(block: &[u8; 512], at: Address) -> Result<usize, BlockFault>
    ensures answer { result ≡ passed (number_at 2 2 block.now) (header_fault at.file at.number block.now) }
    ensures room { IfOk result (λ n. n ≤ 502) }
{
    at.pass(Refusal::BadHeader, wrong_header(block, at))?;
    Ok(two_at(block, 2) as usize)
}

fn check_sum(block: &[u8; 512], at: Address) -> Result<(), BlockFault>
    ensures { result ≡ passed tt (sum_fault at.file at.number block.now) }
{
    at.pass(Refusal::BadSum, wrong_sum(block))
}

fn check_padding(block: &[u8; 512], n: usize, at: Address) -> Result<(), BlockFault>
    requires { n ≤ 502 }
    ensures { result ≡ passed tt (padding_fault at.file at.number n block.now) }
{
    let end = COMMANDS + n;
    at.pass(Refusal::BadPadding, nonzero(end as u16, &block[end..SUM]))
}

// Each command in turn; bytes that are left are no command.
#[tactic(auto, unfolding(crate::specs::Checks::walk))]
fn check_commands(bytes: &[u8], at: Address, marked: u32) -> Result<(), BlockFault>
    requires { length bytes.now ≤ 502 }
    ensures { result ≡ passed tt (commands_fault at.file at.number marked bytes.now) }
{
    let mut way = Way::start();
    for command in Commands::over(bytes) {
        let what = command.entry();
        check_entry(at, marked, way, &what)?;
        way = way.onward(&what);
    }
    if (way.at as usize) < COMMANDS + bytes.len() {
        return Err(at.fault(Refusal::BadCommand, way.at, way.epoch));
    }
    Ok(())
}

// The commands of a block that should stand at this place of this file, or its first fault; a row's epoch is at
// most the marked one. Nothing is answered before all checks pass.
pub fn read<'a>(block: &'a [u8; 512], at: Address, marked: u32) -> Result<Commands<'a>, BlockFault>
    ensures answer { answered result ≡ read_answer at.file at.number marked block.now }
    ensures back { ReadsBack at.file at.number marked block.now (answered result) }
    ensures only { OnlyWritten at.file at.number block.now (answered result) }
{
    let n = check_header(block, at)?;
    check_sum(block, at)?;
    check_padding(block, n, at)?;
    let bytes = &block[COMMANDS..COMMANDS + n];
    check_commands(bytes, at, marked)?;
    Ok(Commands::over(bytes))
}
