// From bytes to commands.
ghost use Rattle.std.specs.Prelude.{◌≡◌, ◌↔◌, ◌+◌, ◌<◌, ◌≤◌, length, take, drop, IfSome, IsSome};
ghost use Rattle.base.specs.Bytes.{be_at};
ghost use Rattle.std.specs.Option.{option_map};
ghost use Rattle.block.specs.Commands.{value_of, place_of, place};
ghost use Rattle.block.specs.Format.{size_of};
ghost use Rattle.block.specs.Parsing.{first_entry};

use super::{Command, Commands};
use crate::entry::{DEL, Entry, GONE, PUT, ROW, TXN};
use crate::sizes::COMMANDS;
use base::key::Key;

// So many bytes from one place on, if they are there.
fn part<const N: usize>(bytes: &[u8], at: usize) -> Option<&[u8; N]>
    ensures part { IfSome result (λ found. found.now ≡ take N (drop at bytes.now)) }
    ensures there { IsSome result ↔ (at + N ≤ length bytes.now) }
{
    bytes.get(at..)?.first_chunk::<N>()
}

// The command that the bytes begin with, if its first byte is known and all its bytes are there.
fn parse<'a>(rest: &'a [u8], at: usize) -> Option<Command<'a>>
    ensures value { option_map value_of result ≡ first_entry rest.now }
    ensures place { IfSome result (λ c. place_of c ≡ at) }
    ensures fits { IfSome result (λ c. size_of (value_of c) ≤ length rest.now) }
{
    match *rest.first()? {
        TXN => Some(Command::Txn {
            at,
            tid: part(rest, 1)?,
        }),
        PUT => Some(Command::Put {
            at,
            kind: *rest.get(1)?,
            code: part(rest, 2)?,
            value: part(rest, 18)?,
        }),
        DEL => Some(Command::Del {
            at,
            kind: *rest.get(1)?,
            code: part(rest, 2)?,
        }),
        ROW => Some(Command::Row {
            at,
            tid: part(rest, 1)?,
            kind: *rest.get(9)?,
            code: part(rest, 10)?,
            value: part(rest, 26)?,
        }),
        GONE => Some(Command::Gone {
            at,
            tid: part(rest, 1)?,
            kind: *rest.get(9)?,
            code: part(rest, 10)?,
        }),
        _ => None,
    }
}

// The number that eight bytes spell.
fn number(bytes: &[u8; 8]) -> u64
    ensures { result ≡ be_at 8 0 bytes.now }
{
    u64::from_be_bytes(*bytes)
}

// A key by its kind and the sixteen bytes of its code.
fn key(kind: u8, code: &[u8; 16]) -> Key
    ensures { result ≡ record { kind = kind; code = be_at 16 0 code.now } }
{
    Key {
        kind,
        code: u128::from_be_bytes(*code),
    }
}

impl Command<'_> {
    // The byte of the block that it begins at.
    pub fn place(&self) -> usize
        ensures { result ≡ place_of self.now }
    {
        match *self {
            Command::Txn { at, .. }
            | Command::Put { at, .. }
            | Command::Del { at, .. }
            | Command::Row { at, .. }
            | Command::Gone { at, .. } => at,
        }
    }

    // Its values.
    pub fn entry(&self) -> Entry
        ensures { result ≡ value_of self.now }
    {
        match *self {
            Command::Txn { tid, .. } => Entry::Txn { tid: number(tid) },
            Command::Put {
                kind,
                code,
                value,
                ..
            } => Entry::Put {
                key: key(kind, code),
                value: i64::from_be_bytes(*value),
            },
            Command::Del { kind, code, .. } => Entry::Del {
                key: key(kind, code),
            },
            Command::Row {
                tid,
                kind,
                code,
                value,
                ..
            } => Entry::Row {
                tid: number(tid),
                key: key(kind, code),
                value: i64::from_be_bytes(*value),
            },
            Command::Gone {
                tid,
                kind,
                code,
                ..
            } => Entry::Gone {
                tid: number(tid),
                key: key(kind, code),
            },
        }
    }
}

impl<'a> Commands<'a> {
    // The commands of all command bytes of a block.
    pub(crate) fn over(bytes: &'a [u8]) -> Commands<'a>
        requires { length bytes.now ≤ 502 }
        ensures rest { result.rest.now ≡ bytes.now }
        ensures place { place result ≡ 8 }
    {
        Commands {
            rest: bytes,
            at: COMMANDS,
        }
    }
}

impl<'a> Iterator for Commands<'a> {
    ghost use Rattle.std.specs.Iterator.{item_count};
    ghost use Rattle.block.specs.Commands.{pending, GivesNext};

    type Item = Command<'a>;

    // The next command; none at the end, or where no command begins.
    ghost next_gives = { GivesNext };

    ghost remaining = { item_count pending };

    #[tactic(auto, using(crate::proofs::Entries::entries_none, crate::proofs::Entries::entries_some))]
    fn next(&mut self) -> Option<Command<'a>> {
        let command = parse(self.rest, self.at)?;
        let size = command.entry().size();
        let (_, rest) = self.rest.split_at(size);
        *self = Commands {
            rest,
            at: self.at + size,
        };
        Some(command)
    }
}
