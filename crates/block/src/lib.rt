// The 512-byte block: its sum, its commands, the writer and the reader.
#![tactic(auto)]

pub mod address;
mod checks;
pub mod command;
pub mod draft;
pub mod entry;
pub mod fletcher;
pub mod needs;
pub mod reader;
pub mod sizes;
mod way;
pub mod writer;
