// What every other crate speaks of: refusals, limits, TIDs, keys and faults.
#![tactic(auto)]

pub mod fault;
pub mod file;
pub mod group;
pub mod key;
pub mod limits;
pub mod refusal;
pub mod tid;
