// A medium over lent memory: where eight files lie in one run of slots, and what keeps the blocks of the slots.
#![tactic(auto)]

pub mod lane;
pub mod laned;
pub mod lanes;
pub mod numbers;
pub mod plan;
pub mod slots;
