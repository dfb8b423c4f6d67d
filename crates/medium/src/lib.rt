// A block medium by what it means: eight files of blocks, and one mark.
#![tactic(auto)]

pub mod cuttable;
pub mod mark;
pub mod media;
