// The rules of the store, as definitions; here the calls and answers that a history is made of, and what is shown of
// the rules.
#![tactic(auto)]

pub mod call;
pub mod figures;
pub mod laws;
