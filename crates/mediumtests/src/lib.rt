// Examples on both media, run as tests.
#![tactic(auto)]

#[cfg(test)]
mod tests;
