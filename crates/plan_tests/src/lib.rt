//! Tests of plans, from states of the folder, of the drive and of what was agreed on.
#![tactic(auto)]

#[cfg(test)]
mod tests;
