//! Tests of what is done over an outside of memory.
#![tactic(auto)]

#[cfg(test)]
mod tests;
