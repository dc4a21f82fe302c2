//! A test of a scan over an outside of memory.
#![tactic(auto)]

#[cfg(test)]
mod tests;
