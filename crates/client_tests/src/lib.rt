//! Tests of the client over all its crates.
#![tactic(auto)]

#[cfg(test)]
mod tests;
