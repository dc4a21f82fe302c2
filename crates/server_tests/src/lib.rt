//! Tests of connections to a drive.
#![tactic(auto)]

#[cfg(test)]
mod tests;
