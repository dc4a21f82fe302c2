//! Tests of a drive that is served to many at a time, on sockets of this machine and in memory.
#![tactic(auto)]

#[cfg(test)]
mod tests;
