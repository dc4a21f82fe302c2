//! Tests of requests and replies as messages.
#![tactic(auto)]

#[cfg(test)]
mod tests;
