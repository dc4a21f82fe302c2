//! Tests of what the client's database keeps in a real file.
#![tactic(auto)]

#[cfg(test)]
mod tests;
