//! Tests of what a drive refuses, and of the order in which its causes are told; instances for the limits that no test
//! reaches.
#![tactic(auto)]

mod instances;

pub use instances::{last_number_reached, most_bytes_kept, most_items_live};

#[cfg(test)]
mod tests;
