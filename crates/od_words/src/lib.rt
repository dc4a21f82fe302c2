//! The words of `odsync`: which command they give, and what is printed where they give none.
#![tactic(auto)]

mod command;
mod found;
mod help;
mod host;
pub mod instances;
mod options;
mod reading;

pub use command::{Command, UsageFault, Words};
pub use help::usage_text;
pub use host::is_host;
pub use reading::read_words;

#[cfg(test)]
mod tests;
