//! The rules file `sync_list`, which says what of a drive is synchronised.
#![tactic(auto)]

mod instances;
mod laws;
mod line;
mod matching;
mod rule;
mod rules;

pub use instances::{folders_above_are_kept, folders_anywhere, folders_between};
pub use laws::{
    excluded_stays_excluded, exclusions_only_take_away, no_rules_keep_all, no_rules_pass_all,
};
pub use rule::Rule;
pub use rules::{RuleFault, Rules};

#[cfg(test)]
mod tests;
