ghost use Rattle.std.specs.Prelude.{◌≡◌, ℕ, ◌≤◌, [], length, count_by, nat_eq, None, Some, IfOk, IsErrOf};
ghost use Rattle.gd_item.specs.Records.{digest_record};
ghost use Rattle.od_synclist.specs.Rules.{bad_line, first_bad, overlong_line, earlier, rules_of, passes, passes_file};
ghost use Rattle.std.specs.Str.Lines.{lines};

use crate::line::{first_line, is_bad, is_rule};
use crate::rule::{Rule, matches_entry, read_rule};
use gd_item::{Digest, digest_of};
use gd_names::{Bytes, List, NoMemory, Path, Text};
use std::alloc::{AllocError, AllocFailed, Global};
use std::marker::Model;
use thiserror::Error;

/// Why bytes are no rules.
#[derive(Clone, Copy, Debug, PartialEq, Eq, Error)]
pub enum RuleFault {
    #[error("line {line} is no rule")]
    BadRule { line: u64 },
    #[error("out of memory")]
    Memory,
}

impl From<NoMemory> for RuleFault {
    ghost use Rattle.od_synclist.specs.declared.rules.RuleFault.TheVariants.{Memory};

    ghost from_gives = { λ _ fault. fault ≡ Memory };

    fn from(_error: NoMemory) -> RuleFault {
        RuleFault::Memory
    }
}

/// How many LF there are.
fn count_breaks(bytes: &[u8]) -> usize
    ensures count { result ≡ count_by (nat_eq 10) bytes.now }
    ensures within { result ≤ length bytes.now }
{
    bytes.iter().filter(|b| **b == b'\n').count()
}

/// The number of the line that holds the byte after the first 65,536.
fn overlong_line(bytes: &[u8]) -> Option<u64>
    ensures { result ≡ overlong_line bytes.now }
{
    if bytes.len() <= 65_536 {
        return None;
    }
    let (first, _) = bytes.split_at(65_536);
    Some(count_breaks(first) as u64 + 1)
}

/// The earlier of two lines, of which there may be none.
fn earlier(line: Option<u64>, other: Option<u64>) -> Option<u64>
    ensures { result ≡ earlier line other }
{
    match (line, other) {
        (None, _) => other,
        (Some(_), None) => line,
        (Some(line), Some(other)) => Some(line.min(other)),
    }
}

/// The number of the first line that is bad in itself.
fn first_bad(bytes: &[u8]) -> Option<u64>
    ensures { result ≡ first_bad [] (lines bytes.now) }
{
    let mut rest = bytes;
    let mut number: u64 = 1;
    let mut rules: usize = 0;
    while !rest.is_empty() {
        let (line, after) = first_line(rest);
        if is_bad(line, rules) {
            return Some(number);
        }
        if is_rule(line) {
            rules += 1;
        }
        number += 1;
        rest = after;
    }
    None
}

/// The number of the line for which the bytes are refused.
fn bad_line(bytes: &[u8]) -> Option<u64>
    ensures { result ≡ bad_line bytes.now }
{
    earlier(first_bad(bytes), overlong_line(bytes))
}

/// The rules of the lines.
fn read_rules(alloc: Global, bytes: &[u8]) -> Result<List<Rule>, NoMemory>
    ensures { IfOk result (λ rules. rules ≡ rules_of bytes.now) }
{
    let mut rules = List::new(alloc);
    let mut rest = bytes;
    while !rest.is_empty() {
        let (line, after) = first_line(rest);
        if is_rule(line) {
            rules.push(read_rule(alloc, line)?)?;
        }
        rest = after;
    }
    Ok(rules)
}

/// Whether an entry passes under these rules.
fn passes(rules: &[Rule], names: &[Text], folder: bool) -> bool
    ensures { result ≡ passes rules.now names.now folder }
{
    let mut included = rules.is_empty();
    for rule in rules {
        if matches_entry(rule, names, folder) {
            if rule.exclude {
                return false;
            }
            included = true;
        }
    }
    included
}

/// The rules of a file, that contracts see as the bytes of the file.
#[derive(Debug, Drop)]
pub struct Rules {
    bytes: Bytes,
    digest: Digest,
    rules: List<Rule>,
}

impl Model for Rules {
    ghost use Rattle.std.specs.Prelude.{◌≡◌, List, ℕ};
    ghost use Rattle.std.specs.Coded.{coded_list, coded_ℕ};
    ghost use Rattle.gd_item.specs.Records.{digest_record};
    ghost use Rattle.od_synclist.specs.Rules.{rules_of};

    ghost Value = { List ℕ };

    ghost coded = { coded_list coded_ℕ };

    ghost view = { λ r. r.bytes };

    ghost invariant = { λ r. (r.rules ≡ rules_of r.bytes) × (r.digest ≡ digest_record r.bytes) };
}

impl Rules {
    /// Reads the rules of a file. Of several bad lines it names the first.
    pub fn read(alloc: Global, bytes: &[u8]) -> Result<Rules, RuleFault>
        ensures ok { IfOk result (λ rules. (rules ≡ bytes.now) × (bad_line bytes.now ≡ None)) }
        ensures bad { (line : ℕ) → IsErrOf result (RuleFault.BadRule line) → bad_line bytes.now ≡ Some line }
    {
        match bad_line(bytes) {
            Some(line) => return Err(RuleFault::BadRule { line }),
            None => {}
        }
        let rules = read_rules(alloc, bytes)?;
        let kept = Bytes::from_slice(alloc, bytes)?;
        Ok(Rules {
            bytes: kept,
            digest: digest_of(bytes),
            rules,
        })
    }

    /// The digest of the file's bytes. Takes no memory.
    pub fn digest(&self) -> &Digest
        ensures { result.now ≡ digest_record self.now }
    {
        &self.digest
    }

    /// Whether the entry at the path, a folder or a file, is synchronised. Takes no memory, and about as many steps
    /// for each rule as its components times the names of the path, each step a match of one name.
    pub fn passes(&self, path: &Path, folder: bool) -> bool
        ensures { result ≡ passes_file self.now path.now folder }
    {
        passes(self.rules.as_slice(), path.names(), folder)
    }
}
