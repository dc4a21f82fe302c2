ghost use Rattle.std.specs.Prelude.{◌≡◌, ◌≢◌, ◌==◌, ℕ, ◌<◌, ◌≤◌, [], ◌∷◌, ◌++◌, None, Some, length, slice_index, string_bytes, IfOk, OnOk, IsErrOf, IfSome, MatchOption};
ghost use Rattle.gd_names.specs.Escapes.{escaped};
ghost use Rattle.gd_names.specs.Paths.{begins_character, characters, is_fitting, path_text, path_of_text, parts_from, names_of};

use crate::escape::{EscapeFault, push_escaped, unescape_segment};
use crate::exact::Exact;
use crate::list::List;
use crate::memory::NoMemory;
use crate::text::Text;
use std::alloc::{AllocError, Global};
use std::cmp::Ordering;
use std::marker::Model;
use thiserror::Error;

/// Why a text gave no path.
#[derive(Clone, Copy, Debug, PartialEq, Eq, Error)]
pub enum PathFault {
    #[error("not the text of a path")]
    BadPath,
    #[error("out of memory")]
    Memory,
}

impl From<EscapeFault> for PathFault {
    ghost use Rattle.gd_names.specs.declared.path.PathFault.TheVariants.{BadPath, Memory};
    ghost use Rattle.gd_names.specs.declared.escape.EscapeFault.TheVariants.{BadEscape};

    ghost from_gives = { λ cause fault. fault ≡ BadPath → cause ≡ BadEscape };

    fn from(cause: EscapeFault) -> PathFault {
        match cause {
            EscapeFault::BadEscape => PathFault::BadPath,
            EscapeFault::Memory => PathFault::Memory,
        }
    }
}

impl From<NoMemory> for PathFault {
    ghost use Rattle.gd_names.specs.declared.path.PathFault.TheVariants.{Memory};

    ghost from_gives = { λ _ fault. fault ≡ Memory };

    fn from(_cause: NoMemory) -> PathFault {
        PathFault::Memory
    }
}

/// The names from the root down to an entry, that contracts see as the list of the names. Paths are ordered by
/// their lists of names, and names by their bytes.
#[derive(Debug, Drop)]
pub struct Path {
    names: List<Text>,
}

impl Model for Path {
    ghost use Rattle.std.specs.Prelude.{List, ℕ};
    ghost use Rattle.std.specs.Coded.{coded_list, coded_ℕ};

    ghost Value = { List (List ℕ) };

    ghost coded = { coded_list (coded_list coded_ℕ) };

    ghost view = { λ p. p.names };
}

impl Path {
    /// The empty list of names. An empty list allocates nothing.
    pub fn root(alloc: Global) -> Path
        ensures { result ≡ [] }
    {
        Path {
            names: List::new(alloc),
        }
    }

    pub fn from_names(names: List<Text>) -> Path
        ensures { result ≡ names }
    {
        Path { names }
    }

    pub fn into_names(self) -> List<Text>
        ensures { result ≡ self }
    {
        let Path { names } = self;
        names
    }

    pub fn names(&self) -> &[Text]
        ensures { result.now ≡ self.now }
    {
        self.names.as_slice()
    }

    pub fn is_root(&self) -> bool
        ensures { result ≡ (length self.now == 0) }
    {
        self.names.is_empty()
    }

    /// The path that the text spells: `/`, or each name's segment after a `/`.
    pub fn read(alloc: Global, text: &[u8]) -> Result<Path, PathFault>
        ensures ok { IfOk result (λ path. path_of_text text.now ≡ Some path) }
        ensures bad_path { IsErrOf result PathFault.BadPath → path_of_text text.now ≡ None }
    {
        match text {
            [b'/'] => Ok(Path::root(alloc)),
            [b'/', segments @ ..] => {
                let names = read_names(alloc, segments)?;
                Ok(Path { names })
            }
            _ => Err(PathFault::BadPath),
        }
    }

    /// The text that spells the path.
    pub fn write(&self, alloc: Global) -> Result<Text, NoMemory>
        ensures { IfOk result (λ text. text ≡ path_text self.now) }
    {
        if self.is_root() {
            return Text::from_str(alloc, "/");
        }
        let mut text = String::new(alloc);
        for name in self.names() {
            push_segment(&mut text, name)?;
        }
        Ok(Text::from_string(text))
    }
}

fn push_segment(text: &mut String, name: &Text) -> Result<(), AllocError>
    ensures { OnOk result (string_bytes text.new ≡ string_bytes text.old ++ 47 ∷ escaped name.now) }
{
    text.push_str("/")?;
    push_escaped(text, name.as_bytes())
}

/// The names of the segments between each `/`.
fn read_names(alloc: Global, text: &[u8]) -> Result<List<Text>, PathFault>
    ensures ok { IfOk result (λ names. names_of (parts_from [] text.now) ≡ Some names) }
    ensures bad_path { IsErrOf result PathFault.BadPath → names_of (parts_from [] text.now) ≡ None }
{
    let mut names = List::new(alloc);
    let mut rest = text;
    'segments: loop {
        let (segment, others) = cut_at_slash(rest);
        let name = unescape_segment(alloc, segment)?;
        names.push(name)?;
        let Some(after) = others else {
            return Ok(names);
        };
        rest = after;
    }
}

/// The part before the first `/`, and what follows that `/` if there is one.
fn cut_at_slash(text: &[u8]) -> (&[u8], Option<&[u8]>)
    ensures parts { MatchOption result.1 (parts_from [] text.now ≡ result.0.now ∷ []) (λ rest. parts_from [] text.now ≡ result.0.now ∷ parts_from [] rest.now) }
    ensures shorter { IfSome result.1 (λ rest. length rest.now < length text.now) }
{
    let (part, others) = text.split_at(slash_or_end(text));
    match others {
        [_, rest @ ..] => (part, Some(rest)),
        [] => (part, None),
    }
}

/// The index of the first `/`, or the text's length where there is none.
fn slash_or_end(text: &[u8]) -> usize
    ensures within { result ≤ length text.now }
    ensures before { (k : ℕ) → k < result → slice_index text.now k ≢ 47 }
    ensures found { result < length text.now → slice_index text.now result ≡ 47 }
{
    for (i, byte) in text.iter().enumerate() {
        if *byte == b'/' {
            return i;
        }
    }
    text.len()
}

/// Whether an item may stand at the path. Takes no memory.
pub fn path_fits(path: &Path) -> bool
    ensures { result ≡ is_fitting path.now }
{
    let mut left: usize = 400;
    for name in path.names() {
        let length = characters(name.as_bytes());
        if length >= left {
            return false;
        }
        left -= 1 + length;
    }
    true
}

fn characters(text: &[u8]) -> usize
    ensures { result ≡ characters text.now }
{
    text.iter().filter(|byte| begins_character(**byte)).count()
}

fn begins_character(byte: u8) -> bool
    ensures { result ≡ begins_character byte }
{
    byte < 128 || byte > 191
}

impl Clone for Path {
    ghost is_clone = { λ a b. b ≡ a };

    fn clone(&self) -> Result<Path, AllocError> {
        Ok(Path {
            names: self.names.clone()?,
        })
    }
}

impl Exact for Path {
    ghost exact = { λ x y h. h };
}

impl PartialEq for Path {
    ghost use Rattle.std.specs.Cmp.{partial_equiv_from_equiv};
    ghost use Rattle.std.specs.Cmp.Lexicographic.{pointwise, nat_list_eq_equiv, lists_equiv};
    ghost use Rattle.std.specs.Prelude.{nat_eq};

    ghost eq = { λ a b. pointwise (pointwise nat_eq) a b };

    ghost laws = { partial_equiv_from_equiv (lists_equiv nat_list_eq_equiv) };

    fn eq(&self, other: &Path) -> bool {
        self.names == other.names
    }
}

impl Eq for Path {
    ghost use Rattle.std.specs.Cmp.Lexicographic.{nat_list_eq_equiv, lists_equiv};

    ghost laws = { lists_equiv nat_list_eq_equiv };
}

impl PartialOrd for Path {
    ghost use Rattle.std.specs.Prelude.{Some};
    ghost use Rattle.std.specs.Ordering.{nat_cmp};
    ghost use Rattle.std.specs.Cmp.Lexicographic.{slice_cmp, slice_partial_cmp, lists_po, texts_po};

    ghost partial_cmp = { λ x y. slice_partial_cmp (λ a b. Some (slice_cmp nat_cmp a b)) x y };

    ghost laws = { lists_po texts_po };

    fn partial_cmp(&self, other: &Path) -> Option<Ordering> {
        self.names.partial_cmp(&other.names)
    }
}

impl Ord for Path {
    ghost use Rattle.std.proofs.Common.{refl};
    ghost use Rattle.std.specs.Ordering.{nat_cmp};
    ghost use Rattle.std.specs.Cmp.Lexicographic.{slice_cmp, nat_list_cmp_total, lists_total, lists_agrees, texts_ties, lists_ties};

    ghost cmp = { λ x y. slice_cmp (slice_cmp nat_cmp) x y };

    ghost total = { lists_total nat_list_cmp_total };

    ghost matches_partial_cmp = { λ x y. lists_agrees (λ a b. refl) x y };

    ghost matches_eq = { λ x y. lists_ties (slice_cmp nat_cmp) texts_ties x y };

    fn cmp(&self, other: &Path) -> Ordering {
        self.names.cmp(&other.names)
    }
}
