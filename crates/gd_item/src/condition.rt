ghost use Rattle.std.specs.Prelude.{◌≡◌, ◌++◌, codes, nat_eq};
ghost use Rattle.std.specs.Cmp.Lexicographic.{pointwise};
ghost use Rattle.std.specs.Option.{option_copied};
ghost use Rattle.gd_item.specs.Tags.{is_matching, is_spelling, is_spelling_of_some};

use crate::item::Tag;
use gd_names::{Exact, Text};
use std::alloc::AllocError;

/// The condition of a request: none, or the text of its `If-Match`.
#[derive(Debug, PartialEq, Eq, Drop)]
pub enum Condition {
    Free,
    Match(Text),
}

impl Clone for Condition {
    ghost is_clone = { λ a b. b ≡ a };

    fn clone(&self) -> Result<Condition, AllocError> {
        match self {
            Condition::Free => Ok(Condition::Free),
            Condition::Match(text) => Ok(Condition::Match(text.clone()?)),
        }
    }
}

impl Exact for Condition {
    ghost exact = { λ x y h. h };
}

/// Whether the text is the bare one in double quotes.
fn is_quoted(text: &[u8], bare: &[u8]) -> bool
    ensures { result ≡ pointwise nat_eq text.now (codes "\"" ++ bare.now ++ codes "\"") }
{
    if text.len() != bare.len() + 2 {
        return false;
    }
    if text[0] != b'"' || text[bare.len() + 1] != b'"' {
        return false;
    }
    &text[1..bare.len() + 1] == bare
}

/// Whether the text is the tag, bare or in double quotes.
fn spells(text: &[u8], tag: &Tag) -> bool
    ensures { result ≡ is_spelling text.now tag.now }
{
    let bare = tag.0.as_bytes();
    text == bare || is_quoted(text, bare)
}

/// Whether the text is the tag, if there is one.
fn spells_some(text: &[u8], tag: Option<&Tag>) -> bool
    ensures { result ≡ is_spelling_of_some text.now (option_copied tag.entry) }
{
    match tag {
        Some(tag) => spells(text, tag),
        None => false,
    }
}

/// Whether the condition holds of an item with these tags. Takes no memory.
pub fn matches(condition: &Condition, etag: &Tag, ctag: Option<&Tag>) -> bool
    ensures { result ≡ is_matching condition.now etag.now (option_copied ctag.entry) }
{
    match condition {
        Condition::Free => true,
        Condition::Match(text) => {
            let text = text.as_bytes();
            text == b"*".as_slice() || spells(text, etag) || spells_some(text, ctag)
        }
    }
}
