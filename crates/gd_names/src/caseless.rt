ghost use Rattle.std.specs.Prelude.{◌≡◌, ℕ, ◌-◌, List, ◌++◌, false, length, take, drop, IfSome, MatchOption};
ghost use Rattle.gd_names.specs.Caseless.{equal_caseless};

use crate::text::Text;

/// Whether two names are equal once `A` to `Z` are read as `a` to `z`. Takes no memory.
pub fn same_caseless(a: &Text, b: &Text) -> bool
    ensures { result ≡ equal_caseless a.now b.now }
{
    a.as_str().eq_ignore_ascii_case(b.as_str())
}

/// What follows the front in a text that begins with it, but for case. Takes no memory.
pub fn strip_caseless_front<'a>(text: &'a [u8], front: &[u8]) -> Option<&'a [u8]>
    ensures rest { MatchOption result
        ((rest : List ℕ) → equal_caseless text.now (front.now ++ rest) ≡ false)
        (λ left. (rest : List ℕ) → equal_caseless text.now (front.now ++ rest) ≡ equal_caseless left.now rest) }
    ensures left { IfSome result (λ left. left.now ≡ drop (length front.now) text.now) }
{
    if text.len() < front.len() {
        return None;
    }
    let (begin, left) = text.split_at(front.len());
    if equal_bytes(begin, front) {
        Some(left)
    } else {
        None
    }
}

/// What stands before the end in a text that ends with it, but for case. Takes no memory.
pub fn strip_caseless_end<'a>(text: &'a [u8], end: &[u8]) -> Option<&'a [u8]>
    ensures rest { MatchOption result
        ((rest : List ℕ) → equal_caseless text.now (rest ++ end.now) ≡ false)
        (λ left. (rest : List ℕ) → equal_caseless text.now (rest ++ end.now) ≡ equal_caseless left.now rest) }
    ensures left { IfSome result (λ left. left.now ≡ take (length text.now - length end.now) text.now) }
{
    if text.len() < end.len() {
        return None;
    }
    let (left, last) = text.split_at(text.len() - end.len());
    if equal_bytes(last, end) {
        Some(left)
    } else {
        None
    }
}

fn equal_bytes(a: &[u8], b: &[u8]) -> bool
    ensures { result ≡ equal_caseless a.now b.now }
{
    a.eq_ignore_ascii_case(b)
}
