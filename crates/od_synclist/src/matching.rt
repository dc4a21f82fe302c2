//! The match of a pattern with items. It takes no memory and no more than about as many steps as the product of
//! the two lengths, however many runs the pattern has: where a part after a run fails, it goes back to that run
//! and no further, since a later run makes up for whatever an earlier one leaves.
ghost use Rattle.std.specs.Prelude.{◌≡◌, ◌<◌, Bool, ◌&&◌, length, nat_eq, IsTrue};
ghost use Rattle.std.specs.List.{list_any};
ghost use Rattle.od_synclist.specs.Matching.{is_star, is_any_path, matches, matches_name};
ghost use Rattle.od_synclist.specs.Rules.{begins};
ghost use Rattle.od_synclist.specs.Search.{reaches, tails, is_end};
ghost use Rattle.od_synclist.specs.Walked.{Walked};

use gd_names::{Bytes, Text};

/// A part of a pattern over items of a type: a run, or what takes one item.
pub trait Part<N> {
    ghost is_run: { Self → Bool };

    ghost takes: { Self → N → Bool };

    fn is_run(&self) -> bool
        ensures { result ≡ is_run self.now };

    fn takes(&self, item: &N) -> bool
        ensures { result ≡ takes self.now item.now };
}

/// Goes along the parts and the items as long as parts that are no runs take items, and says what is left.
fn walk<'a, N, P: Part<N>>(parts: &'a [P], items: &'a [N]) -> (&'a [P], &'a [N])
    ensures { Walked P.is_run P.takes parts.now items.now result.0.now result.1.now }
{
    let mut part = parts;
    let mut left = items;
    while let [first, other_parts @ ..] = part {
        if first.is_run() {
            return (part, left);
        }
        let [item, other_items @ ..] = left else {
            return (part, left);
        };
        if !first.takes(item) {
            return (part, left);
        }
        part = other_parts;
        left = other_items;
    }
    (part, left)
}

/// Whether a run comes next.
fn is_at_run<N, P: Part<N>>(part: &[P]) -> bool
    ensures value { result ≡ begins P.is_run part.now }
    ensures some { IsTrue result → 0 < length part.now }
{
    match part {
        [] => false,
        [first, ..] => first.is_run(),
    }
}

/// Whether an end serves at which so many items are left.
fn serves(whole: bool, fewer: usize, left: usize) -> bool
    ensures { result ≡ is_end whole fewer left }
{
    if left == 0 { whole } else { left < fewer }
}

/// Whether no part is left, and this is an end that serves.
fn is_at_end<N, P>(part: &[P], left: &[N], whole: bool, fewer: usize) -> bool
    ensures { result ≡ (nat_eq (length part.now) 0 && is_end whole fewer (length left.now)) }
{
    part.is_empty() && serves(whole, fewer, left.len())
}

/// Whether the parts reach such an end from the items, or from what is left of them after some.
fn reach_later<N, P: Part<N>>(parts: &[P], items: &[N], whole: bool, fewer: usize) -> bool
    ensures { result ≡ list_any (reaches P.is_run P.takes (is_end whole fewer) parts.now) (tails items.now) }
{
    let mut after_run = parts;
    let mut from = items;
    'tries: loop {
        let (part, left) = walk(after_run, from);
        if is_at_run(part) {
            after_run = &part[1..];
            from = left;
        } else if is_at_end(part, left, whole, fewer) {
            return true;
        } else {
            let [_, others @ ..] = from else {
                return false;
            };
            from = others;
        }
    }
}

/// Whether the parts match the first items up to an end that serves: that of the items, if the whole may be matched,
/// or one at which fewer items are left than this.
pub fn reach<N, P: Part<N>>(parts: &[P], items: &[N], whole: bool, fewer: usize) -> bool
    ensures { result ≡ reaches P.is_run P.takes (is_end whole fewer) parts.now items.now }
{
    let (part, left) = walk(parts, items);
    match part {
        [] => serves(whole, fewer, left.len()),
        [run, other_parts @ ..] => run.is_run() && reach_later(other_parts, left, whole, fewer),
    }
}

impl Part<u8> for u8 {
    ghost is_run = { λ b. is_star b };

    ghost takes = { λ b item. nat_eq b item };

    fn is_run(&self) -> bool {
        *self == b'*'
    }

    fn takes(&self, item: &u8) -> bool {
        *self == *item
    }
}

/// Whether a component matches a name. A star matches any run of bytes, and all else matches itself.
fn matches_one(component: &[u8], name: &[u8]) -> bool
    ensures { result ≡ matches_name component.now name.now }
{
    reach(component, name, true, 0)
}

impl Part<Text> for Bytes {
    ghost is_run = { λ component. is_any_path component };

    ghost takes = { λ component name. matches_name component name };

    fn is_run(&self) -> bool {
        self.as_slice() == b"**".as_slice()
    }

    fn takes(&self, name: &Text) -> bool {
        matches_one(self.as_slice(), name.as_bytes())
    }
}
