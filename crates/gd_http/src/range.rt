ghost use Rattle.std.specs.Prelude.{◌≡◌};
ghost use Rattle.std.specs.Prelude.{Some, None, option_map};
ghost use Rattle.gd_http.specs.Headers.{range_of_text, range_in_parts, range_to};
ghost use Rattle.gd_target.specs.Queries.{shown};

use gd_target::{cut, number_of, past};

/// The range of a fragment, as `Content-Range` has it.
#[derive(Clone, Copy, Debug, PartialEq, Eq)]
pub struct Range {
    pub first: u64,
    pub last: u64,
    pub total: u64,
}

fn range_to(first: &[u8], last: &[u8], total: Option<&[u8]>) -> Option<Range>
    ensures { result ≡ range_to first.now (last.now, shown total.entry) }
{
    let total = match total {
        Some(total) => total,
        None => return None,
    };
    match (number_of(first), number_of(last), number_of(total)) {
        (Some(first), Some(last), Some(total)) => Some(Range { first, last, total }),
        _ => None,
    }
}

fn range_in_parts(first: &[u8], rest: Option<&[u8]>) -> Option<Range>
    ensures { result ≡ range_in_parts (first.now, shown rest.entry) }
{
    match rest {
        Some(rest) => {
            let (last, total) = cut(rest, b'/');
            range_to(first, last, total)
        }
        None => None,
    }
}

#[tactic(auto, unfolding(crate::specs::Headers::range_of_text))]
pub fn range_of_text(text: &[u8]) -> Option<Range>
    ensures { result ≡ range_of_text text.now }
{
    match past(b"bytes ", text) {
        Some(rest) => {
            let (first, rest) = cut(rest, b'-');
            range_in_parts(first, rest)
        }
        None => None,
    }
}
