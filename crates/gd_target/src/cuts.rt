ghost use Rattle.std.specs.Prelude.{◌≡◌, ◌≢◌, ℕ, ◌<◌, ◌≤◌, length, slice_index, option_map, IfSome};
ghost use Rattle.gd_json.specs.Links.{past};
ghost use Rattle.gd_target.specs.Cuts.{cut, front, behind};

/// What follows the front, where the text has it.
#[tactic(auto, unfolding(gd_json::specs::Links::past))]
pub fn past<'t>(front: &[u8], text: &'t [u8]) -> Option<&'t [u8]>
    ensures { option_map (λ rest. rest.now) result ≡ past front.now text.now }
{
    if text.starts_with(front) {
        Some(&text[front.len()..])
    } else {
        None
    }
}

/// The index of the first such byte, or the text's length where there is none.
fn byte_or_end(text: &[u8], at: u8) -> usize
    ensures within { result ≤ length text.now }
    ensures before { (k : ℕ) → k < result → slice_index text.now k ≢ at }
    ensures found { result < length text.now → slice_index text.now result ≡ at }
{
    for (i, byte) in text.iter().enumerate() {
        if *byte == at {
            return i;
        }
    }
    text.len()
}

/// What stands before the first such byte, and what follows that, where there is one.
pub fn cut(text: &[u8], at: u8) -> (&[u8], Option<&[u8]>)
    ensures parts { cut at text.now ≡ (result.0.now, option_map (λ rest. rest.now) result.1) }
    ensures shorter { IfSome result.1 (λ rest. length rest.now < length text.now) }
{
    let (part, others) = text.split_at(byte_or_end(text, at));
    match others {
        [_, rest @ ..] => (part, Some(rest)),
        [] => (part, None),
    }
}

/// What stands before the first such byte, and what follows it.
pub fn parts_at(text: &[u8], at: u8) -> (&[u8], &[u8])
    ensures front { result.0.now ≡ front at text.now }
    ensures behind { result.1.now ≡ behind at text.now }
{
    match cut(text, at) {
        (front, Some(rest)) => (front, rest),
        (front, None) => (front, &[]),
    }
}
