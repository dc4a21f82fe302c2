ghost use Rattle.std.specs.Prelude.{◌≡◌, nat_eq, slice_index};
ghost use Rattle.gd_json.specs.Numbers.{number_of_text};

/// The number below 2^64 that digits spell. Zeros may come first.
#[tactic(auto, unfolding(gd_json::specs::Numbers::number_of_text))]
pub fn number_of(digits: &[u8]) -> Option<u64>
    ensures { result ≡ number_of_text digits.now }
{
    let text = match str::from_utf8(digits) {
        Ok(text) => text,
        Err(_) => return None,
    };
    if begins_with_plus(digits) {
        return None;
    }
    match text.parse::<u64>() {
        Ok(number) => Some(number),
        Err(_) => None,
    }
}

fn begins_with_plus(text: &[u8]) -> bool
    ensures { result ≡ nat_eq (slice_index text.now 0) 43 }
{
    matches!(text, [b'+', ..])
}
