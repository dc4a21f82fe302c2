//! Numbers and ids in texts.
ghost use Rattle.std.specs.Prelude.{◌≡◌, nat_eq, slice_index, IfOk};
ghost use Rattle.gd_json.specs.Numbers.{number_of_text, expected_of_text, item_id_of, id_written};

use gd_item::ItemId;
use gd_names::{NoMemory, Text};
use std::alloc::Global;

/// The number that digits spell. Zeros may come first.
#[tactic(auto, unfolding(crate::specs::Numbers::number_of_text))]
pub fn number_of(digits: &[u8]) -> Option<u64>
    ensures { result ≡ number_of_text digits.now }
{
    let text = match str::from_utf8(digits) {
        Ok(text) => text,
        Err(_) => return None,
    };
    if begins_with_plus(digits) {
        return None;
    }
    match text.parse::<u64>() {
        Ok(number) => Some(number),
        Err(_) => None,
    }
}

fn begins_with_plus(text: &[u8]) -> bool
    ensures { result ≡ nat_eq (slice_index text.now 0) 43 }
{
    matches!(text, [b'+', ..])
}

/// The byte with which a range begins that has no end.
#[tactic(auto, unfolding(crate::specs::Numbers::expected_of_text))]
pub fn expected_of(range: &[u8]) -> Option<u64>
    ensures { result ≡ expected_of_text range.now }
{
    if range.ends_with(b"-") {
        number_of(&range[..range.len() - 1])
    } else {
        None
    }
}

#[tactic(auto, unfolding(crate::specs::Numbers::item_id_of))]
pub fn item_id_of(text: &str) -> Option<ItemId>
    ensures { result ≡ item_id_of text.now }
{
    ItemId::read(text.as_bytes())
}

#[tactic(auto, unfolding(crate::specs::Numbers::id_written))]
pub fn id_text(alloc: Global, id: ItemId) -> Result<Text, NoMemory>
    ensures { IfOk result (λ t. t ≡ id_written id) }
{
    id.write(alloc)
}
