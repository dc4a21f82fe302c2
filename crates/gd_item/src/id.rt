ghost use Rattle.std.specs.Prelude.{◌≡◌, ◌<◌, length, if◌then◌else◌, IfOk, IfSome, Some, None};
ghost use Rattle.std.specs.List.{list_all};
ghost use Rattle.std.specs.Option.{option_map};
ghost use Rattle.gd_item.specs.Ids.{id_text, id_of_text, item_id, is_upper_hex, hex_value, hex_number_from};

use gd_names::{Exact, NoMemory, Text};
use std::alloc::Global;

/// The number of an item: 1 for the root, and then 2, 3 and so on in order of making. A number is never used again.
#[derive(Clone, Copy, Debug, PartialEq, Eq)]
pub struct ItemId(pub u64);

impl Exact for ItemId {
    ghost use Rattle.std.proofs.Common.{rules};

    ghost exact = { Prim.search rules };
}

/// The value of a hexadecimal digit in upper case.
fn digit_value(digit: u8) -> Option<u64>
    ensures value { result ≡ (if is_upper_hex digit then Some (hex_value digit) else None) }
    ensures below { IfSome result (λ value. value < 16) }
{
    match digit {
        b'0'..=b'9' => Some(u64::from(digit - b'0')),
        b'A'..=b'F' => Some(u64::from(digit - b'A') + 10),
        _ => None,
    }
}

/// The number that sixteen hexadecimal digits spell.
fn hex_number(digits: &[u8]) -> Option<u64>
    requires { length digits.now ≡ 16 }
    ensures { result ≡ (if list_all is_upper_hex digits.now then Some (hex_number_from 0 digits.now) else None) }
{
    let mut number: u64 = 0;
    for digit in digits {
        number = 16 * number + digit_value(*digit)?;
    }
    Some(number)
}

impl ItemId {
    /// The id as replies have it.
    pub fn write(&self, alloc: Global) -> Result<Text, NoMemory>
        ensures { IfOk result (λ t. t ≡ id_text self.now.0) }
    {
        let number = self.0;
        let text = format!(in alloc; "01GD{number:016X}")?;
        Ok(Text::from_string(text))
    }

    /// Reads an id as `write` spells it. Takes no memory.
    pub fn read(text: &[u8]) -> Option<ItemId>
        ensures { result ≡ option_map item_id (id_of_text text.now) }
    {
        if text.len() != 20 || !text.starts_with(b"01GD") {
            return None;
        }
        let number = hex_number(&text[4..])?;
        if number == 0 {
            None
        } else {
            Some(ItemId(number))
        }
    }
}
