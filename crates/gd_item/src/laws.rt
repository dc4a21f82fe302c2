//! Laws of the definitions, each the contract of a function that does nothing.
ghost use Rattle.std.specs.Prelude.{◌≡◌, ℕ, ◌<◌, ◌^◌, List, Some};
ghost use Rattle.gd_item.specs.Ids.{id_text, id_of_text};
ghost use Rattle.gd_item.specs.Tokens.{token_text, token_of_text};

use crate::token::Token;

/// The text of an id is read back as its number.
pub fn ids_read_back()
    ensures { (n : ℕ) → 0 < n → n < 2 ^ 64 → id_of_text (id_text n) ≡ Some n }
{}

/// The text of a token is read back as the token, and no other text is.
pub fn tokens_read_back()
    ensures read { (token : Token) → token.epoch < 2 ^ 64 → token.position < 2 ^ 64 → token.start < 2 ^ 64 → token_of_text (token_text token) ≡ Some token }
    ensures exact { (text : List ℕ) (token : Token) → token_of_text text ≡ Some token
        → (text ≡ token_text token) × (token.epoch < 2 ^ 64) × (token.position < 2 ^ 64) × (token.start < 2 ^ 64) }
{}
