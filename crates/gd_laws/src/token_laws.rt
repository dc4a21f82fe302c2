//! The tokens of the feed and what a drive gives for them, each law the contract of a function that does nothing.
ghost use Rattle.std.specs.Prelude.{◌≡◌, ℕ, true, List, ◌++◌, Some, None, Option};
ghost use Rattle.std.specs.List.{list_all};
ghost use Rattle.gd_item.specs.Answers.{answer_of};
ghost use Rattle.gd_item.specs.Steps.{state_of, number_of};
ghost use Rattle.gd_item.specs.Tokens.{token_of_text};
ghost use Rattle.gd_laws.specs.Served.{is_served_token, is_token_safe, IsPagePast, IsLastPast};

use gd_item::{Page, PageLink, Reply, Request, Step, Token};

/// Where a drive serves a token, and where none is sent, it answers with a page.
pub fn a_served_token_has_a_page()
    ensures { (log : List Step) (size : ℕ) (token : Option (List ℕ)) → is_served_token (state_of log) token ≡ true → (page : Page) × (answer_of log size (Request.Delta token) ≡ Reply.Page page) }
{}

/// A page that is given for a token has what changed past the token's position, and one that is given for none has all
/// that lives.
pub fn a_page_has_what_changed()
    ensures past { (log : List Step) (size : ℕ) (text : List ℕ) (token : Token) (page : Page) → token_of_text text ≡ Some token
        → Reply.Page page ≡ answer_of log size (Request.Delta (Some text)) → IsPagePast (state_of log) token.position token.start size page }
    ensures first { (log : List Step) (size : ℕ) (page : Page)
        → Reply.Page page ≡ answer_of log size (Request.Delta None) → IsPagePast (state_of log) 0 (number_of log) size page }
{}

/// The last page has all of it.
pub fn a_last_page_has_all_that_changed()
    ensures past { (log : List Step) (size : ℕ) (text end : List ℕ) (token : Token) (page : Page) → token_of_text text ≡ Some token
        → Reply.Page page ≡ answer_of log size (Request.Delta (Some text)) → page.link ≡ PageLink.Delta end → IsLastPast (state_of log) token.position token.start page end }
    ensures first { (log : List Step) (size : ℕ) (end : List ℕ) (page : Page)
        → Reply.Page page ≡ answer_of log size (Request.Delta None) → page.link ≡ PageLink.Delta end → IsLastPast (state_of log) 0 (number_of log) page end }
{}

/// A drive serves the token at the end of each page that it gave, that of the next page and that of the last one.
pub fn a_given_token_is_served()
    ensures last { (log : List Step) (token : Option (List ℕ)) (size : ℕ) (page : Page) (text : List ℕ)
        → Reply.Page page ≡ answer_of log size (Request.Delta token) → page.link ≡ PageLink.Delta text → is_served_token (state_of log) (Some text) ≡ true }
    ensures next { (log : List Step) (token : Option (List ℕ)) (size : ℕ) (page : Page) (text : List ℕ)
        → Reply.Page page ≡ answer_of log size (Request.Delta token) → page.link ≡ PageLink.Next text → is_served_token (state_of log) (Some text) ≡ true }
{}

/// A token stays served whoever asks the drive for whatever, until tokens expire or the drive is restored.
pub fn a_served_token_stays()
    ensures { (log more : List Step) (token : Option (List ℕ)) → list_all is_token_safe more ≡ true
        → is_served_token (state_of log) token ≡ true → is_served_token (state_of (log ++ more)) token ≡ true }
{}
