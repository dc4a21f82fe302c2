//! Laws of the definitions. Each function does nothing: its contract is the law.
ghost use Rattle.std.specs.Prelude.{◌≡◌, ℕ, ◌<◌, ◌^◌, true, false, List, Some, None, codes};
ghost use Rattle.gd_names.specs.Escapes.{IsSegmentName};
ghost use Rattle.gd_item.specs.declared.id.ItemId.{ItemId};
ghost use Rattle.gd_json.specs.Bases.{is_base};
ghost use Rattle.gd_json.specs.Links.{is_token, delta_link, token_of_link, children_link, name_of_link, upload_link, session_of_link};

/// Each link is read as what it was written for, and a link with a token is the one that is written for it.
pub fn links_read_back()
    ensures token { (base token : List ℕ) → is_token token ≡ true → token_of_link base (delta_link base token) ≡ Some token }
    ensures token_only { (base text token : List ℕ) → token_of_link base text ≡ Some token → (text ≡ delta_link base token) × (is_token token ≡ true) }
    ensures name { (base name : List ℕ) (id : ItemId) → IsSegmentName name → name_of_link base id (children_link base id name) ≡ Some name }
    ensures session { (base : List ℕ) (session : ℕ) → session < 2 ^ 64 → session_of_link base (upload_link base session) ≡ Some session }
{}

/// A base of links, and two texts that are none.
#[tactic(auto, unfolding(crate::specs::Bases::is_base))]
pub fn bases_told()
    ensures base { is_base (codes "http://127.0.0.1:8080") ≡ true }
    ensures secure { is_base (codes "https://a:1") ≡ false }
    ensures slash { is_base (codes "http://a:1/") ≡ false }
{}
