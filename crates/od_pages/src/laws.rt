// What a mirror makes of a drive's pages, each law the contract of a function that does nothing.
ghost use Rattle.std.specs.Prelude.{◌≡◌, ℕ, true, false, List, [], ◌∷◌, ◌++◌, map, None, Some, Option};
ghost use Rattle.std.specs.Map.{values_of};
ghost use Rattle.gd_names.specs.Ordered.{in_order};
ghost use Rattle.gd_item.specs.Inventory.{Inventory};
ghost use Rattle.gd_item.specs.Answers.{answer_of};
ghost use Rattle.gd_item.specs.Records.{feed, record_of, records_of};
ghost use Rattle.gd_item.specs.Replies.{is_page_or_gone};
ghost use Rattle.gd_item.specs.Sound.{IsItemMap};
ghost use Rattle.gd_item.specs.Steps.{state_of, held_by};
ghost use Rattle.gd_item.specs.Views.{uncounted, ItemsAre};
ghost use Rattle.gd_laws.specs.Placed.{placed_items};
ghost use Rattle.od_mirror.specs.Digests.{learned};
ghost use Rattle.od_mirror.specs.Pulled.{Pulled, begun, after_page, with_records, nodes, IsView, AllFit, IsLeastBad, paths_of};
ghost use Rattle.od_pages.specs.Pulls.{Hears, IsDigestThere, IsLastPage, IsPull, IsTokenNow, token_then};

use gd_item::{Digest, Item, ItemId, Page, Request, Step, Tag};
use od_mirror::MirrorView;

/// The feed of a drive from its beginning gives the root and the items. They fit, and each stands at its path.
pub fn a_feed_gives_the_drive()
    ensures items { (log : List Step) (start : ℕ) → values_of (with_records [] (values_of (feed (held_by log) 0 start))) ≡ records_of (held_by log) }
    ensures fit { (held : Inventory) → IsItemMap held → AllFit (nodes (records_of held)) }
    ensures paths { (held : Inventory) → IsItemMap held → paths_of (records_of held) ≡ in_order (map (λ entry. (entry.0, record_of held.items entry.1)) (placed_items held)) }
{}

/// A pull over items and a token that are a drive's gives the drive's items, which never make a bad drive. Of a drive that is not
/// plain they are exact but for the numbers of children. With the new token they are the drive's in turn.
pub fn a_pull_gives_the_drive()
    ensures items { (items : List Item) (token : Option (List ℕ)) (log : List Step) (page : Page) (view : MirrorView)
        → ItemsAre items log token → IsLastPage log token page → IsView (after_page (begun items token) page) view
        → (state_of log).plain ≡ false → map uncounted view.items ≡ map uncounted (records_of (held_by log)) }
    ensures sound { (items : List Item) (token : Option (List ℕ)) (log : List Step) (page : Page) (view : MirrorView)
        → ItemsAre items log token → IsLastPage log token page → IsView (after_page (begun items token) page) view → ItemsAre view.items log (Some view.token) }
    ensures never_bad { (items : List Item) (token : Option (List ℕ)) (log : List Step) (page : Page) (number : ℕ)
        → ItemsAre items log token → IsLastPage log token page → IsLeastBad (nodes (values_of (after_page (begun items token) page).items)) number → ⊥ }
{}

/// A pull that begins with nothing gives the items of a drive that is not plain exactly, and the token of that moment.
pub fn a_first_pull_gives_the_drive()
    ensures items { (log : List Step) (page : Page) (view : MirrorView)
        → IsLastPage log None page → IsView (after_page (begun [] None) page) view → (state_of log).plain ≡ false → view.items ≡ records_of (held_by log) }
    ensures token { (log : List Step) (page : Page) (view : MirrorView)
        → IsLastPage log None page → IsView (after_page (begun [] None) page) view → view.token ≡ token_then log }
{}

/// A pull over pages, between which anybody changes the drive, gives the items of the drive as it is when the last page is
/// given, and they never make a bad drive. Of a drive that is not plain they are exact but for the numbers of children. The new
/// token stands at the drive's number, and with it they are the drive's in turn.
pub fn a_pull_over_pages_gives_the_drive()
    ensures items { (log : List Step) (pulled : Pulled) (page : Page) (view : MirrorView)
        → IsPull log pulled → IsLastPage log pulled.token page → IsView (after_page pulled page) view
        → (state_of log).plain ≡ false → map uncounted view.items ≡ map uncounted (records_of (held_by log)) }
    ensures sound { (log : List Step) (pulled : Pulled) (page : Page) (view : MirrorView)
        → IsPull log pulled → IsLastPage log pulled.token page → IsView (after_page pulled page) view → ItemsAre view.items log (Some view.token) }
    ensures token { (log : List Step) (pulled : Pulled) (page : Page) (view : MirrorView)
        → IsPull log pulled → IsLastPage log pulled.token page → IsView (after_page pulled page) view → IsTokenNow log view.token }
    ensures never_bad { (log : List Step) (pulled : Pulled) (page : Page) (number : ℕ)
        → IsPull log pulled → IsLastPage log pulled.token page → IsLeastBad (nodes (values_of (after_page pulled page).items)) number → ⊥ }
{}

/// A pull begins with items and a token that are the drive's, and goes on by each step of the drive's log. The drive answers each
/// of its requests with a page, or that it begin anew.
pub fn a_pull_goes_on()
    ensures begins { (log : List Step) (items : List Item) (token : Option (List ℕ)) → ItemsAre items log token → IsPull log (begun items token) }
    ensures goes_on { (log : List Step) (pulled next : Pulled) (step : Step) → IsPull log pulled → Hears log pulled step next → IsPull (log ++ step ∷ []) next }
    ensures answered { (log : List Step) (pulled : Pulled) (size : ℕ) → IsPull log pulled → is_page_or_gone (answer_of log size (Request.Delta pulled.token)) ≡ true }
{}

/// Items that are the drive's now stay so where a file without a digest gets the digest that it has on the drive.
pub fn a_right_digest_keeps_the_drive()
    ensures { (log : List Step) (items : List Item) (token : List ℕ) (id : ItemId) (etag : Tag) (digest : Digest)
        → IsTokenNow log token → ItemsAre items log (Some token) → IsDigestThere log id etag digest → ItemsAre (map (learned id etag digest) items) log (Some token) }
{}
