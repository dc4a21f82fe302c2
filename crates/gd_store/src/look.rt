ghost use Rattle.std.specs.Prelude.{◌≡◌, map};
ghost use Rattle.gd_item.specs.Nodes.{live_node, is_folder, number_at};
ghost use Rattle.gd_item.specs.Refusals.{is_there};
ghost use Rattle.gd_item.specs.Moves.{is_taken_by_other as is_name_taken};
ghost use Rattle.gd_store.specs.Kept.{AreApart};

use gd_index::Index;
use gd_names::Text;

/// Whether the number is that of the root or of a living item.
pub fn is_known(items: &Index, number: u64) -> bool
    ensures { result ≡ is_there number (map live_node items.now) }
{
    number == 1 || items.get(number).is_some()
}

/// Whether the number is that of the root or of a living folder.
pub fn is_a_folder(items: &Index, number: u64) -> bool
    ensures { result ≡ is_folder number (map live_node items.now) }
{
    if number == 1 {
        return true;
    }
    match items.get(number) {
        None => false,
        Some(item) => item.bytes.is_none(),
    }
}

/// Whether another item of a folder has the name already, but for case.
pub fn is_taken_by_other(items: &Index, number: u64, parent: u64, name: &Text) -> bool
    requires { AreApart items.now }
    ensures { result ≡ is_name_taken number parent name.now items.now }
{
    match items.child(parent, name) {
        None => false,
        Some(other) => other != number,
    }
}

/// The number at the end of the names that go down from the root.
pub fn find_names(items: &Index, names: &[Text]) -> Option<u64>
    ensures { result ≡ number_at names.now (map live_node items.now) }
{
    let mut number = 1;
    for name in names {
        match items.child(number, name) {
            Some(child) => number = child,
            None => return None,
        }
    }
    Some(number)
}
