ghost use Rattle.std.specs.Prelude.{◌≡◌};
ghost use Rattle.od_sync.specs.Comparing.{is_same, is_same_entry, is_same_node};

use crate::scanning::Node;
use gd_item::{Item, Kind};
use gd_names::Path;

fn is_same_node(node: Node, kind: Kind) -> bool
    ensures { result ≡ is_same_node node kind }
{
    match (node, kind) {
        (Node::Folder, Kind::Folder { .. }) => true,
        (Node::File(digest), Kind::File { digest: other }) => digest == other,
        _ => false,
    }
}

fn is_same_entry(local: &(Path, Node), remote: &(Path, Item)) -> bool
    ensures { result ≡ is_same_entry local.now remote.now }
{
    local.0 == remote.0 && is_same_node(local.1, remote.1.kind)
}

/// Whether the entries of a scan are those that the drive shows, both in order of path.
pub fn is_same(local: &[(Path, Node)], remote: &[(Path, Item)]) -> bool
    ensures { result ≡ is_same local.now remote.now }
{
    let mut ours = local;
    let mut theirs = remote;
    while let [a, more @ ..] = ours {
        let [b, others @ ..] = theirs else {
            return false;
        };
        if !is_same_entry(a, b) {
            return false;
        }
        ours = more;
        theirs = others;
    }
    theirs.is_empty()
}
