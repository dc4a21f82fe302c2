ghost use Rattle.std.specs.Prelude.{◌≡◌, ℕ, List, [], ◌∷◌, IfOk, OnOk};
ghost use Rattle.od_merge.specs.Sides.{at, digest_of, same, is_folder, is_file, is_other_kind};
ghost use Rattle.od_reconcile.specs.Above.{or_else};
ghost use Rattle.od_reconcile.specs.Entries.{node_content, kind_content, local_tree, remote_tree};

use crate::types::Node;
use gd_item::{Digest, Item, Kind};
use gd_names::{NoMemory, Path};
use od_merge::Content;
use std::alloc::Global;
use std::collections::BTreeMap;

/// What a scan found, without sizes.
pub fn node_content(node: Node) -> Content
    ensures { result ≡ node_content node }
{
    match node {
        Node::Folder => Content::Folder,
        Node::File { digest, .. } => Content::File(digest),
    }
}

/// What a pull found. Of a file without a digest none is known.
pub fn kind_content(kind: Kind) -> Content
    ensures { result ≡ kind_content kind }
{
    match kind {
        Kind::Folder { .. } => Content::Folder,
        Kind::File { digest } => Content::File(Some(digest)),
        Kind::Bare => Content::File(None),
        Kind::Deleted => Content::File(None),
    }
}

/// The folder's side, from what a scan found, in its order.
pub fn local_tree(alloc: Global, local: &[(Path, Node)]) -> Result<Vec<(Path, Content)>, NoMemory>
    ensures { IfOk result (λ tree. tree.items ≡ local_tree local.now) }
{
    let mut tree = Vec::new(alloc);
    for entry in local {
        tree.push((entry.0.clone()?, node_content(entry.1)))?;
    }
    Ok(tree)
}

/// The drive's side, from what a pull found, in its order.
pub fn remote_tree(alloc: Global, remote: &[(Path, Item)]) -> Result<Vec<(Path, Content)>, NoMemory>
    ensures { IfOk result (λ tree. tree.items ≡ remote_tree remote.now) }
{
    let mut tree = Vec::new(alloc);
    for entry in remote {
        tree.push((entry.0.clone()?, kind_content(entry.1.kind)))?;
    }
    Ok(tree)
}

pub(crate) fn is_folder(content: Option<Content>) -> bool
    ensures { result ≡ is_folder content }
{
    match content {
        Some(Content::Folder) => true,
        _ => false,
    }
}

pub(crate) fn is_file(content: Option<Content>) -> bool
    ensures { result ≡ is_file content }
{
    match content {
        Some(Content::File(_)) => true,
        _ => false,
    }
}

pub(crate) fn is_other_kind(a: Option<Content>, b: Option<Content>) -> bool
    ensures { result ≡ is_other_kind a b }
{
    is_folder(a) && is_file(b) || is_file(a) && is_folder(b)
}

pub(crate) fn digest_of(content: Option<Content>) -> Option<Digest>
    ensures { result ≡ digest_of content }
{
    match content {
        None => None,
        Some(Content::Folder) => None,
        Some(Content::File(digest)) => digest,
    }
}

/// Whether the same stands there: an unknown digest is like no other.
pub(crate) fn is_same(a: Option<Content>, b: Option<Content>) -> bool
    ensures { result ≡ same a b }
{
    match (a, b) {
        (None, None) => true,
        (Some(Content::Folder), Some(Content::Folder)) => true,
        (Some(Content::File(Some(a))), Some(Content::File(Some(b)))) => a == b,
        _ => false,
    }
}

/// What stands at a path. Takes no memory.
pub fn content_at(index: &BTreeMap<Path, Content>, path: &Path) -> Option<Content>
    ensures { result ≡ at index.now.entries path.now }
{
    index.get(path).copied()
}

/// Puts an entry at a path where nothing stands.
fn put_absent(
    index: &mut BTreeMap<Path, Content>,
    path: &Path,
    content: Content,
) -> Result<(), NoMemory>
    ensures { OnOk result ((q : List (List ℕ)) → at index.new.entries q ≡ or_else (at index.old.entries q) (at ((path.now, content) ∷ []) q)) }
{
    if index.contains_key(path) {
        return Ok(());
    }
    index.insert(path.clone()?, content)?;
    Ok(())
}

/// What a tree has at each path, for quick look-ups. The first entry of a path counts.
pub fn index(alloc: Global, tree: &[(Path, Content)]) -> Result<BTreeMap<Path, Content>, NoMemory>
    ensures { IfOk result (λ index. (path : List (List ℕ)) → at index.entries path ≡ at tree.now path) }
{
    let mut found = BTreeMap::new(alloc);
    for entry in tree {
        put_absent(&mut found, &entry.0, entry.1)?;
    }
    Ok(found)
}
