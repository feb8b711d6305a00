//! Places in a ring: each names the place used just after it and the place used just before it.
ghost use Rattle.std.specs.Prelude.{◌≡◌, ◌<◌, ℕ, length};
ghost use Rattle.hg_cache.specs.Rings.{key_at, linked, newer_at, older_at, unlinked, with_key, with_newer, with_older, without_key};

/// A place, and the key that has it.
#[derive(Clone, Copy, Drop)]
pub(crate) struct Node {
    pub(crate) key: u64,
    pub(crate) newer: u32,
    pub(crate) older: u32,
    pub(crate) is_used: bool,
}

/// The key in a place.
#[inline(always)]
pub(crate) fn key(nodes: &Vec<Node>, place: u32) -> u64
    requires { place < length nodes.now.items }
    ensures { result ≡ key_at nodes.now.items place }
{
    nodes[place as usize].key
}

/// The place used just after this one.
#[inline(always)]
pub(crate) fn newer(nodes: &Vec<Node>, place: u32) -> u32
    requires { place < length nodes.now.items }
    ensures { result ≡ newer_at nodes.now.items place }
{
    nodes[place as usize].newer
}

/// The place used just before this one.
#[inline(always)]
pub(crate) fn older(nodes: &Vec<Node>, place: u32) -> u32
    requires { place < length nodes.now.items }
    ensures { result ≡ older_at nodes.now.items place }
{
    nodes[place as usize].older
}

#[inline(always)]
fn set_newer(nodes: &mut Vec<Node>, place: u32, newer: u32)
    requires { place < length nodes.old.items }
    ensures { nodes.new.items ≡ with_newer nodes.old.items place newer }
{
    nodes[place as usize].newer = newer;
}

#[inline(always)]
fn set_older(nodes: &mut Vec<Node>, place: u32, older: u32)
    requires { place < length nodes.old.items }
    ensures { nodes.new.items ≡ with_older nodes.old.items place older }
{
    nodes[place as usize].older = older;
}

/// Gives a place a key.
pub(crate) fn set_key(nodes: &mut Vec<Node>, place: u32, key: u64)
    requires { place < length nodes.old.items }
    ensures { nodes.new.items ≡ with_key nodes.old.items place key }
{
    let Node { newer, older, .. } = nodes[place as usize];
    nodes[place as usize] = Node {
        key,
        newer,
        older,
        is_used: true,
    };
}

/// Removes the key of a place.
pub(crate) fn clear_key(nodes: &mut Vec<Node>, place: u32)
    requires { place < length nodes.old.items }
    ensures { nodes.new.items ≡ without_key nodes.old.items place }
{
    nodes[place as usize].is_used = false;
}

/// Takes a place out of the ring.
#[inline(always)]
pub(crate) fn unlink(nodes: &mut Vec<Node>, place: u32)
    requires place { place < length nodes.old.items }
    requires newer { newer_at nodes.old.items place < length nodes.old.items }
    requires older { older_at nodes.old.items place < length nodes.old.items }
    ensures { nodes.new.items ≡ unlinked nodes.old.items place }
{
    let newer = newer(nodes, place);
    let older = older(nodes, place);
    set_older(nodes, newer, older);
    set_newer(nodes, older, newer);
}

/// Puts a place behind the one that closes the ring.
#[inline(always)]
pub(crate) fn link(nodes: &mut Vec<Node>, end: u32, place: u32)
    requires place { place < length nodes.old.items }
    requires end { end < length nodes.old.items }
    requires first { older_at nodes.old.items end < length nodes.old.items }
    ensures { nodes.new.items ≡ linked nodes.old.items end place }
{
    let first = older(nodes, end);
    set_newer(nodes, place, end);
    set_older(nodes, place, first);
    set_newer(nodes, first, place);
    set_older(nodes, end, place);
}
