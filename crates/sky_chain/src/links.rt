ghost use Rattle.std.specs.Prelude.{◌≡◌, ◌≢◌, ℕ, ◌<◌, Some, length, slice_get, vec_len, vec_capacity};
ghost use Rattle.sky_chain.specs.Links.{nowhere, at_place};
ghost use Rattle.sky_chain.specs.declared.links.Link.{Link};
ghost use Rattle.sky_chain.specs.Joins.{next_set, linked, ends_joined, inserted, spare_node, with_spare};

/// No place: what comes before the first node of a list, and after the last.
pub(crate) const NOWHERE: usize = usize::MAX;

/// Marks the ends of a list that was freed. No vector of links is so long.
pub(crate) const FREED: usize = usize::MAX - 1;

/// A node's neighbours, and the list that it is in. A spare node is in none, and its `next` leads to another spare one.
#[derive(Clone, Copy, Debug)]
pub(crate) struct Link {
    pub(crate) prev: usize,
    pub(crate) next: usize,
    pub(crate) list: usize,
}

impl Link {
    ghost use Rattle.sky_chain.specs.Links.{spare_link};

    /// The link of a spare node, which leads to another one.
    pub(crate) fn spare(next: usize) -> Link
        ensures { result ≡ spare_link next }
    {
        Link {
            prev: NOWHERE,
            next,
            list: NOWHERE,
        }
    }
}

/// The first and the last node of a list. If the list was freed, `first` leads to another freed number.
#[derive(Clone, Copy, Debug)]
pub(crate) struct Ends {
    pub(crate) first: usize,
    pub(crate) last: usize,
}

impl Ends {
    ghost use Rattle.sky_chain.specs.Links.{empty_ends, freed_ends};

    /// The ends of a list without nodes.
    pub(crate) fn empty() -> Ends
        ensures { result ≡ empty_ends }
    {
        Ends {
            first: NOWHERE,
            last: NOWHERE,
        }
    }

    /// The ends of a freed list, which lead to another freed number.
    pub(crate) fn freed(next: usize) -> Ends
        ensures { result ≡ freed_ends next }
    {
        Ends {
            first: next,
            last: FREED,
        }
    }
}

/// The place, if it is one.
pub(crate) fn known(place: usize) -> Option<usize>
    ensures { result ≡ at_place place }
{
    if place == NOWHERE { None } else { Some(place) }
}

/// Makes two nodes of a list neighbours. `NOWHERE` is what comes before its first node and after its last.
pub(crate) fn join(links: &mut [Link], ends: &mut Ends, before: usize, after: usize)
    requires before { before ≢ nowhere → before < length links.old }
    requires after { after ≢ nowhere → after < length links.old }
    ensures links { (z : ℕ) → slice_get links.new z ≡ linked (slice_get links.old) before after z }
    ensures ends { ends.new ≡ ends_joined ends.old before after }
{
    if before == NOWHERE {
        ends.first = after;
    } else {
        links[before].next = after;
    }
    if after == NOWHERE {
        ends.last = before;
    } else {
        links[after].prev = before;
    }
}

/// Inserts a node into a list, between two neighbours.
pub(crate) fn insert(
    links: &mut [Link],
    ends: &mut Ends,
    list: usize,
    node: usize,
    before: usize,
    after: usize,
)
    requires node { node < length links.old }
    requires before { before ≢ nowhere → before < length links.old }
    requires after { after ≢ nowhere → after < length links.old }
    ensures links { (z : ℕ) → slice_get links.new z ≡ inserted (slice_get links.old) list node before after z }
    ensures ends { ends.new ≡ ends_joined (ends_joined ends.old before node) node after }
{
    join(links, ends, before, node);
    join(links, ends, node, after);
    links[node].list = list;
}

/// Takes the next spare node. Its link is made if no spare node has one.
pub(crate) fn take_spare(links: &mut Vec<Link>, free: &mut usize) -> usize
    requires known { free.old ≢ nowhere → free.old < vec_len links.old }
    requires room { free.old ≡ nowhere → vec_len links.old < vec_capacity links.old }
    ensures node { result ≡ spare_node links.old.items free.old }
    ensures links { links.new.items ≡ with_spare links.old.items free.old }
    ensures capacity { vec_capacity links.new ≡ vec_capacity links.old }
    ensures free { (link : Link) → slice_get links.new.items result ≡ Some link → free.new ≡ link.next }
{
    if *free == NOWHERE {
        *free = links.len();
        links.push_reserved(Link::spare(NOWHERE));
    }
    let node = *free;
    *free = links[node].next;
    node
}
