// The links of an LSA.
ghost use Rattle.std.specs.Prelude.{◌≡◌, ◌+◌, ◌*◌, ◌≤◌, length};
ghost use Rattle.lfa.specs.Lists.{every_below};
ghost use Rattle.ospf.specs.Lsa.{entry, sound_entry, router_field, entry_at, same_neighbour, entry_good, entry_new};

use super::field::{be16_at, be32_at};

// Whether a link of this router is not malformed by itself: a stub link, or a point-to-point link that has a metric and leads elsewhere.
fn link_good(router: u32, id: u32, kind: u8, tos: u8, metric: u16) -> bool
    ensures { result ≡ sound_entry router (entry id 0 kind tos metric) }
{
    if tos != 0 {
        return false;
    }
    if kind == 3 {
        return true;
    }
    if kind != 1 {
        return false;
    }
    if metric == 0 {
        return false;
    }
    id != router
}

// Whether link k is.
fn entry_good(l: &[u8], router: u32, k: usize) -> bool
    requires { (36 + 12 * k ≤ length l.now) × (router ≡ router_field l.now) }
    ensures { result ≡ entry_good l.now k }
{
    let id = be32_at(l, 24 + 12 * k);
    let metric = be16_at(l, 34 + 12 * k);
    link_good(router, id, l[32 + 12 * k], l[33 + 12 * k], metric)
}

// Whether two links are point-to-point links to one router.
#[tactic(auto, unfolding(ospf::specs::Lsa::same_neighbour))]
fn both_to(kind: u8, id: u32, kind2: u8, id2: u32) -> bool
    ensures { result ≡ same_neighbour (entry id 0 kind 0 0) (entry id2 0 kind2 0 0) }
{
    kind == 1 && kind2 == 1 && id == id2
}

// Whether links k and j are.
fn same_neighbour(l: &[u8], k: usize, j: usize) -> bool
    requires { (36 + 12 * k ≤ length l.now) × (36 + 12 * j ≤ length l.now) }
    ensures { result ≡ same_neighbour (entry_at l.now k) (entry_at l.now j) }
{
    let id = be32_at(l, 24 + 12 * k);
    let earlier = be32_at(l, 24 + 12 * j);
    both_to(l[32 + 12 * k], id, l[32 + 12 * j], earlier)
}

// Whether no earlier point-to-point link leads to the router of link k. (The loops that ask something of each link or LSA have their test in
// them: as a closure it would need clauses of its own, longer than the loop.)
fn entry_new(l: &[u8], k: usize) -> bool
    requires { 36 + 12 * k ≤ length l.now }
    ensures { result ≡ entry_new l.now k }
{
    for j in 0..k {
        if same_neighbour(l, k, j) {
            return false;
        }
    }
    true
}

// Whether each of n links is sound.
pub(crate) fn entries_good(l: &[u8], router: u32, n: usize) -> bool
    requires { (24 + 12 * n ≤ length l.now) × (router ≡ router_field l.now) }
    ensures { result ≡ every_below (entry_good l.now) n }
{
    for k in 0..n {
        if !entry_good(l, router, k) {
            return false;
        }
    }
    true
}

// Whether no two of n links are point-to-point links to one router.
pub(crate) fn entries_new(l: &[u8], n: usize) -> bool
    requires { 24 + 12 * n ≤ length l.now }
    ensures { result ≡ every_below (entry_new l.now) n }
{
    for k in 0..n {
        if !entry_new(l, k) {
            return false;
        }
    }
    true
}
