// The LSAs of a run, one after the other. The identifiers of the first 64 are kept at hand: a run of more good LSAs is no network, and is
// gone over on only for a bad one.
ghost use Rattle.std.specs.Prelude.{◌≡◌, true, ◌≤◌, ◌<◌, length};
ghost use Rattle.ospf.specs.Run.{begin_of};
ghost use Rattle.ospf.specs.Run.{Passed};
ghost use Rattle.router_lsa.specs.Scan.{new_among, new_router, next_after, AtHand};

use super::field::{be16_at, be32_at};
use super::lsa::sound_lsa;

// What is kept of the LSAs passed: the identifiers of the first 64, and where the LSAs begin that are not among them.
#[derive(Clone, Copy)]
pub(crate) struct Hand {
    pub ids: [u32; 64],
    pub start: usize,
}

// Whether none of the first n identifiers is this router's.
fn new_among(ids: &[u32; 64], n: usize, router: u32) -> bool
    requires { n ≤ 64 }
    ensures { result ≡ new_among ids.now n router }
{
    for j in 0..n {
        if ids[j] == router {
            return false;
        }
    }
    true
}

// Whether none of the first i LSAs, all good, is that of this router, where none of the first `from` is; LSA `from` begins at `start`.
fn new_later(run: &[u8], i: usize, router: u32, from: usize, start: usize) -> bool
    requires { Passed run.now i × (from ≤ i) × (start ≡ begin_of run.now from) × (new_router run.now from router ≡ true) }
    ensures { result ≡ new_router run.now i router }
{
    let mut at = start;
    for j in from..i {
        if be32_at(run, at + 4) == router {
            return false;
        }
        at += usize::from(be16_at(run, at + 18));
    }
    true
}

// Whether none of the first i LSAs, all good, is that of this router.
fn router_new(run: &[u8], i: usize, router: u32, hand: &Hand) -> bool
    requires { Passed run.now i × AtHand run.now i hand.now.ids hand.now.start }
    ensures { result ≡ new_router run.now i router }
{
    let held = i.min(64);
    new_among(&hand.ids, held, router) && new_later(run, i, router, held, hand.start)
}

// Where the LSA after LSA i begins, if LSA i is good, which begins at `at` after good LSAs.
pub(crate) fn lsa_good(run: &[u8], at: usize, i: usize, hand: &Hand) -> Option<usize>
    requires { Passed run.now i × AtHand run.now i hand.now.ids hand.now.start × (at ≡ begin_of run.now i) × (at < length run.now) }
    ensures { result ≡ next_after run.now i }
{
    if run.len() - at < 24 {
        return None;
    }
    let size = usize::from(be16_at(run, at + 18));
    if size < 24 {
        return None;
    }
    if run.len() - at < size {
        return None;
    }
    let end = at + size;
    let l = &run[at..end];
    if !sound_lsa(l) {
        return None;
    }
    if !router_new(run, i, be32_at(l, 4), hand) {
        return None;
    }
    Some(end)
}
