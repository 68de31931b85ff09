// The search for the pair that serves a repair, by the numbers that a table of distances holds.
ghost use Rattle.std.specs.Prelude.{◌≡◌, ◌≤◌, ◌<◌, length};
ghost use Rattle.std.proofs.Math.Option.{none};
ghost use Rattle.std.specs.Int.Bits.{bit_and};
ghost use Rattle.lfa.specs.Space.{has};
ghost use Rattle.order.specs.Order.{earliest_in};
ghost use Rattle.avoid.specs.Avoiding.{asked};
ghost use Rattle.avoid.specs.Calls.{missing_from};
ghost use Rattle.steps.specs.Crossing.{onward_by_steps};
ghost use Rattle.arcs.specs.Arcs.{hop_in};
ghost use Rattle.search.specs.Hops.{hops_in};
ghost use Rattle.search.specs.Spaces.{SetsOf};
ghost use Rattle.search.specs.Choice.{outcome_in, outcome_of_pair, first_of, FirstEnd, KeysOf, KeyOf, ordered_at, may_end, hop_pairs, pairs_tried, first_serving};
ghost use Rattle.search.specs.Calls.{searchable, pair_for, link_if, prefix_if, hops_of};

use crate::Repair;
use crate::hops::{FirstHops, first_hops};
use crate::space::{can_search, reached};
use arcs::{Hop, hop_of};
use avoid::{Protected, avoiding_to, missing_from};
use column::towards_router;
use metric::Distance;
use metric::columns::Links;
use metric::read::Area;
use order::{Ordered, Pair, class_of, earlier, rank_of};
use steps::{Onward, onward_by_steps, steps_over};

// What the search for a pair reads: the links, the ranks of the classes and what they count in keys, the distances between routers, the
// protected link, and the distances to the target. It is made where a question is searched for.
#[derive(Clone, Copy)]
struct Sought<'a> {
    links: &'a Links,
    ranks: &'a [u8],
    keys: [u64; 8],
    area: Area<'a>,
    protected: Protected,
    target: &'a [u32; 64],
    ghost listed: { links.now.links ≤ 128 },
    ghost few: { area.n ≤ 64 },
    ghost near_in: { protected.near < 64 },
    ghost keyed: { KeysOf ranks.now keys },
}

impl Sought<'_> {
    // The pair of a first hop and an endpoint, where the set `protecting` holds the endpoints that make it node-protecting. Its first key
    // is the rank of its class.
    #[tactic(auto, unfolding(crate::specs::Choice::ordered_at))]
    fn pair_of(&self, hop: Hop, protecting: u64, endpoint: usize) -> Ordered
        requires { endpoint < 64 }
        ensures { let s = self.now in
            result ≡ ordered_at s.ranks.now s.area.n s.area.cells.now s.protected.near s.target.now (hop_in hop) protecting endpoint }
    {
        let first = hop.router;
        let near = self.protected.near;
        let protects = has(protecting, endpoint);
        let class = class_of(
            first,
            endpoint,
            self.target[endpoint],
            self.target[near],
            protects,
        );
        let rank = rank_of(self.ranks, class);
        Ordered {
            rank,
            distance: self.area.distance(near, endpoint),
            pair: Pair {
                first,
                endpoint,
                class,
                cost: Distance::add(hop.cost, self.area.distance(first, endpoint)),
            },
        }
    }

    // The key of an endpoint among those of one first hop: the rank of the pair's class, then D(S,y), in one number.
    fn key_of(&self, first: usize, protecting: u64, y: usize) -> u64
        requires { y < 64 }
        ensures { let s = self.now in
            KeyOf s.keys s.area.n s.area.cells.now s.protected.near s.target.now first protecting y result }
    {
        let near = self.protected.near;
        let protects = has(protecting, y);
        let class = class_of(first, y, self.target[y], self.target[near], protects) as usize;
        self.keys[class] + u64::from(self.area.distance(near, y))
    }

    // The endpoint of the earliest pair of one first hop with an endpoint in the set, if there is any. The endpoints of such pairs differ,
    // so that cost and first hop never decide: the key does, and of equal keys the first endpoint stays.
    fn first_end(&self, hop: Hop, protecting: u64, endpoints: u64) -> Option<usize>
        ensures { let s = self.now in
            FirstEnd (ordered_at s.ranks.now s.area.n s.area.cells.now s.protected.near s.target.now (hop_in hop) protecting)
            (hop_pairs s.ranks.now s.area.n s.area.cells.now s.protected.near s.protected.far s.target.now (hop_in hop) protecting endpoints s.area.n)
            result }
    {
        let mut best = None;
        let mut least = u64::MAX;
        for y in 0..self.area.n {
            if may_end(endpoints, self.protected.near, self.protected.far, y) {
                let key = self.key_of(hop.router, protecting, y);
                if key < least {
                    least = key;
                    best = Some(y);
                }
            }
        }
        best
    }

    // The earliest of what was found and the pairs of one first hop with an endpoint in the set. Only the earliest of these pairs is made.
    #[tactic(auto, using(crate::proofs::Laws::First::first_nothing, crate::proofs::Laws::First::first_one))]
    fn over_hop(
        &self,
        hop: Hop,
        protecting: u64,
        endpoints: u64,
        before: Option<Ordered>,
    ) -> Option<Ordered>
        ensures { let s = self.now in
            earliest_in result ≡ first_of (earliest_in before)
            (hop_pairs s.ranks.now s.area.n s.area.cells.now s.protected.near s.protected.far s.target.now (hop_in hop) protecting endpoints s.area.n) }
    {
        match self.first_end(hop, protecting, endpoints) {
            Some(y) => earlier(before, self.pair_of(hop, protecting, y)),
            None => before,
        }
    }

    // The earliest of the pairs of the first hops with an endpoint in the set `kept.avoiding` that the first hop avoids the link on the
    // way to, as the first hop's set tells.
    #[tactic(auto, using(crate::proofs::ChoiceLaws::none_tried))]
    fn search(&self, hops: &FirstHops, sets: &[u64; 256], kept: Onward) -> Option<Ordered>
        requires { let s = self.now in
            SetsOf s.area.n (asked s.protected) s.area.cells.now s.links.now.from s.links.now.to hops.now.count hops.now.arcs sets.now }
        ensures { let s = self.now in
            earliest_in result ≡ first_of none (pairs_tried s.ranks.now s.area.n (asked s.protected) s.area.cells.now s.target.now kept
            (hops_in s.links.now.from s.links.now.to s.links.now.out s.links.now.back hops.now.count hops.now.arcs)) }
    {
        let mut best = None;
        for i in 0..hops.count {
            let hop = hop_of(hops.arcs[i], self.links);
            let far = self.protected.far;
            let protecting = protecting_from(&self.area, far, kept.missing, hop.router);
            best = self.over_hop(hop, protecting, kept.avoiding & sets[i], best);
        }
        best
    }

    // The first of the pairs that serve the target, `onward` telling the routers from which the second leg avoids the link, and those from
    // which it misses E. The endpoints are those of extended P from which it avoids: for the link repair, the intersection of extended P
    // and Q.
    #[tactic(auto, using(crate::proofs::HopLaws::listed_hops), unfolding(crate::specs::Choice::first_serving, crate::specs::Spaces::space_for))]
    fn first_pair(&self, onward: Onward) -> Option<Ordered>
        ensures { let s = self.now in
            earliest_in result ≡ first_serving s.ranks.now s.area.n
            (hops_of s.links.now) (asked s.protected) s.area.cells.now s.target.now onward }
    {
        let hops = first_hops(self.links, self.protected);
        let mut sets = [0; 256];
        let extended = reached(self.links, self.protected, &self.area, &hops, &mut sets);
        let kept = Onward {
            avoiding: extended & onward.avoiding,
            missing: onward.missing,
        };
        self.search(&hops, &sets, kept)
    }

    // The pair that serves the target, told without what only orders it.
    #[tactic(auto, unfolding(crate::specs::Calls::pair_for))]
    fn pair_found(&self, onward: Onward) -> Option<Pair>
        ensures { let s = self.now in
            outcome_of_pair result ≡ pair_for s.ranks.now s.area.n
            (hops_of s.links.now) (asked s.protected) s.area.cells.now s.target.now onward }
    {
        let found = self.first_pair(onward)?;
        Some(found.pair)
    }
}

// Whether router y is in the set.
#[tactic(auto, using(crate::proofs::ChoiceLaws::bit_read))]
fn has(set: u64, y: usize) -> bool
    requires { y < 64 }
    ensures { result ≡ has set y }
{
    (set >> y) & 1 == 1
}

// Whether router y is in the set, and neither S nor E.
fn may_end(set: u64, near: usize, far: usize, y: usize) -> bool
    requires { y < 64 }
    ensures { result ≡ may_end set near far y }
{
    has(set, y) && y != near && y != far
}

// What a rank counts in the key of an endpoint: 2 to the power 32, more than any distance.
const BY_RANK: u64 = 4294967296;

// The part of an endpoint's key that its class gives, for each of the eight classes.
#[tactic(auto, using(crate::proofs::EndLaws::key_more))]
fn rank_keys(ranks: &[u8]) -> [u64; 8]
    ensures { KeysOf ranks.now result }
{
    let mut keys = [0; 8];
    for class in 0..8 {
        keys[class] = BY_RANK * u64::from(rank_of(ranks, class as u32));
    }
    keys
}

// The endpoints that make the pairs of a first hop node-protecting: those that it reaches without visiting E, and from which the second
// leg does not visit E, as the set `missing` says. There is nothing to look for where `missing` is empty, as it is for a link repair.
fn protecting_from(area: &Area<'_>, far: usize, missing: u64, first: usize) -> u64
    ensures { result ≡ bit_and (missing_from area.now.n far area.now.cells.now first) missing }
{
    if missing == 0 {
        return 0;
    }
    missing_from(area, far, first) & missing
}

// What a link repair finds: its target is E, so that every second leg visits E.
#[tactic(auto, using(crate::proofs::SpaceLaws::can_search), unfolding(crate::specs::Calls::link_if, crate::specs::Calls::link_for))]
pub(crate) fn link_found(
    links: &Links,
    ranks: &[u8],
    protected: Protected,
    area: &Area<'_>,
) -> Option<Pair>
    ensures { outcome_of_pair result ≡ link_if ranks.now (searchable area.now.n links.now.links (asked protected) (length area.now.cells.now)) area.now.n
        (hops_of links.now) (asked protected) area.now.cells.now }
{
    if !can_search(links, protected, area) {
        return None;
    }
    let target = towards_router(area, protected.far);
    let onward = Onward {
        avoiding: avoiding_to(&target, area, protected, &target),
        missing: 0,
    };
    let sought = Sought {
        links,
        ranks,
        keys: rank_keys(ranks),
        area: *area,
        protected,
        target: &target,
    };
    sought.pair_found(onward)
}

// What a prefix repair finds, `target` holding the distances to the prefix, and `ends` the routers at which every walk towards it ends.
#[tactic(auto, using(crate::proofs::SpaceLaws::can_search), unfolding(crate::specs::Calls::prefix_if, crate::specs::Calls::prefix_for))]
pub(crate) fn prefix_found(
    links: &Links,
    ranks: &[u8],
    protected: Protected,
    area: &Area<'_>,
    target: &[u32; 64],
    ends: u64,
) -> Option<Repair>
    ensures { outcome_in result ≡ prefix_if ranks.now (searchable area.now.n links.now.links (asked protected) (length area.now.cells.now)) area.now.n
        (hops_of links.now) (asked protected) area.now.cells.now ends target.now
        (onward_by_steps links.now.routers links.now.links links.now.from links.now.to links.now.out links.now.back (asked protected) ends target.now) }
{
    if !can_search(links, protected, area) {
        return None;
    }
    if Distance::UNREACHABLE <= target[protected.near] {
        return Some(Repair::Unreachable);
    }
    if !steps_over(protected, ends, target) {
        return Some(Repair::Untouched);
    }
    let onward = onward_by_steps(links, protected, ends, target);
    let sought = Sought {
        links,
        ranks,
        keys: rank_keys(ranks),
        area: *area,
        protected,
        target,
    };
    let pair = sought.pair_found(onward)?;
    Some(Repair::Pair(pair))
}
