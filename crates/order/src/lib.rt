// The order of the pairs that serve: the class of a pair, its rank, and the earlier of two pairs. Each function takes any numbers.
#![tactic(auto)]

ghost use Rattle.std.specs.Prelude.{◌≡◌, ◌≤◌};
ghost use Rattle.lfa.specs.Ranks.{rank_of};
ghost use Rattle.lfa.specs.Repair.{no_later, or_else};
ghost use Rattle.order.specs.Order.{keys_in, earliest_in, earlier_of, class_by};

// A pair that serves, as a repair tells of it: the first hop, the endpoint, the class, and the tunnel cost.
#[derive(Clone, Copy)]
pub struct Pair {
    pub first: usize,
    pub endpoint: usize,
    pub class: u32,
    pub cost: u32,
}

// A pair, with what orders it and is not told: the rank of its class, and the distance from S to the endpoint.
#[derive(Clone, Copy)]
pub struct Ordered {
    pub rank: u32,
    pub distance: u32,
    pub pair: Pair,
}

// Whether a comes no later than b: the first of rank, distance, endpoint, tunnel cost and first hop in which they differ decides.
fn no_later(a: Ordered, b: Ordered) -> bool
    ensures { result ≡ no_later (keys_in a) (keys_in b) }
{
    (
        a.rank,
        a.distance,
        a.pair.endpoint,
        a.pair.cost,
        a.pair.first,
    ) <= (
        b.rank,
        b.distance,
        b.pair.endpoint,
        b.pair.cost,
        b.pair.first,
    )
}

// The earlier of what was found and one pair more.
pub fn earlier(found: Option<Ordered>, next: Ordered) -> Option<Ordered>
    ensures { earliest_in result ≡ earlier_of (earliest_in found) next }
{
    let Some(before) = found else {
        return Some(next);
    };
    if no_later(before, next) {
        found
    } else {
        Some(next)
    }
}

// 0 where the test passes, else the number.
fn or_else(test: bool, k: u32) -> u32
    ensures { (result ≡ or_else test k) × (result ≤ k) }
{
    if test { 0 } else { k }
}

// The class of a pair: 0 where the first hop is the endpoint, else 2, 1 more unless the endpoint is nearer to the target than S, and 4
// more unless the pair is node-protecting.
pub fn class_of(hop: usize, endpoint: usize, end: u32, near: u32, protecting: bool) -> u32
    ensures { result ≡ class_by hop endpoint end near protecting }
{
    or_else(endpoint == hop, 2) + or_else(end < near, 1) + or_else(protecting, 4)
}

// The rank that a table gives to a class, and 0 where the table has no place for it: a number and no Option, since the order of pairs is
// defined for any table (`rank_of` of `lfa`).
pub fn rank_of(ranks: &[u8], class: u32) -> u32
    ensures { result ≡ rank_of ranks.now class }
{
    let place = class as usize;
    if ranks.len() <= place {
        return 0;
    }
    u32::from(ranks[place])
}
