// The steps of all walks towards a target: the next routers of each router, and the routers from which steps lead to some of them.
//
// The public functions take any numbers. `target` holds the distances to the target; walks do not go on from a router of the set `ends`.
#![tactic(auto)]

ghost use Rattle.std.specs.Prelude.{◌≡◌, ◌&&◌, ◌≤◌, ◌<◌, eqb, get_or, set};
ghost use Rattle.std.specs.Int.Bits.{bit_or};
ghost use Rattle.lfa.specs.Space.{set_of};
ghost use Rattle.metric.specs.Columns.{arcs_in};
ghost use Rattle.metric.specs.Fit.{ColumnsWithin};
ghost use Rattle.avoid.specs.Avoiding.{asked};
ghost use Rattle.steps.specs.Steps.{is_tight, nexts_in, nexts_by, led_to, led_in};
ghost use Rattle.steps.specs.Crossing.{steps_over, over_link, reaches_without, numbers_fit, onward_by_steps};

use avoid::Protected;
use fit::links_fit;
use metric::Distance;
use metric::columns::Links;

// What is known of the second leg of a pair, by its endpoint: the routers from which no walk crosses the protected link, and those from
// which none visits E. Both hold only routers that reach the target.
#[derive(Clone, Copy)]
pub struct Onward {
    pub avoiding: u64,
    pub missing: u64,
}

// The set of router x alone where the test passes, and else the empty set.
fn one_if(test: bool, x: usize) -> u64
    requires { x < 64 }
    ensures { result ≡ set_of 64 (λ z. test && eqb x z) }
{
    if test { 1 << x } else { 0 }
}

// Walks towards a target: `target` holds the distances to it, and they do not go on from a router of the set `ends`.
#[derive(Clone, Copy)]
struct Walks<'a> {
    ends: u64,
    target: &'a [u32; 64],
}

impl Walks<'_> {
    // Whether a hop from u to v at this cost is a step.
    fn is_step(&self, u: usize, v: usize, cost: u32) -> bool
        requires { (u < 64) × (v < 64) }
        ensures { result ≡ is_tight self.now.ends (λ y. get_or self.now.target.now y 0) u v cost }
    {
        let own = self.target[u];
        if (self.ends >> u) & 1 == 1 {
            return false;
        }
        if Distance::UNREACHABLE <= own {
            return false;
        }
        Distance::add(cost, self.target[v]) == own
    }

    // Puts a hop to the next routers of the router u that it leaves, where it is a step. With `|=` the set is read after the test of the
    // step, not before it, and `onward_by_steps` takes a fifth longer.
    fn put_hop(&self, u: usize, v: usize, cost: u32, nexts: &mut [u64; 64])
        requires { (u < 64) × (v < 64) }
        ensures { nexts.new ≡ set nexts.old u (bit_or (get_or nexts.old u 0)
            (set_of 64 (λ z. is_tight self.now.ends (λ y. get_or self.now.target.now y 0) u v cost && eqb v z))) }
    {
        nexts[u] = nexts[u] | one_if(self.is_step(u, v, cost), v);
    }

    // The next routers of each router, in one pass over the links.
    fn nexts_over(&self, links: &Links) -> [u64; 64]
        requires { ColumnsWithin 64 links.now.links links.now.from links.now.to }
        ensures { result ≡ nexts_in self.now.ends (λ y. get_or self.now.target.now y 0)
            (arcs_in links.now.from links.now.to links.now.out links.now.back links.now.links) }
    {
        let mut nexts = [0; 64];
        for k in 0..links.links {
            let a = usize::from(links.from[k]);
            let b = usize::from(links.to[k]);
            self.put_hop(a, b, u32::from(links.out[k]), &mut nexts);
            self.put_hop(b, a, u32::from(links.back[k]), &mut nexts);
        }
        nexts
    }

    // The ends of the protected link from which the hop over it is a step.
    fn over_link(&self, protected: Protected) -> u64
        requires { (protected.near < 64) × (protected.far < 64) }
        ensures { result ≡ over_link (asked protected) self.now.ends (λ y. get_or self.now.target.now y 0) }
    {
        let near = protected.near;
        let far = protected.far;
        let out = one_if(self.is_step(near, far, protected.out), near);
        let back = one_if(self.is_step(far, near, protected.back), far);
        out | back
    }
}

// The next routers of each router, as a set for each; none where a link joins numbers that are not below 64. Where the compiler makes a
// call of it, the sets are copied once more.
#[inline]
pub fn next_routers(links: &Links, ends: u64, target: &[u32; 64]) -> [u64; 64]
    ensures { result ≡ nexts_by links.now.links links.now.from links.now.to links.now.out links.now.back ends target.now }
{
    if !links_fit(64, links) {
        return [0; 64];
    }
    Walks { ends, target }.nexts_over(links)
}

// The routers of which some next router is in the set. A loop of its own, as `reaching_without` is: with the test as a closure, as `avoid` has it,
// each would need that closure's clauses, longer than the loop.
fn led_to(nexts: &[u64; 64], set: u64) -> u64
    ensures { result ≡ led_to nexts.now set }
{
    let mut led = 0;
    for x in 0..64 {
        if nexts[x] & set != 0 {
            led |= 1u64 << x;
        }
    }
    led
}

// The routers from which fewer than `most` steps lead to a member of `start`. The rounds end early once one adds nothing.
pub fn leading_to(nexts: &[u64; 64], start: u64, most: usize) -> u64
    ensures { result ≡ led_in nexts.now start most }
{
    let mut set = 0;
    for _ in 0..most {
        let more = start | led_to(nexts, set);
        if more == set {
            return set;
        }
        set = more;
    }
    set
}

// Whether the hop over the protected link from S to E is a step: then traffic from S may cross the link.
#[tactic(auto, unfolding(crate::specs::Crossing::steps_over))]
pub fn steps_over(protected: Protected, ends: u64, target: &[u32; 64]) -> bool
    ensures { result ≡ steps_over (asked protected) ends target.now }
{
    let near = protected.near;
    let far = protected.far;
    let walks = Walks { ends, target };
    near < 64 && far < 64 && walks.is_step(near, far, protected.out)
}

// Whether router x reaches the target and is not in the set. With `&&` the router's bit is shifted twice, and `onward_by_steps` takes a
// tenth longer.
fn reaches_without(target: &[u32; 64], set: u64, x: usize) -> bool
    requires { x < 64 }
    ensures { result ≡ reaches_without (λ y. get_or target.now y 0) set x }
{
    if Distance::UNREACHABLE <= target[x] {
        return false;
    }
    if (set >> x) & 1 == 1 {
        return false;
    }
    true
}

// The routers below n that reach the target and are not in the set.
fn reaching_without(n: usize, target: &[u32; 64], set: u64) -> u64
    requires { n ≤ 64 }
    ensures { result ≡ set_of n (reaches_without (λ y. get_or target.now y 0) set) }
{
    let mut kept = 0;
    for x in 0..n {
        if reaches_without(target, set, x) {
            kept |= 1u64 << x;
        }
    }
    kept
}

// Whether there are at most 64 routers, and the ends of the link are numbers below 64.
#[tactic(auto, unfolding(crate::specs::Crossing::numbers_fit))]
fn numbers_fit(n: usize, protected: Protected) -> bool
    ensures { result ≡ numbers_fit n (asked protected) }
{
    n <= 64 && protected.near < 64 && protected.far < 64
}

// The routers that avoid the protected link on the way to the target, and those that do not visit E, found by following the steps of
// walks backwards from the link and from E. None, where the numbers are not those of a network of at most 64 routers.
pub fn onward_by_steps(links: &Links, protected: Protected, ends: u64, target: &[u32; 64]) -> Onward
    ensures { result ≡ onward_by_steps links.now.routers links.now.links links.now.from links.now.to links.now.out links.now.back
        (asked protected) ends target.now }
{
    let n = links.routers;
    if !numbers_fit(n, protected) {
        return Onward {
            avoiding: 0,
            missing: 0,
        };
    }
    let nexts = next_routers(links, ends, target);
    let walks = Walks { ends, target };
    let crossing = leading_to(&nexts, walks.over_link(protected), n);
    let far = protected.far;
    let visiting = leading_to(&nexts, one_if(true, far), n);
    let avoiding = reaching_without(n, target, crossing);
    let missing = reaching_without(n, target, visiting);
    Onward { avoiding, missing }
}
