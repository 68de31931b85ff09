// The sets, where the distances can be read.
ghost use Rattle.std.specs.Prelude.{◌≡◌, ◌≤◌, ◌<◌, ℕ, Bool, get_or};
ghost use Rattle.lfa.specs.Space.{set_of};
ghost use Rattle.metric.specs.Area.{held};
ghost use Rattle.avoid.specs.Avoiding.{asked, below_both, clears, clears_to};
ghost use Rattle.avoid.specs.Calls.{Readable};

use crate::Protected;
use metric::Distance;
use metric::read::Area;

// Whether a distance is below the costs over the link in both directions: near and far lead from x to S and E, s and e from
// S and E to the target. Such a distance is finite, since a sum is at most unreachable.
fn below_both(own: u32, near: u32, far: u32, protected: Protected, s: u32, e: u32) -> bool
    ensures { result ≡ below_both own near far protected.out protected.back s e }
{
    own < Distance::add3(near, protected.out, e) && own < Distance::add3(far, protected.back, s)
}

// The set of the routers below n that pass a test.
fn set_where<F: Fn(usize) -> bool>(n: usize, passes: F) -> u64
    requires few { n ≤ 64 }
    requires callable { (x : ℕ) → x < n → F.pre passes x }
    ensures { (p : ℕ → Bool) → ((x : ℕ) (b : Bool) → x < n → F.post passes x b → b ≡ p x) → result ≡ set_of n p }
{
    let mut set: u64 = 0;
    for x in 0..n {
        if passes(x) {
            set |= 1u64 << x;
        }
    }
    set
}

// The routers x that avoid the link on the way to a target, by the test.
pub(crate) fn set_to(
    left: &[u32; 64],
    sums: &Area<'_>,
    protected: Protected,
    target: &[u32; 64],
) -> u64
    requires { Readable sums.now.n (asked protected) sums.now.cells.now }
    ensures { result ≡ set_of sums.now.n (clears (λ x. get_or left.now x 0) (held sums.now.n sums.now.cells.now) (asked protected) (λ x. get_or target.now x 0)) }
{
    let near = protected.near;
    let far = protected.far;
    let s = target[near];
    let e = target[far];
    set_where(sums.n, |x| {
        let x_near = sums.distance(x, near);
        let x_far = sums.distance(x, far);
        below_both(left[x], x_near, x_far, protected, s, e)
    })
}

// The routers that x avoids the link on the way to.
pub(crate) fn set_from(left: &Area<'_>, sums: &Area<'_>, protected: Protected, x: usize) -> u64
    requires same_n { left.now.n ≡ sums.now.n }
    requires left_read { Readable sums.now.n (asked protected) left.now.cells.now }
    requires sums_read { Readable sums.now.n (asked protected) sums.now.cells.now }
    requires x_in { x < sums.now.n }
    ensures { result ≡ set_of sums.now.n (clears_to (held sums.now.n left.now.cells.now) (held sums.now.n sums.now.cells.now) (asked protected) x) }
{
    let near = protected.near;
    let far = protected.far;
    let x_near = sums.distance(x, near);
    let x_far = sums.distance(x, far);
    set_where(sums.n, |r| {
        let own = left.distance(x, r);
        let s = sums.distance(near, r);
        let e = sums.distance(far, r);
        below_both(own, x_near, x_far, protected, s, e)
    })
}
