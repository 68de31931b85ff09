// The routers that avoid the protected link, by distances: on the way to a target, and from one router; and those that a router reaches
// without visiting another.
//
// A router avoids the link on the way to another exactly where its distance is below both sums over the link. On the way to a prefix this
// test is enough, but a router may avoid the link without it, since walks end at attached routers. The distances on the left side of the
// test and those in the sums are handed in apart; they may be of one network, or of two that differ in their costs.
//
// The functions take any numbers. Where no distances can be read for them, the set is empty.
#![tactic(auto)]

ghost use Rattle.std.specs.Prelude.{◌≡◌, get_or, length};
ghost use Rattle.avoid.specs.Avoiding.{asked};
ghost use Rattle.avoid.specs.Calls.{readable, avoiding_to, avoiding_from, missing_from};

use metric::read::Area;
use set::{set_from, set_to};

mod set;

// The protected link, seen from the end that the question names: its number, the repairing router S (near), the far router E (far),
// and the costs from S to E (out) and from E to S (back).
#[derive(Clone, Copy)]
pub struct Protected {
    pub number: usize,
    pub near: usize,
    pub far: usize,
    pub out: u32,
    pub back: u32,
}

// Whether the distances can be read from an area: it has a cell for each two of at most 64 routers, and the ends of the link are routers.
#[tactic(auto, unfolding(crate::specs::Calls::readable))]
pub fn can_read(protected: Protected, area: &Area<'_>) -> bool
    ensures { result ≡ readable area.now.n (asked protected) (length area.now.cells.now) }
{
    area.fits() && protected.near < area.n && protected.far < area.n
}

// The routers x that avoid the link on the way to a target, by the test. `left` and `target` hold the distances to it, on the left side
// and in the sums.
#[tactic(auto, using(crate::proofs::CallLaws::reads, crate::proofs::CallLaws::to_none, crate::proofs::CallLaws::to_found))]
pub fn avoiding_to(
    left: &[u32; 64],
    sums: &Area<'_>,
    protected: Protected,
    target: &[u32; 64],
) -> u64
    ensures { result ≡ avoiding_to sums.now.n (asked protected) (λ x. get_or left.now x 0) sums.now.cells.now (λ x. get_or target.now x 0) }
{
    if can_read(protected, sums) {
        set_to(left, sums, protected, target)
    } else {
        0
    }
}

// The routers that x avoids the link on the way to. `left` and `sums` hold the distances on the left side of the test and in the sums.
#[tactic(auto, using(crate::proofs::CallLaws::reads, crate::proofs::CallLaws::from_none, crate::proofs::CallLaws::from_found))]
pub fn avoiding_from(left: &[u32], sums: &Area<'_>, protected: Protected, x: usize) -> u64
    ensures { result ≡ avoiding_from sums.now.n (asked protected) left.now sums.now.cells.now x }
{
    let left = Area {
        n: sums.n,
        cells: left,
    };
    if can_read(protected, &left) && can_read(protected, sums) && x < sums.n {
        set_from(&left, sums, protected, x)
    } else {
        0
    }
}

// The routers that x reaches and to which no shortest path from x visits router v. Of these, and of no others, the distance is below the
// sum over v: the test is that of a link which leads from v to v and costs nothing.
#[tactic(auto, using(crate::proofs::CallLaws::missing_found))]
pub fn missing_from(area: &Area<'_>, v: usize, x: usize) -> u64
    ensures { result ≡ missing_from area.now.n v area.now.cells.now x }
{
    let alone = Protected {
        number: 0,
        near: v,
        far: v,
        out: 0,
        back: 0,
    };
    avoiding_from(area.cells, area, alone, x)
}
