// The arcs that cost what their cell says. In a right table no other arc shows a cell: an arc that costs more is not on a cheapest path, and
// none costs less.
ghost use Rattle.std.specs.Prelude.{length, ◌*◌, ◌≤◌, ◌<◌};
ghost use Rattle.metric.specs.Fit.{ColumnsWithin};
ghost use Rattle.table.specs.Rows.{Over, ArcKept, ArcsKept};

use metric::columns::Links;
use metric::read::Area;

// Whether an arc from a to b costs as much as its cell or more. Where it costs as much, b is put into the set of a.
fn keep_arc(a: usize, b: usize, cost: u16, area: &Area<'_>, heads: &mut [u64; 64]) -> bool
    requires { (area.now.n ≤ 64) × (a < area.now.n) × (b < area.now.n) × (area.now.n * area.now.n ≤ length area.now.cells.now) }
    ensures { ArcKept area.now.n a b cost area.now.cells.now heads.old heads.new result }
{
    let hop = u32::from(cost);
    let cell = area.cells[a * area.n + b];
    if hop < cell {
        return false;
    }
    if cell < hop {
        return true;
    }
    heads[a] |= 1u64 << b;
    true
}

// The arcs that cost as much as their cells, in the sets of the routers that they leave, or `None` where an arc costs less.
pub(crate) fn keep_arcs(links: &Links, area: &Area<'_>) -> Option<[u64; 64]>
    requires { ColumnsWithin area.now.n links.now.links links.now.from links.now.to × (area.now.n * area.now.n ≤ length area.now.cells.now) }
    ensures { ArcsKept (Over links.now.from links.now.to links.now.out links.now.back links.now.links) area.now.n area.now.cells.now result }
{
    let mut heads = [0u64; 64];
    for k in 0..links.links {
        let a = usize::from(links.from[k]);
        let b = usize::from(links.to[k]);
        if !keep_arc(a, b, links.out[k], area, &mut heads) {
            return None;
        }
        if !keep_arc(b, a, links.back[k], area, &mut heads) {
            return None;
        }
    }
    Some(heads)
}
