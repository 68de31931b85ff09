// The cells before any router may be passed through: 0 from a router to itself, and from one router to another the cost of the
// cheapest arc. Until the last pass over the cells, `LIMIT` stands for every larger number.
ghost use Rattle.std.specs.Prelude.{◌++◌, ◌≤◌, ◌<◌};
ghost use Rattle.metric.specs.Fit.{ColumnsWithin};
ghost use Rattle.metric.specs.Columns.{arcs_in};
ghost use Rattle.distance.specs.Cells.{Cells, Limited, Lowered, self_loops, cheapest, CostsCapped};

use metric::columns::Links;

// More than any finite distance, and little enough for the sum of two.
pub(crate) const LIMIT: u32 = 1073741824;

// Lowers the cell of routers a and b to the cost of an arc.
fn lower(n: usize, a: usize, b: usize, cost: u16, cells: &mut [u32])
    requires { Limited n cells.old × (a < n) × (b < n) }
    ensures { (cost ≤ 65535) × Lowered n a b cost cells.old cells.new }
{
    let at = a * n + b;
    cells[at] = cells[at].min(u32::from(cost));
}

// Lowers the cells to the costs of self-loops, which are 0.
pub(crate) fn lower_self_loops(n: usize, cells: &mut [u32])
    requires { (n ≤ 64) × Cells n (cheapest (self_loops 0)) cells.old }
    ensures { Cells n (cheapest (self_loops n)) cells.new }
{
    for x in 0..n {
        lower(n, x, x, 0, cells);
    }
}

// Lowers the cells to the costs of the links, in both directions.
pub(crate) fn lower_links(links: &Links, cells: &mut [u32])
    requires { ColumnsWithin links.now.routers links.now.links links.now.from links.now.to
        × Cells links.now.routers (cheapest (self_loops links.now.routers)) cells.old }
    ensures { CostsCapped (arcs_in links.now.from links.now.to links.now.out links.now.back links.now.links)
        × Cells links.now.routers (cheapest (self_loops links.now.routers ++ arcs_in links.now.from links.now.to links.now.out links.now.back links.now.links)) cells.new }
{
    let n = links.routers;
    for k in 0..links.links {
        let a = usize::from(links.from[k]);
        let b = usize::from(links.to[k]);
        lower(n, a, b, links.out[k], cells);
        lower(n, b, a, links.back[k], cells);
    }
}
