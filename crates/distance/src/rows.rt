// The rows of cells by elimination and substitution, in place.
//
// Elimination goes from the last router down: the row of each earlier router is lowered to its cell of that router plus that router's
// row. So row i comes to hold the least costs of the paths that pass only through routers after i. Substitution goes from the first
// router on: the row of each later router is lowered to its cell of that router, as elimination left it, plus that router's row, which
// holds the distances by then. A row whose cell is the limit is passed over: most are, where routers have few links.
//
// The number of routers stands beside the cells: a struct around a `&mut` would have to lend them again at each call, which is no plainer.
ghost use Rattle.std.specs.Prelude.{◌≡◌, ◌+◌, ◌*◌, ◌<◌, min, length, get_or};
ghost use Rattle.lfa.specs.Distance.{stage, distance_in};
ghost use Rattle.metric.specs.Fit.{ColumnsWithin};
ghost use Rattle.metric.specs.Area.{area_cell};
ghost use Rattle.metric.specs.Columns.{arcs_in};
ghost use Rattle.distance.specs.Cells.{Cells, Limited, Stored, RowReady, RowOf, RowsLowered, Eliminated, Substituted, finished};

use crate::direct::{LIMIT, lower_links, lower_self_loops};
use metric::Distance;
use metric::columns::Links;

// Lowers each cell of a row to d plus the cell of another row. Where d is the limit nothing falls. There is no branch in the loop, and the
// other row is a copy, so that four cells are lowered at once.
fn lower_row(d: u32, by: &[u32], row: &mut [u32])
    requires { RowReady d by.now row.old }
    ensures { Stored (length row.old) (λ j. min (get_or row.old j 0) (d + get_or by.now j 0)) row.old row.new }
{
    if LIMIT <= d {
        return;
    }
    for (j, cell) in row.iter_mut().enumerate() {
        *cell = (d + by[j]).min(*cell);
    }
}

// Lowers the rows before row k by a copy of it.
fn lower_earlier(n: usize, k: usize, by: &[u32], cells: &mut [u32])
    requires { Limited n cells.old × (k < n) × RowOf n k cells.old by.now }
    ensures { RowsLowered n k 0 k (λ i. area_cell n cells.old i k) cells.old cells.new }
{
    for i in 0..k {
        let row = &mut cells[i * n..(i + 1) * n];
        lower_row(row[k], by, row);
    }
}

// Lowers the rows after row k by a copy of it, each by its cell k of the weights.
fn lower_later(n: usize, k: usize, weights: &[u32], by: &[u32], cells: &mut [u32])
    requires { Limited n cells.old × (k < n) × RowOf n k cells.old by.now × (length weights.now ≡ n * n) }
    ensures { RowsLowered n k (k + 1) n (λ i. area_cell n weights.now i k) cells.old cells.new }
{
    for i in k + 1..n {
        lower_row(weights[i * n + k], by, &mut cells[i * n..(i + 1) * n]);
    }
}

// Eliminates the routers, from the last down.
fn eliminate(n: usize, cells: &mut [u32])
    requires { Limited n cells.old }
    ensures { Eliminated n 0 cells.old cells.new }
{
    let mut copy = [0; 64];
    let by = &mut copy[..n];
    for k in (0..n).rev() {
        by.copy_from_slice(&cells[k * n..(k + 1) * n]);
        lower_earlier(n, k, by, cells);
    }
}

// Substitutes the rows of the routers, from the first on.
fn substitute(n: usize, cells: &mut [u32])
    requires { Limited n cells.old }
    ensures { Substituted n n cells.old cells.new }
{
    let mut all = [0; 4096];
    let weights = &mut all[..n * n];
    weights.copy_from_slice(cells);
    let mut copy = [0; 64];
    let by = &mut copy[..n];
    for k in 0..n {
        by.copy_from_slice(&cells[k * n..(k + 1) * n]);
        lower_later(n, k, weights, by, cells);
    }
}

// What a cell stands for at the end: at the limit it is unreachable.
#[tactic(auto, unfolding(crate::specs::Cells::finished))]
fn shown(cell: u32) -> u32
    ensures { result ≡ finished cell }
{
    if cell < LIMIT {
        cell
    } else {
        Distance::UNREACHABLE
    }
}

// Puts what each cell stands for in its place.
fn finish(cells: &mut [u32])
    ensures { Stored (length cells.old) (λ j. finished (get_or cells.old j 0)) cells.old cells.new }
{
    for cell in cells.iter_mut() {
        *cell = shown(*cell);
    }
}

// Fills the cells, n rows of n, with the distances.
pub(crate) fn fill_cells(links: &Links, cells: &mut [u32])
    requires { ColumnsWithin links.now.routers links.now.links links.now.from links.now.to × (length cells.old ≡ links.now.routers * links.now.routers) }
    ensures { Cells links.now.routers (distance_in (stage links.now.routers
        (arcs_in links.now.from links.now.to links.now.out links.now.back links.now.links) links.now.routers)) cells.new }
{
    let n = links.routers;
    cells.fill(LIMIT);
    lower_self_loops(n, cells);
    lower_links(links, cells);
    eliminate(n, cells);
    substitute(n, cells);
    finish(cells);
}
