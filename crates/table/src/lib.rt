// Whether a table that is lent holds the distances of a network, whoever filled it. `holds_distances` only reads the table, in one pass
// over the links: it does not work the distances out. A cell off the diagonal has to be the least sum, over the arcs that leave its row's
// router, of the arc's cost and the cell of the router that the arc leads to; one on the diagonal has to be 0. Where the cells allow it the
// sums have 16 bits, and only the arcs count that cost what their cell says (`keep`, `narrow`, `row`); else they have 32 (`sums`).
//
// It takes any numbers. Where they are not those of a network, the answer is no.
#![tactic(auto)]

ghost use Rattle.std.specs.Prelude.{◌≡◌, true, length, ◌*◌, ◌≤◌};
ghost use Rattle.metric.specs.Fit.{ColumnsWithin};
ghost use Rattle.metric.specs.Columns.{arcs_in};
ghost use Rattle.table.specs.Calls.{costs_fit, table_holds};
ghost use Rattle.table.specs.Sums.{Tested};

use costs::costs_fit;
use fit::links_fit;
use metric::columns::Links;
use metric::read::Area;

mod costs;
mod keep;
mod narrow;
mod row;
mod sums;

// Whether each cell is 0 on the diagonal, and elsewhere the least sum. No arc may cost less than its cell. The rest is tested by sums of 16
// bits, over the arcs that cost as much, where each cell is small enough for them, and else by sums of 32 bits over all arcs.
fn agrees(links: &Links, table: &[u32]) -> bool
    requires { ColumnsWithin links.now.routers links.now.links links.now.from links.now.to × (links.now.routers * links.now.routers ≤ length table.now)
        × (costs_fit links.now.links links.now.out links.now.back ≡ true) }
    ensures { Tested (arcs_in links.now.from links.now.to links.now.out links.now.back links.now.links) links.now.routers table.now result }
{
    let area = Area {
        n: links.routers,
        cells: table,
    };
    let Some(heads) = keep::keep_arcs(links, &area) else {
        return false;
    };
    if narrow::LONGEST < narrow::all_bits(&table[..area.n * area.n]) {
        return sums::agrees(links, table);
    }
    let mut cells = [narrow::LIMIT; 4096];
    narrow::copy_rows(&area, &mut cells);
    row::rows_right(area.n, &heads, &cells)
}

// Whether the first routers * routers cells of the table are the distances, row by row, row = start.
pub fn holds_distances(links: &Links, table: &[u32]) -> bool
    ensures { result ≡ table_holds links.now.routers links.now.links links.now.from links.now.to links.now.out links.now.back table.now }
{
    let area = Area {
        n: links.routers,
        cells: table,
    };
    if !area.fits() {
        return false;
    }
    if !links_fit(links.routers, links) {
        return false;
    }
    if !costs_fit(links) {
        return false;
    }
    agrees(links, table)
}
