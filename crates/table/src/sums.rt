// The test of any table, in sums of 32 bits.
//
// The cells are first copied as summands, numbers that are small enough for the sums. Each arc then lowers one row of the sums. The loops
// over cells have no branch, and read one array while they write another, so that they go over four cells at once.
ghost use Rattle.std.specs.Prelude.{◌≡◌, length, replicate, ◌*◌, ◌≤◌, ◌<◌};
ghost use Rattle.metric.specs.Fit.{ColumnsWithin};
ghost use Rattle.metric.specs.Columns.{arcs_in};
ghost use Rattle.table.specs.Sums.{form32, Stands, Summands, Limited, Cleared, RowLowered, LeastSums, Tested};

use metric::Distance;
use metric::columns::Links;

// No finite distance of any network is larger.
const LONGEST: u32 = 4194240;

// What stands for unreachable in sums: more than any finite distance and a cost, and little enough for a sum. (It is the number of `distance`,
// which chooses it for the sum of two cells; neither rests on the other's.)
const LIMIT: u32 = 1073741824;

// What stands for a cell in sums. For a number that is no distance of any network it is one that no least sum is.
fn summand_of(cell: u32) -> u32
    ensures { Stands 4194240 1073741824 cell result }
{
    if cell <= LONGEST {
        cell
    } else if cell == Distance::UNREACHABLE {
        LIMIT
    } else {
        LIMIT + 1
    }
}

// Copies the cells of the table, as summands.
fn copy_summands(table: &[u32], cells: &mut [u32; 4096])
    requires { length table.now ≤ 4096 }
    ensures { Summands (length table.now) table.now cells.new }
{
    for i in 0..table.len() {
        cells[i] = summand_of(table[i]);
    }
}

// Sets the diagonal of the sums to 0.
fn clear_diagonal(n: usize, sums: &mut [u32; 4096])
    requires { (n ≤ 64) × (sums.old ≡ replicate 4096 1073741824) }
    ensures { Cleared (form32 n) n sums.new }
{
    for x in 0..n {
        sums[x * n + x] = 0;
    }
}

// Lowers row a of the sums to the cost of an arc from a to b plus row b of the cells. By places, as `RowLowered` says it, which tells of the other
// rows too.
fn lower(n: usize, a: usize, b: usize, cost: u16, cells: &[u32; 4096], sums: &mut [u32; 4096])
    requires { (a < n) × (b < n) × Limited (form32 n) cells.now × Limited (form32 n) sums.old }
    ensures { (cost ≤ 65535) × RowLowered (form32 n) a b cost n cells.now sums.old sums.new }
{
    let at = a * n;
    let by = b * n;
    let hop = u32::from(cost);
    for t in 0..n {
        sums[at + t] = sums[at + t].min(hop + cells[by + t]);
    }
}

// Lowers the sums by both arcs of each link.
fn lower_links(links: &Links, cells: &[u32; 4096], sums: &mut [u32; 4096])
    requires { ColumnsWithin links.now.routers links.now.links links.now.from links.now.to × Limited (form32 links.now.routers) cells.now × Limited (form32 links.now.routers) sums.old }
    ensures { LeastSums (form32 links.now.routers) (arcs_in links.now.from links.now.to links.now.out links.now.back links.now.links) cells.now sums.old sums.new }
{
    for k in 0..links.links {
        let a = usize::from(links.from[k]);
        let b = usize::from(links.to[k]);
        lower(links.routers, a, b, links.out[k], cells, sums);
        lower(links.routers, b, a, links.back[k], cells, sums);
    }
}

// Whether each cell is 0 on the diagonal, and elsewhere the least sum.
pub(crate) fn agrees(links: &Links, table: &[u32]) -> bool
    requires { ColumnsWithin links.now.routers links.now.links links.now.from links.now.to × (links.now.routers * links.now.routers ≤ length table.now) }
    ensures { Tested (arcs_in links.now.from links.now.to links.now.out links.now.back links.now.links) links.now.routers table.now result }
{
    let count = links.routers * links.routers;
    let mut cells = [0u32; 4096];
    copy_summands(&table[..count], &mut cells);
    let mut sums = [LIMIT; 4096];
    clear_diagonal(links.routers, &mut sums);
    lower_links(links, &cells, &mut sums);
    cells[..count] == sums[..count]
}
