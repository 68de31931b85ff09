// The test of the copy of a table, row by row, in sums of 16 bits. The sums of a row stay in the registers of the processor, and the loops over
// columns have 64 turns for every network, so that they go over eight cells at once.
ghost use Rattle.std.specs.Prelude.{◌≡◌, get_or, set, replicate, ◌≤◌, ◌<◌};
ghost use Rattle.metric.specs.Area.{area_cell};
ghost use Rattle.table.specs.Sums.{SameCells};
ghost use Rattle.table.specs.Rows.{Little, LittleRow, SumsLowered, RowTested, RowsTested};

use crate::narrow::LIMIT;

// Lowers the sums to a cost plus row head of the cells.
fn lower(cost: u16, head: usize, cells: &[u16; 4096], sums: &mut [u16; 64])
    requires { (cost ≤ 16383) × (head < 64) × Little cells.now × LittleRow sums.old }
    ensures { SumsLowered cost head 64 cells.now sums.old sums.new }
{
    let by = head * 64;
    for t in 0..64 {
        sums[t] = sums[t].min(cost + cells[by + t]);
    }
}

// Whether row x of the cells is the sums. The loop has no branch, so that it compares eight cells at once; `==` of the two slices, which ends
// at the first eight that differ, was tried, and made the check of a table a fifth slower.
fn same_row(x: usize, cells: &[u16; 4096], sums: &[u16; 64]) -> bool
    requires { x < 64 }
    ensures { SameCells 64 (area_cell 64 cells.now x) (λ t. get_or sums.now t 0) result }
{
    let at = x * 64;
    let mut same = true;
    for t in 0..64 {
        same &= cells[at + t] == sums[t];
    }
    same
}

// The first sums of row x: 0 in column x, and the limit in every other. They are read from numbers that were put together once, a 0 between
// 64 limits on each side: a number that is stored into eight others, which are then read at once, would keep the processor waiting.
fn first_sums(x: usize, starts: &[u16; 128]) -> [u16; 64]
    requires { (x < 64) × (starts.now ≡ set (replicate 128 16383) 64 0) }
    ensures { result ≡ set (replicate 64 16383) x 0 }
{
    let at = 64 - x;
    let mut sums = [LIMIT; 64];
    sums.copy_from_slice(&starts[at..at + 64]);
    sums
}

// Whether row x is the least sums over the routers of a set. The loop takes the router of the lowest bit and clears the bit.
fn row_right(x: usize, heads: u64, starts: &[u16; 128], cells: &[u16; 4096]) -> bool
    requires { (x < 64) × Little cells.now × (starts.now ≡ set (replicate 128 16383) 64 0) }
    ensures { RowTested x heads cells.now result }
{
    let mut sums = first_sums(x, starts);
    let mut rest = heads;
    while rest != 0 {
        let head = rest.trailing_zeros() as usize;
        rest &= rest - 1;
        lower(cells[x * 64 + head], head, cells, &mut sums);
    }
    same_row(x, cells, &sums)
}

// Whether the first n rows are.
pub(crate) fn rows_right(n: usize, heads: &[u64; 64], cells: &[u16; 4096]) -> bool
    requires { (n ≤ 64) × Little cells.now }
    ensures { RowsTested n heads.now cells.now result }
{
    let mut starts = [LIMIT; 128];
    starts[64] = 0;
    for x in 0..n {
        if !row_right(x, heads[x], &starts, cells) {
            return false;
        }
    }
    true
}
