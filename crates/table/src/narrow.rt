// The copy of a table whose cells are all at most 8,191, in numbers of 16 bits.
//
// The rows of the copy have 64 columns, for any number of routers; the cells that are not used hold what stands for unreachable.
ghost use Rattle.std.specs.Prelude.{◌≡◌, length, get_or, replicate, ℕ, ◌+◌, ◌*◌, ◌≤◌, ◌<◌};
ghost use Rattle.table.specs.Sums.{AtMost, RowCopied, RowsCopied};

use metric::read::Area;

// What stands for unreachable in sums: more than two cells.
pub(crate) const LIMIT: u16 = 16383;

// No cell is larger.
pub(crate) const LONGEST: u32 = 8191;

// The bits that the cells have: as a number, none of the cells is above it.
pub(crate) fn all_bits(cells: &[u32]) -> u32
    ensures { AtMost (length cells.now) cells.now result }
{
    let mut all = 0;
    for cell in cells {
        all |= *cell;
    }
    all
}

// The cell in 16 bits. It is first brought within the range of signed numbers of 16 bits, where it already is: for this the processor has
// an instruction that takes eight cells at once.
fn narrow_cell(cell: u32) -> u16
    requires { cell < 8192 }
    ensures { result ≡ cell }
{
    let cut = (cell as i32).clamp(-32768, 32767);
    (cut as i16) as u16
}

// Copies one row of the table. By places and not by parts of both: `RowCopied` says the cells before and after the row too.
fn copy_row(n: usize, by: usize, at: usize, table: &[u32], cells: &mut [u16; 4096])
    requires { (by + n ≤ length table.now) × (at + n ≤ 4096) × ((t : ℕ) → t < n → get_or table.now (by + t) 0 ≤ 8191) }
    ensures { RowCopied n by at table.now cells.old cells.new }
{
    for t in 0..n {
        cells[at + t] = narrow_cell(table[by + t]);
    }
}

// Copies the rows of the table.
pub(crate) fn copy_rows(area: &Area<'_>, cells: &mut [u16; 4096])
    requires { (area.now.n ≤ 64) × (area.now.n * area.now.n ≤ length area.now.cells.now) × AtMost (area.now.n * area.now.n) area.now.cells.now 8191 × (cells.old ≡ replicate 4096 16383) }
    ensures { RowsCopied area.now.n area.now.n area.now.cells.now cells.new }
{
    for x in 0..area.n {
        copy_row(area.n, x * area.n, x * 64, area.cells, cells);
    }
}
