// The tables that are lent, made from the cells that the call for distances leaves. Each has a number.
ghost use Rattle.std.specs.Prelude.{◌<◌, ◌≤◌};

use told::cells_of;

// How many cells a table has for n routers: table 1 has one more than there are distances, table 2 one less.
pub(crate) fn length_of(which: usize, n: usize) -> usize
    ensures { result ≤ 4097 }
{
    let count = cells_of(n);
    match which {
        1 => count + 1,
        2 => count.saturating_sub(1),
        _ => count,
    }
}

// A cell; 0 where there is none.
fn at(cells: &[u32], i: usize) -> u32 {
    cells.get(i).copied().unwrap_or(0)
}

// A cell, with a number added modulo 2^32 where it is the one at `place`.
fn moved(cells: &[u32], i: usize, place: usize, number: u32) -> u32 {
    let own = at(cells, i);
    if i == place {
        own.wrapping_add(number)
    } else {
        own
    }
}

// The cell in the place of cell i when the rows and columns of n cells are exchanged. A place past the largest number has no cell.
fn turned(cells: &[u32], i: usize, n: usize) -> u32
    requires { 0 < n }
{
    at(cells, (i % n).saturating_mul(n).saturating_add(i / n))
}

// Unreachable, but 0 from a router to itself, where row and column are the same.
fn apart(i: usize, n: usize) -> u32
    requires { 0 < n }
{
    if i / n == i % n { 0 } else { u32::MAX }
}

// Cell i of table `which` for n routers; 0 where there are none.
fn cell(which: usize, cells: &[u32], n: usize, i: usize) -> u32 {
    if n == 0 {
        return 0;
    }
    let count = cells_of(n);
    match which {
        3 => moved(cells, i, 0, 1),
        4 => moved(cells, i, count.saturating_sub(1), 1),
        5 => moved(cells, i, 1, u32::MAX),
        6 => moved(cells, i, count.saturating_sub(2), u32::MAX),
        7 => turned(cells, i, n),
        8 => 0,
        9 => apart(i, n),
        _ => at(cells, i),
    }
}

// Puts table `which` for n routers into `table`: a number and no enum, since it is what the line tells.
pub(crate) fn make(which: usize, cells: &[u32], table: &mut [u32], n: usize) {
    for (i, made) in table.iter_mut().enumerate() {
        *made = cell(which, cells, n, i);
    }
}
