// Row 2: the check that every block ends with.
ghost use Rattle.std.specs.Prelude.{◌≡◌, ◌+◌, ◌*◌, ◌≤◌, length};
ghost use Rattle.lfa.specs.Lists.{first_failing};
ghost use Rattle.lfa.specs.File.{block_of, check_good};
ghost use Rattle.block.specs.First.{found_in};

use block_check::check_of;
use field::word_at;

// Block i.
pub(crate) fn block_at(file: &[u8], i: usize) -> &[u8]
    requires { 512 * i + 512 ≤ length file.now }
    ensures { (result.now ≡ block_of file.now i) × (length result.now ≡ 512) }
{
    let start = 512 * i;
    let end = start + 512;
    &file[start..end]
}

// Whether block i holds its own check.
fn check_good(file: &[u8], i: usize) -> bool
    requires { 512 * i + 512 ≤ length file.now }
    ensures { result ≡ check_good file.now i }
{
    let block = block_at(file, i);
    check_of(block) == word_at(block, 510)
}

// The first of n blocks whose check is wrong. Like the other loops for the first that fails (row 5, row 6) it has its test in it: as a closure
// the test would need clauses of its own, longer than the loop. (Those of rows 8 and 9 share one, which also keeps the place of an entry.)
pub(crate) fn first_bad_check(file: &[u8], n: usize) -> Option<usize>
    requires { 512 * n ≤ length file.now }
    ensures { found_in result ≡ first_failing (check_good file.now) 0 n }
{
    for i in 0..n {
        if !check_good(file, i) {
            return Some(i);
        }
    }
    None
}
