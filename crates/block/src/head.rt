// Rows 1 and 3: the length of a file, and its head.
ghost use Rattle.std.specs.Prelude.{◌≡◌, ◌≤◌, length};
ghost use Rattle.lfa.specs.File.{length_good, head_good};
ghost use Rattle.block.specs.Head.{counts_good};

use super::later::label_good;
use field::{all_zero, word_at};

// Whether the length is one that a file can have.
pub(crate) fn length_good(file: &[u8]) -> bool
    ensures { result ≡ length_good file.now }
{
    let n = file.len();
    n != 0 && n % 512 == 0 && n <= 6656
}

// Whether the head's numbers of routers, links and prefixes are within the limits.
fn counts_good(file: &[u8]) -> bool
    requires { 10 ≤ length file.now }
    ensures { result ≡ counts_good file.now }
{
    let routers = file[4];
    if routers < 1 {
        return false;
    }
    if 64 < routers {
        return false;
    }
    if 128 < word_at(file, 6) {
        return false;
    }
    word_at(file, 8) <= 128
}

// Whether the head is as it should be.
pub(crate) fn head_good(file: &[u8]) -> bool
    requires { 512 ≤ length file.now }
    ensures { result ≡ head_good file.now }
{
    if !label_good(file, 0, 1, 0) {
        return false;
    }
    if file[5] != 0 {
        return false;
    }
    if !counts_good(file) {
        return false;
    }
    all_zero(&file[10..510])
}
