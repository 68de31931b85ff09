// The blocks of a network file: judges a file by rows 1 to 5 of document 01, in order.
#![tactic(auto)]

ghost use Rattle.std.specs.Prelude.{◌≡◌, ◌*◌, ◌≤◌, length};
ghost use Rattle.lfa.specs.File.{blocks_in};
ghost use Rattle.lfa.specs.Refusal.{file_returned, first_row};
ghost use Rattle.block.specs.Judged.{later_rows, block_rows, blocks_decided};

use check::first_bad_check;
use field::word_at;
use head::{head_good, length_good};
use later::{blocks_needed, first_bad_block};

mod check;
mod head;
mod later;

// What turns a file's blocks away: the first of rows 1 to 5 that applies, with the value that it returns.
#[derive(Clone, Copy)]
pub enum BlockFault {
    Length,
    Check(usize),
    Head,
    BlockCount(usize),
    Block(usize),
}

// Rows 4 and 5, for a file of n whole blocks.
fn judge_later(file: &[u8], n: usize) -> Result<(), BlockFault>
    requires { (n ≡ blocks_in file.now) × (1 ≤ n) × (n ≤ 13) × (512 * n ≤ length file.now) }
    ensures { blocks_decided result ≡ first_row (file_returned file.now) later_rows }
{
    let links = usize::from(word_at(file, 6));
    let prefixes = usize::from(word_at(file, 8));
    let needed = blocks_needed(links, prefixes);
    if n != needed {
        return Err(BlockFault::BlockCount(needed));
    }
    match first_bad_block(file, n, links, prefixes) {
        Some(i) => Err(BlockFault::Block(i)),
        None => Ok(()),
    }
}

// Rows 1 to 5, each over the whole file before the next.
pub fn judge_blocks(file: &[u8]) -> Result<(), BlockFault>
    ensures { blocks_decided result ≡ first_row (file_returned file.now) block_rows }
{
    if !length_good(file) {
        return Err(BlockFault::Length);
    }
    let n = file.len() / 512;
    if let Some(i) = first_bad_check(file, n) {
        return Err(BlockFault::Check(i));
    }
    if !head_good(file) {
        return Err(BlockFault::Head);
    }
    judge_later(file, n)
}
