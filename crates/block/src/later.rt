// Rows 4 and 5: how many blocks there are to be, and what each block after the head is to hold.
ghost use Rattle.std.specs.Prelude.{◌≡◌, ◌+◌, ◌-◌, ◌*◌, ◌≤◌, length};
ghost use Rattle.lfa.specs.Lists.{first_failing};
ghost use Rattle.lfa.specs.File.{links_of, prefixes_of, link_blocks, prefix_blocks, blocks_needed};
ghost use Rattle.lfa.specs.File.{block_of, later_good, entries_in, sound_block, block_good};
ghost use Rattle.block.specs.First.{found_in};
ghost use Rattle.block.specs.Head.{label_good};

use super::check::block_at;
use field::{all_zero, word_at};

// Whether a block's first four bytes say this number, this kind and this many entries.
pub(crate) fn label_good(block: &[u8], number: usize, kind: u8, entries: usize) -> bool
    requires { 4 ≤ length block.now }
    ensures { result ≡ label_good block.now number kind entries }
{
    if usize::from(word_at(block, 2)) != number {
        return false;
    }
    if block[0] != kind {
        return false;
    }
    usize::from(block[1]) == entries
}

// Whether a later block has this number, this kind and this many entries of this size, and zeros after the last entry.
fn later_good(block: &[u8], number: usize, kind: u8, entries: usize, size: usize) -> bool
    requires { (length block.now ≡ 512) × (size * entries ≤ 506) }
    ensures { result ≡ later_good block.now number kind entries size }
{
    if !label_good(block, number, kind, entries) {
        return false;
    }
    let tail = 4 + size * entries;
    all_zero(&block[tail..510])
}

// Blocks that hold so many links, 84 to a block.
fn link_blocks(links: usize) -> usize
    ensures { result ≡ link_blocks links }
{
    links.div_ceil(84)
}

// Blocks that hold so many prefixes, 14 to a block.
fn prefix_blocks(prefixes: usize) -> usize
    ensures { result ≡ prefix_blocks prefixes }
{
    prefixes.div_ceil(14)
}

// Blocks of a whole file, with its head.
// Here and below the head's two numbers stay apart: a struct of them would only rename them.
pub(crate) fn blocks_needed(links: usize, prefixes: usize) -> usize
    requires { (links ≤ 65535) × (prefixes ≤ 65535) }
    ensures { result ≡ blocks_needed links prefixes }
{
    1 + link_blocks(links) + prefix_blocks(prefixes)
}

// Entries of block j of a kind: `each`, but in the last block what is left of the total.
// A test in place of `saturating_sub`, with which judging the blocks of the largest file takes a tenth more instructions.
fn entries_in(each: usize, total: usize, j: usize) -> usize
    requires { each * j ≤ 65535 }
    ensures { result ≡ entries_in each total j }
{
    let before = each * j;
    if total <= before {
        return 0;
    }
    each.min(total - before)
}

// Whether later block i is as the numbers of links and prefixes want it.
fn block_good(file: &[u8], i: usize, links: usize, prefixes: usize) -> bool
    requires { (1 ≤ i) × (i ≤ 13) × (512 * i + 512 ≤ length file.now) }
    ensures { result ≡ sound_block links prefixes i (block_of file.now i) }
{
    let block = block_at(file, i);
    let before = link_blocks(links);
    if i <= before {
        return later_good(block, i, 2, entries_in(84, links, i - 1), 6);
    }
    later_good(block, i, 3, entries_in(14, prefixes, i - 1 - before), 34)
}

// The first block after the head that is not as the head wants it.
pub(crate) fn first_bad_block(
    file: &[u8],
    blocks: usize,
    links: usize,
    prefixes: usize,
) -> Option<usize>
    requires { (1 ≤ blocks) × (blocks ≤ 13) × (512 * blocks ≤ length file.now) × (links ≡ links_of file.now) × (prefixes ≡ prefixes_of file.now) }
    ensures { found_in result ≡ first_failing (block_good file.now) 1 (blocks - 1) }
{
    for i in 1..blocks {
        if !block_good(file, i, links, prefixes) {
            return Some(i);
        }
    }
    None
}
