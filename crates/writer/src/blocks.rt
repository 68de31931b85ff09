// Blocks of 512 bytes, each put together in a block of zeros.
ghost use Rattle.std.specs.Prelude.{◌≡◌, ◌∷◌, ◌++◌, ℕ, ◌+◌, ◌*◌, ◌≤◌, ◌<◌, length, get_or};
ghost use Rattle.lfa.specs.File.{check_of};
ghost use Rattle.lfa.specs.FileOf.{word_bytes, pad, block_bytes};
ghost use Rattle.writer.specs.Put.{put_at};
ghost use Rattle.writer.specs.Block.{ZeroBlock, link_entry_in, prefix_entry_in, first_entries, link_block_in, prefix_block_in};

use super::put::{put_four, put_link, put_prefix, put_word};
use block_check::check_of;
use metric::columns::{Links, Slots};
use network_file::network::Network;

// Puts the check at the end of a block.
fn seal(block: &mut [u8])
    requires { length block.old ≡ 512 }
    ensures { block.new ≡ put_at 510 (word_bytes (check_of block.old)) block.old }
{
    let check = check_of(block);
    put_word(block, 510, check);
}

// The head.
pub(crate) fn head_block(routers: u8, links: u16, prefixes: u16, block: &mut [u8])
    requires { ZeroBlock block.old }
    ensures { block.new ≡ block_bytes 1 0 0 (routers ∷ 0 ∷ word_bytes links ++ word_bytes prefixes) }
{
    put_four(block, 0, 1, 0, 0);
    put_four(block, 4, routers, 0, links);
    put_word(block, 8, prefixes);
    seal(block);
}

// A block of links up to its last entry.
fn link_entries(links: &Links, first: usize, count: usize, number: u16, block: &mut [u8])
    requires { ZeroBlock block.old × (first + count ≤ 128) × (count ≤ 84) }
    ensures { block.new ≡ pad 512 (first_entries 2 count number
        (link_entry_in links.now.from links.now.to links.now.out links.now.back first) count) }
{
    put_four(block, 0, 2, count as u8, number);
    for i in 0..count {
        let k = first + i;
        put_link(
            block,
            4 + 6 * i,
            links.from[k],
            links.to[k],
            links.out[k],
            links.back[k],
        );
    }
}

// Link block j.
pub(crate) fn link_block(links: &Links, j: usize, block: &mut [u8])
    requires { ZeroBlock block.old × (links.now.links ≤ 128) × (84 * j < links.now.links) }
    ensures { block.new ≡ link_block_in links.now.from links.now.to links.now.out links.now.back links.now.links j }
{
    let first = 84 * j;
    let count = (links.links - first).min(84);
    let number = (1 + j) as u16;
    link_entries(links, first, count, number, block);
    seal(block);
}

// A block of prefixes up to its last entry.
// Apart from links: one generic function would take the kind, the entry's size and a closure that puts an entry, with its whole
// contract; so it is with the blocks, here and in `file`.
fn prefix_entries(network: &Network, first: usize, count: usize, number: u16, block: &mut [u8])
    requires { ZeroBlock block.old × (first + count ≤ 128) × (count ≤ 14)
        × ((p : ℕ) → p < first + count → get_or network.now.attached p 0 ≤ 8) }
    ensures { block.new ≡ pad 512 (first_entries 3 count number
        (prefix_entry_in network.now.attached network.now.at network.now.own first) count) }
{
    put_four(block, 0, 3, count as u8, number);
    for i in 0..count {
        let p = first + i;
        let slots = Slots {
            at: &network.at,
            own: &network.own,
            first: 8 * p,
            count: usize::from(network.attached[p]),
        };
        put_prefix(block, 4 + 34 * i, &slots);
    }
}

// Prefix block j, where so many blocks stand before the prefix blocks.
pub(crate) fn prefix_block(network: &Network, ahead: usize, j: usize, block: &mut [u8])
    requires { ZeroBlock block.old × (network.now.links.prefixes ≤ 128) × (14 * j < network.now.links.prefixes) × (ahead ≤ 3)
        × ((p : ℕ) → p < network.now.links.prefixes → get_or network.now.attached p 0 ≤ 8) }
    ensures { block.new ≡ prefix_block_in network.now.attached network.now.at network.now.own network.now.links.prefixes ahead j }
{
    let first = 14 * j;
    let count = (network.links.prefixes - first).min(14);
    let number = (ahead + j) as u16;
    prefix_entries(network, first, count, number, block);
    seal(block);
}
