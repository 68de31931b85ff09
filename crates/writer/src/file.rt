// The blocks of a file, one after the other in a buffer of zeros.
ghost use Rattle.std.specs.Prelude.{◌≡◌, [], ◌∷◌, ◌++◌, map, ℕ, ◌+◌, ◌*◌, ◌≤◌, ◌<◌, length, get_or, take};
ghost use Rattle.lfa.specs.Lists.{below, flat};
ghost use Rattle.lfa.specs.File.{link_blocks, prefix_blocks};
ghost use Rattle.lfa.specs.FileOf.{word_bytes, block_bytes, file_of};
ghost use Rattle.network_file.specs.Held.{network_held};
ghost use Rattle.writer.specs.Block.{link_block_in, prefix_block_in};
ghost use Rattle.writer.specs.File.{Holds, Small};

use super::blocks::{head_block, link_block, prefix_block};
use metric::columns::Links;
use network_file::network::Network;

// Puts the head at the start.
fn put_head(links: &Links, file: &mut [u8])
    requires { (links.now.routers ≤ 64) × (links.now.links ≤ 128) × (links.now.prefixes ≤ 128) × Holds [] file.old }
    ensures { Holds (block_bytes 1 0 0 (links.now.routers ∷ 0 ∷ word_bytes links.now.links ++ word_bytes links.now.prefixes)) file.new }
{
    head_block(
        links.routers as u8,
        links.links as u16,
        links.prefixes as u16,
        &mut file[0..512],
    );
}

// Puts the link blocks after the head, and returns how many they are.
fn put_link_blocks(links: &Links, file: &mut [u8]) -> usize
    requires { (links.now.links ≤ 128) × Holds (take 512 file.old) file.old }
    ensures { (result ≡ link_blocks links.now.links) × Holds (take 512 file.old ++ flat (map
        (link_block_in links.now.from links.now.to links.now.out links.now.back links.now.links) (below (link_blocks links.now.links)))) file.new }
{
    let blocks = links.links.div_ceil(84);
    for j in 0..blocks {
        let start = 512 * (1 + j);
        let end = start + 512;
        link_block(links, j, &mut file[start..end]);
    }
    blocks
}

// Puts the prefix blocks after the blocks ahead of them, and returns how many they are.
fn put_prefix_blocks(network: &Network, ahead: usize, file: &mut [u8]) -> usize
    requires { (network.now.links.prefixes ≤ 128) × (ahead ≤ 3) × Holds (take (512 * ahead) file.old) file.old
        × ((p : ℕ) → p < network.now.links.prefixes → get_or network.now.attached p 0 ≤ 8) }
    ensures { (result ≡ prefix_blocks network.now.links.prefixes) × Holds (take (512 * ahead) file.old ++ flat (map
        (prefix_block_in network.now.attached network.now.at network.now.own network.now.links.prefixes ahead) (below (prefix_blocks network.now.links.prefixes)))) file.new }
{
    let blocks = network.links.prefixes.div_ceil(14);
    for j in 0..blocks {
        let start = 512 * (ahead + j);
        let end = start + 512;
        prefix_block(network, ahead, j, &mut file[start..end]);
    }
    blocks
}

// Puts the whole file, and returns its length.
pub(crate) fn compose(network: &Network, file: &mut [u8]) -> usize
    requires { Small network.now × Holds [] file.old }
    ensures { (result ≡ length (file_of (network_held network.now))) × Holds (file_of (network_held network.now)) file.new }
{
    put_head(&network.links, file);
    let ahead = 1 + put_link_blocks(&network.links, file);
    let more = put_prefix_blocks(network, ahead, file);
    512 * (ahead + more)
}
