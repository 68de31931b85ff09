// Drills: training networks by number (Point 13). A drill is a ring whose costs are drawn from a seed, made as a network and
// written by `writer`.
#![tactic(auto)]

ghost use Rattle.std.specs.Prelude.{◌≡◌, ◌+◌, ◌%◌, ◌≤◌, ◌<◌};
ghost use Rattle.lfa.specs.Ring.{next_on_ring};
ghost use Rattle.lfa.specs.Drill.{replaced, upper_bits, drill_of, Drilled};
ghost use Rattle.network_file.specs.Held.{network_held};
ghost use Rattle.drill.specs.Columns.{Drawn};

use metric::columns::Links;
use network_file::network::Network;
use writer::write;

// The routers that a link joins.
#[derive(Drop)]
struct Ends {
    a: usize,
    b: usize,
}

// What one draw puts in the place of the seed.
fn replace(seed: u32) -> u32
    ensures { result ≡ replaced seed }
{
    seed.wrapping_mul(1664525).wrapping_add(1013904223)
}

// The cost that the upper 16 bits of a replaced seed give.
fn cost_of(seed: u32) -> u16
    ensures { result ≡ 1 + upper_bits seed % 100 }
{
    let drawn = seed / 65536;
    (1 + drawn % 100) as u16
}

// Router a and router b of link i of a ring of n routers.
fn ends_of(n: usize, i: usize) -> Ends
    requires { (i < n) × (n ≤ 64) }
    ensures { (result.a ≡ i) × (result.b ≡ next_on_ring n i) }
{
    if i + 1 < n {
        return Ends { a: i, b: i + 1 };
    }
    Ends { a: i, b: 0 }
}

// The links of a ring of n routers in link order, each with its two costs, the one from a to b drawn first.
fn draw_links(seed: u32, n: usize) -> Links
    requires { n ≤ 64 }
    ensures { (result.routers ≡ n) × (result.links ≡ n) × (result.prefixes ≡ 0) × Drawn seed n n result.from result.to result.out result.back }
{
    let mut from = [0u8; 128];
    let mut to = [0u8; 128];
    let mut out = [0u16; 128];
    let mut back = [0u16; 128];
    let mut drawn = seed;
    for i in 0..n {
        let ends = ends_of(n, i);
        from[i] = ends.a as u8;
        to[i] = ends.b as u8;
        let first = replace(drawn);
        let second = replace(first);
        out[i] = cost_of(first);
        back[i] = cost_of(second);
        drawn = second;
    }
    Links {
        routers: n,
        links: n,
        prefixes: 0,
        from,
        to,
        out,
        back,
    }
}

// The drill as a network.
fn network_of(seed: u32, n: usize) -> Network
    requires { n ≤ 64 }
    ensures { network_held result ≡ drill_of seed n }
{
    Network {
        links: draw_links(seed, n),
        attached: [0; 128],
        at: [0; 1024],
        own: [0; 1024],
    }
}

// Writes the network file of the drill of a seed with so many routers into the buffer, and returns its length; 0, and nothing is
// written, where the routers are not 3 to 64 or the buffer is shorter than the file.
// 0 and no Option: `Drilled` and the C interface say so.
pub fn drill(seed: u32, routers: usize, buffer: &mut [u8]) -> usize
    ensures { Drilled seed routers result buffer.old buffer.new }
{
    if routers < 3 {
        return 0;
    }
    if 64 < routers {
        return 0;
    }
    write(&network_of(seed, routers), buffer)
}
