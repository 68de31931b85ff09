// The planner for programs in other languages: each public call with its answer as numbers. `planner_c` exports each as a C function, its
// buffers as pointer and length; `include/planner.h` tells C programs the same.
#![tactic(auto)]

ghost use Rattle.std.specs.Prelude.{◌≡◌, length};
ghost use Rattle.lfa.specs.Space.{p_space, extended_p, q_space, size_of};
ghost use Rattle.lfa.specs.Question.{loading, filling, ask_space, ask_link, ask_prefix, ask_route, ask_link_with, ask_prefix_with, ask_route_with};
ghost use Rattle.lfa.specs.Answer.{answer_to, network_loaded, link_part, prefix_part};
ghost use Rattle.lfa.specs.Writing.{Wrote};
ghost use Rattle.lfa.specs.Drill.{Drilled};
ghost use Rattle.network_file.specs.Struct.{struct_of};
ghost use Rattle.network_file.specs.Held.{network_held};
ghost use Rattle.numbers.specs.Numbers.{numbers_of};
ghost use Rattle.planner.specs.Numbers.{loaded_as, network_in, Numbered, NumberedRoute, NumberedRouteWith};
ghost use Rattle.planner.specs.Copied.{copied_to};

use answers::size;
use copy::copy_part;
use drill::drill;
use entries::{link_entry, prefix_entry};
use metric::columns::Links;
use network_file::load;
use network_file::network::Network;
use numbers::{
    Numbers, filled_numbers, played_numbers, repair_numbers, space_numbers, verdict_numbers,
};
use repair::{
    distances, extended_p_space, link_repair, link_repair_with, p_space, prefix_repair,
    prefix_repair_with, q_space,
};
use route::{route, route_with};
use writer::write;

mod copy;

// The verdict on a file as numbers, and the network that the file holds or is to hold.
#[repr(C)]
#[derive(Drop)]
pub struct LoadedNetwork {
    pub kind: u32,
    pub number: u32,
    pub value: u64,
    pub routers: usize,
    pub links: usize,
    pub prefixes: usize,
    pub from: [u8; 128],
    pub to: [u8; 128],
    pub out: [u16; 128],
    pub back: [u16; 128],
    pub attached: [u8; 128],
    pub at: [u8; 1024],
    pub own: [u16; 1024],
}

// A verdict as numbers, and a network, column by column.
#[tactic(auto, unfolding(crate::specs::Numbers::loaded_as))]
fn loaded_network(answer: Numbers, network: &Network) -> LoadedNetwork
    ensures { result ≡ loaded_as answer network.now }
{
    let links = &network.links;
    LoadedNetwork {
        kind: answer.kind,
        number: answer.number,
        value: answer.value,
        routers: links.routers,
        links: links.links,
        prefixes: links.prefixes,
        from: links.from,
        to: links.to,
        out: links.out,
        back: links.back,
        attached: network.attached,
        at: network.at,
        own: network.own,
    }
}

// Judges a file and hands over its network.
pub fn planner_load(file: &[u8]) -> LoadedNetwork
    ensures { result ≡ loaded_as (numbers_of (answer_to (loading file.now))) (struct_of (network_loaded file.now)) }
{
    match load(file) {
        Ok(network) => loaded_network(verdict_numbers(Ok(())), &network),
        Err(fault) => loaded_network(verdict_numbers(Err(fault)), &Network::empty()),
    }
}

// Writes the network file of a network into the buffer, and tells how many bytes it has; 0 where nothing is written. The verdict beside the
// network is not looked at.
#[tactic(auto, unfolding(crate::specs::Numbers::network_in))]
pub fn planner_write(given: LoadedNetwork, buffer: &mut [u8]) -> usize
    ensures { Wrote (network_held (network_in given)) result buffer.old buffer.new }
{
    // Each column is taken out first: the borrow checker does not follow one that goes from this struct straight into a literal.
    let from = given.from;
    let to = given.to;
    let out = given.out;
    let back = given.back;
    let links = Links {
        routers: given.routers,
        links: given.links,
        prefixes: given.prefixes,
        from,
        to,
        out,
        back,
    };
    let attached = given.attached;
    let at = given.at;
    let own = given.own;
    let plain = Network {
        links,
        attached,
        at,
        own,
    };
    write(&plain, buffer)
}

// Writes the network file of a drill into the buffer, and tells how many bytes it has; 0 where nothing is written.
pub fn planner_drill(seed: u32, routers: usize, buffer: &mut [u8]) -> usize
    ensures { Drilled seed routers result buffer.old buffer.new }
{
    drill(seed, routers, buffer)
}

// Copies the bytes of a link's entry into the buffer, and tells how many they are.
pub fn planner_link_entry(file: &[u8], link: usize, entry: &mut [u8; 34]) -> usize
    ensures { (result ≡ length (link_part file.now link))
        × (entry.new ≡ copied_to entry.old (link_part file.now link)) }
{
    let part = link_entry(file, link);
    copy_part(part, entry)
}

// Copies the bytes of a prefix's entry into the buffer, and tells how many they are.
pub fn planner_prefix_entry(file: &[u8], prefix: usize, entry: &mut [u8; 34]) -> usize
    ensures { (result ≡ length (prefix_part file.now prefix))
        × (entry.new ≡ copied_to entry.old (prefix_part file.now prefix)) }
{
    let part = prefix_entry(file, prefix);
    copy_part(part, entry)
}

// Fills the work area with the distances between the routers of a file.
pub fn planner_distances(file: &[u8], work: &mut [u32]) -> Numbers
    ensures { Numbered (filling file.now (length work.old)) result work.old work.new }
{
    filled_numbers(distances(file, work))
}

// P space, as a set.
pub fn planner_p_space(file: &[u8], work: &mut [u32], link: usize, end: usize) -> Numbers
    ensures { Numbered (ask_space p_space file.now (length work.old) link end) result work.old work.new }
{
    space_numbers(p_space(file, work, link, end))
}

// Extended P space, as a set.
pub fn planner_extended_p_space(file: &[u8], work: &mut [u32], link: usize, end: usize) -> Numbers
    ensures { Numbered (ask_space extended_p file.now (length work.old) link end) result work.old work.new }
{
    space_numbers(extended_p_space(file, work, link, end))
}

// Q space, as a set.
pub fn planner_q_space(file: &[u8], work: &mut [u32], link: usize, end: usize) -> Numbers
    ensures { Numbered (ask_space q_space file.now (length work.old) link end) result work.old work.new }
{
    space_numbers(q_space(file, work, link, end))
}

// The number of routers in a set.
pub fn planner_size(set: u64) -> u32
    ensures { result ≡ size_of set }
{
    size(set)
}

// The pair that repairs a link. The table gives each of the eight classes its rank: 0 to 7, once each. The class is 4 to 7.
pub fn planner_link_repair(
    file: &[u8],
    work: &mut [u32],
    ranks: &[u8],
    link: usize,
    end: usize,
) -> Numbers
    ensures { Numbered (ask_link file.now (length work.old) ranks.now link end) result work.old work.new }
{
    repair_numbers(link_repair(file, work, ranks, link, end))
}

// The same with a table of the file's distances, which is only read, in place of the work area.
pub fn planner_link_repair_with(
    file: &[u8],
    table: &[u32],
    ranks: &[u8],
    link: usize,
    end: usize,
) -> Numbers
    ensures { result ≡ numbers_of (answer_to (ask_link_with file.now table.now ranks.now link end)) }
{
    repair_numbers(link_repair_with(file, table, ranks, link, end))
}

// The pair that repairs the traffic to a prefix. A class below 4 tells that no walk of the pair visits the far router.
pub fn planner_prefix_repair(
    file: &[u8],
    work: &mut [u32],
    ranks: &[u8],
    link: usize,
    end: usize,
    prefix: usize,
) -> Numbers
    ensures { Numbered (ask_prefix file.now (length work.old) ranks.now link end prefix) result work.old work.new }
{
    repair_numbers(prefix_repair(file, work, ranks, link, end, prefix))
}

// The same with a table of the file's distances, which is only read, in place of the work area.
pub fn planner_prefix_repair_with(
    file: &[u8],
    table: &[u32],
    ranks: &[u8],
    link: usize,
    end: usize,
    prefix: usize,
) -> Numbers
    ensures { result ≡ numbers_of (answer_to (ask_prefix_with file.now table.now ranks.now link end prefix)) }
{
    repair_numbers(prefix_repair_with(file, table, ranks, link, end, prefix))
}

// Plays the route of the pair that repairs the traffic to a prefix, and writes its routers into the buffer.
pub fn planner_route(
    file: &[u8],
    work: &mut [u32],
    ranks: &[u8],
    link: usize,
    end: usize,
    prefix: usize,
    choices: &[u8],
    buffer: &mut [u8],
) -> Numbers
    ensures { NumberedRoute (ask_route file.now (length work.old) (length buffer.old) ranks.now link end prefix choices.now)
        result work.old work.new buffer.old buffer.new }
{
    played_numbers(route(file, work, ranks, link, end, prefix, choices, buffer))
}

// The same with a table of the file's distances, which is only read, in place of the work area.
pub fn planner_route_with(
    file: &[u8],
    table: &[u32],
    ranks: &[u8],
    link: usize,
    end: usize,
    prefix: usize,
    choices: &[u8],
    buffer: &mut [u8],
) -> Numbers
    ensures { NumberedRouteWith (ask_route_with file.now table.now (length buffer.old) ranks.now link end prefix choices.now)
        result buffer.old buffer.new }
{
    played_numbers(route_with(file, table, ranks, link, end, prefix, choices, buffer))
}
