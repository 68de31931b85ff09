// The planner for programs in other languages: each public call of `planner` as a C function of the same name, with the same clauses. A crate
// that exports functions is no library to other crates, so the calls themselves, and what is proved of them, stand in `planner`.
#![tactic(auto)]

ghost use Rattle.std.specs.Prelude.{◌≡◌, length};
ghost use Rattle.lfa.specs.Space.{p_space, extended_p, q_space, size_of};
ghost use Rattle.lfa.specs.Question.{loading, filling, ask_space, ask_link, ask_prefix, ask_route, ask_link_with, ask_prefix_with, ask_route_with};
ghost use Rattle.lfa.specs.Answer.{answer_to, network_loaded, link_part, prefix_part};
ghost use Rattle.lfa.specs.Writing.{Wrote};
ghost use Rattle.lfa.specs.Drill.{Drilled};
ghost use Rattle.network_file.specs.Struct.{struct_of};
ghost use Rattle.network_file.specs.Held.{network_held};
ghost use Rattle.numbers.specs.Numbers.{numbers_of};
ghost use Rattle.planner.specs.Numbers.{loaded_as, network_in, Numbered, NumberedRoute, NumberedRouteWith};
ghost use Rattle.planner.specs.Copied.{copied_to};

use numbers::Numbers;
use planner::LoadedNetwork;

// Judges a file and hands over its network.
#[unsafe(no_mangle)]
pub extern "C" fn planner_load(file: &[u8]) -> LoadedNetwork
    ensures { result ≡ loaded_as (numbers_of (answer_to (loading file.now))) (struct_of (network_loaded file.now)) }
{
    planner::planner_load(file)
}

// Writes the network file of a network into the buffer, and tells how many bytes it has; 0 where nothing is written. The verdict beside the
// network is not looked at.
#[unsafe(no_mangle)]
pub extern "C" fn planner_write(given: LoadedNetwork, buffer: &mut [u8]) -> usize
    ensures { Wrote (network_held (network_in given)) result buffer.old buffer.new }
{
    planner::planner_write(given, buffer)
}

// Writes the network file of a drill into the buffer, and tells how many bytes it has; 0 where nothing is written.
#[unsafe(no_mangle)]
pub extern "C" fn planner_drill(seed: u32, routers: usize, buffer: &mut [u8]) -> usize
    ensures { Drilled seed routers result buffer.old buffer.new }
{
    planner::planner_drill(seed, routers, buffer)
}

// Copies the bytes of a link's entry into the buffer, and tells how many they are.
#[unsafe(no_mangle)]
pub extern "C" fn planner_link_entry(file: &[u8], link: usize, entry: &mut [u8; 34]) -> usize
    ensures { (result ≡ length (link_part file.now link))
        × (entry.new ≡ copied_to entry.old (link_part file.now link)) }
{
    planner::planner_link_entry(file, link, entry)
}

// Copies the bytes of a prefix's entry into the buffer, and tells how many they are.
#[unsafe(no_mangle)]
pub extern "C" fn planner_prefix_entry(file: &[u8], prefix: usize, entry: &mut [u8; 34]) -> usize
    ensures { (result ≡ length (prefix_part file.now prefix))
        × (entry.new ≡ copied_to entry.old (prefix_part file.now prefix)) }
{
    planner::planner_prefix_entry(file, prefix, entry)
}

// Fills the work area with the distances between the routers of a file.
#[unsafe(no_mangle)]
pub extern "C" fn planner_distances(file: &[u8], work: &mut [u32]) -> Numbers
    ensures { Numbered (filling file.now (length work.old)) result work.old work.new }
{
    planner::planner_distances(file, work)
}

// P space, as a set.
#[unsafe(no_mangle)]
pub extern "C" fn planner_p_space(file: &[u8], work: &mut [u32], link: usize, end: usize) -> Numbers
    ensures { Numbered (ask_space p_space file.now (length work.old) link end) result work.old work.new }
{
    planner::planner_p_space(file, work, link, end)
}

// Extended P space, as a set.
#[unsafe(no_mangle)]
pub extern "C" fn planner_extended_p_space(
    file: &[u8],
    work: &mut [u32],
    link: usize,
    end: usize,
) -> Numbers
    ensures { Numbered (ask_space extended_p file.now (length work.old) link end) result work.old work.new }
{
    planner::planner_extended_p_space(file, work, link, end)
}

// Q space, as a set.
#[unsafe(no_mangle)]
pub extern "C" fn planner_q_space(file: &[u8], work: &mut [u32], link: usize, end: usize) -> Numbers
    ensures { Numbered (ask_space q_space file.now (length work.old) link end) result work.old work.new }
{
    planner::planner_q_space(file, work, link, end)
}

// The number of routers in a set.
#[unsafe(no_mangle)]
pub extern "C" fn planner_size(set: u64) -> u32
    ensures { result ≡ size_of set }
{
    planner::planner_size(set)
}

// The pair that repairs a link. The table gives each of the eight classes its rank: 0 to 7, once each. The class is 4 to 7.
#[unsafe(no_mangle)]
pub extern "C" fn planner_link_repair(
    file: &[u8],
    work: &mut [u32],
    ranks: &[u8],
    link: usize,
    end: usize,
) -> Numbers
    ensures { Numbered (ask_link file.now (length work.old) ranks.now link end) result work.old work.new }
{
    planner::planner_link_repair(file, work, ranks, link, end)
}

// The same with a table of the file's distances, which is only read, in place of the work area.
#[unsafe(no_mangle)]
pub extern "C" fn planner_link_repair_with(
    file: &[u8],
    table: &[u32],
    ranks: &[u8],
    link: usize,
    end: usize,
) -> Numbers
    ensures { result ≡ numbers_of (answer_to (ask_link_with file.now table.now ranks.now link end)) }
{
    planner::planner_link_repair_with(file, table, ranks, link, end)
}

// The pair that repairs the traffic to a prefix. A class below 4 tells that no walk of the pair visits the far router.
#[unsafe(no_mangle)]
pub extern "C" fn planner_prefix_repair(
    file: &[u8],
    work: &mut [u32],
    ranks: &[u8],
    link: usize,
    end: usize,
    prefix: usize,
) -> Numbers
    ensures { Numbered (ask_prefix file.now (length work.old) ranks.now link end prefix) result work.old work.new }
{
    planner::planner_prefix_repair(file, work, ranks, link, end, prefix)
}

// The same with a table of the file's distances, which is only read, in place of the work area.
#[unsafe(no_mangle)]
pub extern "C" fn planner_prefix_repair_with(
    file: &[u8],
    table: &[u32],
    ranks: &[u8],
    link: usize,
    end: usize,
    prefix: usize,
) -> Numbers
    ensures { result ≡ numbers_of (answer_to (ask_prefix_with file.now table.now ranks.now link end prefix)) }
{
    planner::planner_prefix_repair_with(file, table, ranks, link, end, prefix)
}

// Plays the route of the pair that repairs the traffic to a prefix, and writes its routers into the buffer.
#[unsafe(no_mangle)]
pub extern "C" fn planner_route(
    file: &[u8],
    work: &mut [u32],
    ranks: &[u8],
    link: usize,
    end: usize,
    prefix: usize,
    choices: &[u8],
    buffer: &mut [u8],
) -> Numbers
    ensures { NumberedRoute (ask_route file.now (length work.old) (length buffer.old) ranks.now link end prefix choices.now)
        result work.old work.new buffer.old buffer.new }
{
    planner::planner_route(file, work, ranks, link, end, prefix, choices, buffer)
}

// The same with a table of the file's distances, which is only read, in place of the work area.
#[unsafe(no_mangle)]
pub extern "C" fn planner_route_with(
    file: &[u8],
    table: &[u32],
    ranks: &[u8],
    link: usize,
    end: usize,
    prefix: usize,
    choices: &[u8],
    buffer: &mut [u8],
) -> Numbers
    ensures { NumberedRouteWith (ask_route_with file.now table.now (length buffer.old) ranks.now link end prefix choices.now)
        result buffer.old buffer.new }
{
    planner::planner_route_with(file, table, ranks, link, end, prefix, choices, buffer)
}
