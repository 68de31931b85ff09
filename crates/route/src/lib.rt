// Played routes: the routers that a packet visits when the pair of a prefix repair carries it, choice bytes deciding between options.
// The network and the refusals are known from the question's prologue, the pair and the distances from the search.
#![tactic(auto)]

ghost use Rattle.std.specs.Prelude.{◌≡◌, ◌<◌, length, Ok};
ghost use Rattle.lfa.specs.Question.{ask_route, ask_route_with};
ghost use Rattle.lfa.specs.Contract.{Routed, RoutedWith};
ghost use Rattle.search.specs.Calls.{protected_of};
ghost use Rattle.route.specs.Answer.{played_of, passed_on};
ghost use Rattle.route.specs.Put.{route_numbers, Rest, route_question, IsPut};

use answers::{Repair, repair_answer};
use metric::columns::{Links, Slots};
use metric::read::Area;
use network_file::network::Network;
use play::{Ground, play};
use question::{Refusal, pose, pose_with};
use rows::ranks::arranged;
use rows::{Asked, Call};
use search::prefix_pair;

mod play;

// The answer of a route call that nothing turns away: one of the answers of the prefix repair that have no pair, or how many routers were
// written.
#[derive(Clone, Copy)]
pub enum Played {
    Unreachable,
    Untouched,
    Written(usize),
}

// The answers of the prefix repair that have no pair, passed on.
#[tactic(auto, unfolding(crate::specs::Answer::played_of, crate::specs::Answer::passed_on))]
fn passed_on(repair: Repair) -> Played
    ensures { played_of (Ok result) ≡ passed_on (Ok repair) }
{
    match repair {
        Repair::Unreachable => Played::Unreachable,
        Repair::Untouched => Played::Untouched,
        Repair::Pair(_) => Played::Written(0),
    }
}

// The repairing router S: the end of the link that the question names, as `search` sees it too, which hands over pairs alone.
fn repairing(links: &Links, link: usize, end: usize) -> usize
    requires { link < 128 }
    ensures { result ≡ (protected_of links.now link end).near }
{
    if end == 0 {
        usize::from(links.from[link])
    } else {
        usize::from(links.to[link])
    }
}

// The numbers of a question for a route.
#[tactic(auto, unfolding(crate::specs::Put::route_numbers))]
fn route_asked(buffer: usize, ranked: bool, link: usize, end: usize, prefix: usize) -> Asked
    ensures { result ≡ route_numbers buffer ranked link end prefix }
{
    Asked {
        call: Call::Route,
        buffer,
        ranked,
        link,
        end,
        prefix,
    }
}

// The answer to such a question that no row before 14 turns away, over a table of the network's distances: plays the route of the pair that
// repairs the traffic to the prefix, and writes its routers into the buffer.
fn route_over(
    network: &Network,
    table: &[u32],
    ranks: &[u8],
    link: usize,
    end: usize,
    prefix: usize,
    choices: &[u8],
    buffer: &mut [u8],
) -> Result<Played, Refusal>
    requires { (rest : Rest) × IsPut rest network.now table.now (length buffer.old) ranks.now link end prefix choices.now }
    ensures { (rest : Rest) → IsPut rest network.now table.now (length buffer.old) ranks.now link end prefix choices.now →
        RoutedWith (route_question rest (length buffer.old) ranks.now link end prefix choices.now) (played_of result) buffer.old buffer.new }
{
    let repair = repair_answer(prefix_pair(network, ranks, link, end, prefix, table))?;
    let Repair::Pair(pair) = repair else {
        return Ok(passed_on(repair));
    };
    let links = &network.links;
    let area = Area {
        n: links.routers,
        cells: table,
    };
    let ground = Ground {
        links,
        area,
        choices,
    };
    let slots = Slots {
        at: &network.at,
        own: &network.own,
        first: 8 * prefix,
        count: usize::from(network.attached[prefix]),
    };
    let near = repairing(links, link, end);
    let written = play(&ground, &slots, near, pair.first, pair.endpoint, buffer);
    Ok(Played::Written(written))
}

// Plays the route of the pair that repairs the traffic to a prefix, and writes its routers into the buffer.
pub fn route(
    file: &[u8],
    work: &mut [u32],
    ranks: &[u8],
    link: usize,
    end: usize,
    prefix: usize,
    choices: &[u8],
    buffer: &mut [u8],
) -> Result<Played, Refusal>
    ensures { Routed (ask_route file.now (length work.old) (length buffer.old) ranks.now link end prefix choices.now)
        (played_of result) work.old work.new buffer.old buffer.new }
{
    let asked = route_asked(buffer.len(), arranged(ranks), link, end, prefix);
    let network = pose(file, asked, work)?;
    route_over(&network, work, ranks, link, end, prefix, choices, buffer)
}

// The same with a table of the file's distances, which is only read, in place of the work area.
pub fn route_with(
    file: &[u8],
    table: &[u32],
    ranks: &[u8],
    link: usize,
    end: usize,
    prefix: usize,
    choices: &[u8],
    buffer: &mut [u8],
) -> Result<Played, Refusal>
    ensures { RoutedWith (ask_route_with file.now table.now (length buffer.old) ranks.now link end prefix choices.now)
        (played_of result) buffer.old buffer.new }
{
    let asked = route_asked(buffer.len(), arranged(ranks), link, end, prefix);
    let network = pose_with(file, asked, table)?;
    route_over(&network, table, ranks, link, end, prefix, choices, buffer)
}
