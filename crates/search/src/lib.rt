// The search part: the three spaces, and the pair that serves a repair, over a network in columns and a table of distances, both only read.
//
// Each function takes any numbers, and answers by the numbers that the table and the columns hold. Where the columns have no cell for the
// link or the prefix, or no distances can be read for the link's ends, a space is empty, and nothing is found.
#![tactic(auto)]

ghost use Rattle.std.specs.Prelude.{◌≡◌};
ghost use Rattle.search.specs.Spaces.{space_named};
ghost use Rattle.search.specs.Choice.{outcome_in, outcome_of_pair};
ghost use Rattle.search.specs.Calls.{space_by, link_by, prefix_by};

use column::{attached_routers, towards_prefix};
use metric::columns::{Links, Slots};
use metric::read::Area;
use network_file::network::Network;
use order::Pair;
use pair::{link_found, prefix_found};
use protected::protect;
use space::space_of;

mod hops;
mod pair;
mod protected;
mod space;

// One of the three spaces: it names what is asked for.
#[derive(Clone, Copy)]
pub enum Which {
    P,
    ExtendedP,
    Q,
}

// What a search for a prefix finds, and what a repair call answers: unreachable, untouched, or the pair that repairs the traffic.
#[derive(Clone, Copy)]
pub enum Repair {
    Unreachable,
    Untouched,
    Pair(Pair),
}

// One of the three spaces, as the set of its routers: router r is the bit of weight 2 to the power r.
#[tactic(auto, unfolding(crate::specs::Calls::space_by, crate::specs::Calls::space_if))]
pub fn space_in(which: Which, links: &Links, link: usize, end: usize, table: &[u32]) -> u64
    ensures { result ≡ space_by (space_named which) links.now link end table.now }
{
    if 128 <= link {
        return 0;
    }
    let area = Area {
        n: links.routers,
        cells: table,
    };
    space_of(which, links, protect(links, link, end), &area)
}

// The pair that repairs a link: around it, to its far router.
#[tactic(auto, unfolding(crate::specs::Calls::link_by, crate::specs::Calls::link_if))]
pub fn link_pair(
    links: &Links,
    ranks: &[u8],
    link: usize,
    end: usize,
    table: &[u32],
) -> Option<Pair>
    ensures { outcome_of_pair result ≡ link_by links.now ranks.now link end table.now }
{
    if 128 <= link {
        return None;
    }
    let area = Area {
        n: links.routers,
        cells: table,
    };
    link_found(links, ranks, protect(links, link, end), &area)
}

// The pair that repairs the traffic to a prefix, where it may cross the link. A walk towards the prefix ends at an attached router.
#[tactic(auto, unfolding(crate::specs::Calls::prefix_by, crate::specs::Calls::prefix_if))]
pub fn prefix_pair(
    network: &Network,
    ranks: &[u8],
    link: usize,
    end: usize,
    prefix: usize,
    table: &[u32],
) -> Option<Repair>
    ensures { outcome_in result ≡ prefix_by network.now ranks.now link end prefix table.now }
{
    if 128 <= prefix {
        return None;
    }
    if 128 <= link {
        return None;
    }
    let links = &network.links;
    let area = Area {
        n: links.routers,
        cells: table,
    };
    let slots = Slots {
        at: &network.at,
        own: &network.own,
        first: 8 * prefix,
        count: usize::from(network.attached[prefix]),
    };
    let target = towards_prefix(&area, &slots);
    let ends = attached_routers(&slots);
    let protected = protect(links, link, end);
    prefix_found(links, ranks, protected, &area, &target, ends)
}
