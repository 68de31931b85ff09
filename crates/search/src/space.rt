// The three spaces, by the numbers that a table of distances holds.
ghost use Rattle.std.specs.Prelude.{◌≡◌, List, [], ℕ, length};
ghost use Rattle.lfa.specs.Space.{q_space};
ghost use Rattle.avoid.specs.Avoiding.{asked};
ghost use Rattle.search.specs.Hops.{hops_in};
ghost use Rattle.search.specs.Spaces.{gathered, Reached, space_for, space_named};
ghost use Rattle.search.specs.Calls.{searchable, space_if, hops_of};

use crate::Which;
use crate::hops::{FirstHops, first_hops};
use arcs::head_of;
use avoid::{Protected, avoiding_from, avoiding_to, can_read};
use column::towards_router;
use metric::columns::Links;
use metric::read::Area;

// Whether a question is searched for: the columns have a cell for each link, and the table one for each two routers, the ends of the
// protected link among them.
#[tactic(auto, unfolding(crate::specs::Calls::searchable))]
pub(crate) fn can_search(links: &Links, protected: Protected, area: &Area<'_>) -> bool
    ensures { result ≡ searchable area.now.n links.now.links (asked protected) (length area.now.cells.now) }
{
    links.links <= 128 && can_read(protected, area)
}

// For each first hop, stores the set of the routers that it avoids the link on the way to, and tells those that one of them does: extended
// P. Beyond which arcs are first hops, costs have no part in it. The sets have a column of their own beside that of the arcs: they are
// worked out once the arcs are listed, and extended P needs only their union.
pub(crate) fn reached(
    links: &Links,
    protected: Protected,
    area: &Area<'_>,
    hops: &FirstHops,
    sets: &mut [u64; 256],
) -> u64
    ensures { Reached area.now.n (asked protected) area.now.cells.now links.now.from links.now.to hops.now.count hops.now.arcs sets.new result }
{
    let mut union = 0;
    for i in 0..hops.count {
        let hop = head_of(hops.arcs[i], links);
        let one = avoiding_from(area.cells, area, protected, hop);
        sets[i] = one;
        union |= one;
    }
    union
}

// Extended P.
fn extended_p(links: &Links, protected: Protected, area: &Area<'_>, hops: &FirstHops) -> u64
    ensures { (out back : List ℕ) → result ≡ gathered area.now.n (asked protected) area.now.cells.now 0
        (hops_in links.now.from links.now.to out back hops.now.count hops.now.arcs) }
{
    let mut sets = [0; 256];
    reached(links, protected, area, hops, &mut sets)
}

// Q space.
#[tactic(auto, unfolding(crate::specs::Spaces::space_for))]
fn q_space(protected: Protected, area: &Area<'_>) -> u64
    ensures { result ≡ space_for q_space area.now.n [] (asked protected) area.now.cells.now }
{
    let target = towards_router(area, protected.far);
    avoiding_to(&target, area, protected, &target)
}

// The space that is asked for.
#[tactic(auto, using(crate::proofs::SpaceLaws::can_search), unfolding(crate::specs::Calls::space_if, crate::specs::Spaces::space_for))]
pub(crate) fn space_of(which: Which, links: &Links, protected: Protected, area: &Area<'_>) -> u64
    ensures { result ≡ space_if (searchable area.now.n links.now.links (asked protected) (length area.now.cells.now)) (space_named which) area.now.n
        (hops_of links.now) (asked protected) area.now.cells.now }
{
    if !can_search(links, protected, area) {
        return 0;
    }
    match which {
        Which::P => avoiding_from(area.cells, area, protected, protected.near),
        Which::ExtendedP => extended_p(links, protected, area, &first_hops(links, protected)),
        Which::Q => q_space(protected, area),
    }
}
