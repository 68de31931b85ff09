// The arcs of the link columns by their numbers: where an arc leads, what it costs, and whether it is a first hop of a repair.
#![tactic(auto, unfolding(crate::specs::Arcs::side_of, crate::specs::Arcs::leaves_near))]

ghost use Rattle.std.specs.Prelude.{◌≡◌, ◌%◌, eqb, true, false};
ghost use Rattle.avoid.specs.Avoiding.{asked};
ghost use Rattle.arcs.specs.Arcs.{side_of, hop_in, hop_by, leaves_near};

use avoid::Protected;
use metric::columns::Links;

// What belongs to an arc, of what its link has for each direction: arc 2k leads over link k from its first router to its second, and
// arc 2k + 1 the other way.
fn side<T: Copy>(arc: u8, there: T, back: T) -> T
    ensures { result ≡ elim (eqb (arc % 2) 0) [ true ↦ there | false ↦ back ] }
{
    if arc % 2 == 0 { there } else { back }
}

// The router that an arc leads to.
pub fn head_of(arc: u8, links: &Links) -> usize
    ensures { result ≡ side_of arc links.now.to links.now.from }
{
    let k = usize::from(arc / 2);
    usize::from(side(arc, links.to[k], links.from[k]))
}

// The router that an arc leads from.
pub fn tail_of(arc: u8, links: &Links) -> usize
    ensures { result ≡ side_of arc links.now.from links.now.to }
{
    let k = usize::from(arc / 2);
    usize::from(side(arc, links.from[k], links.to[k]))
}

// The cost of an arc.
fn price_of(arc: u8, links: &Links) -> u32
    ensures { result ≡ side_of arc links.now.out links.now.back }
{
    let k = usize::from(arc / 2);
    u32::from(side(arc, links.out[k], links.back[k]))
}

// A first hop: its router, the cost from S to it, and the link that leads there.
#[derive(Clone, Copy)]
pub struct Hop {
    pub router: usize,
    pub cost: u32,
    pub over: usize,
}

// An arc as a first hop.
pub fn hop_of(arc: u8, links: &Links) -> Hop
    ensures { hop_in result ≡ hop_by links.now.from links.now.to links.now.out links.now.back arc }
{
    Hop {
        router: head_of(arc, links),
        cost: price_of(arc, links),
        over: usize::from(arc / 2),
    }
}

// The cost at which a link is under maintenance.
const UNDER_MAINTENANCE: u32 = 65535;

// Whether an arc is a first hop: it leaves S, does not lead to E, and is not under maintenance.
pub fn leaves(arc: u8, links: &Links, protected: Protected) -> bool
    ensures { result ≡ leaves_near (asked protected) links.now.from links.now.to links.now.out links.now.back arc }
{
    tail_of(arc, links) == protected.near
        && head_of(arc, links) != protected.far
        && price_of(arc, links) < UNDER_MAINTENANCE
}
