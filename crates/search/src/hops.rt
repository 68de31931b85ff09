// The first hops of a repair, as numbers of arcs.
ghost use Rattle.std.specs.Prelude.{◌≡◌, ◌||◌, ◌<◌, ◌≤◌, eqb};
ghost use Rattle.avoid.specs.Avoiding.{asked};
ghost use Rattle.arcs.specs.Arcs.{leaves_near};
ghost use Rattle.search.specs.Hops.{Put, Listed};

use arcs::leaves;
use avoid::Protected;
use metric::columns::Links;

// The first hops of a repair: the numbers of `count` arcs. The planner is called without an allocator, so that the column has a cell for
// each of the 256 arcs of 128 links.
#[derive(Clone, Copy)]
pub(crate) struct FirstHops {
    pub(crate) count: usize,
    pub(crate) arcs: [u8; 256],
    ghost few: { count ≤ 256 },
}

impl FirstHops {
    // Puts an arc after those listed, where it is a first hop.
    fn put(&mut self, arc: u8, links: &Links, protected: Protected)
        requires { self.old.count < 256 }
        ensures { Put (leaves_near (asked protected) links.now.from links.now.to links.now.out links.now.back arc) arc
            self.old.count self.old.arcs self.new.count self.new.arcs }
    {
        if leaves(arc, links, protected) {
            self.arcs[self.count] = arc;
            self.count += 1;
        }
    }
}

// Whether S is one of the two routers of a link.
fn touches(near: usize, a: u8, b: u8) -> bool
    ensures { result ≡ (eqb a near || eqb b near) }
{
    usize::from(a) == near || usize::from(b) == near
}

// Lists the first hops in file order of the links. Their routers and costs are read from the columns by the arc's number, so that one
// column of numbers is written. Few links touch S, and the arcs of the others are not tried.
pub(crate) fn first_hops(links: &Links, protected: Protected) -> FirstHops
    requires { links.now.links ≤ 128 }
    ensures { Listed (asked protected) links.now.from links.now.to links.now.out links.now.back links.now.links result.count result.arcs }
{
    let mut hops = FirstHops {
        count: 0,
        arcs: [0; 256],
    };
    for k in 0..links.links {
        if touches(protected.near, links.from[k], links.to[k]) {
            let there = (2 * k) as u8;
            hops.put(there, links, protected);
            hops.put(there + 1, links, protected);
        }
    }
    hops
}
