// The play of a route: it writes the repairing router and the first hop, goes the leg through the tunnel, and then the leg from the
// endpoint on to delivery.
ghost use Rattle.std.specs.Prelude.{◌≡◌, List, ◌++◌, ℕ, ◌+◌, ◌*◌, ◌≤◌, ◌<◌, length, take, drop};
ghost use Rattle.lfa.specs.Route.{options, NamedRoute};
ghost use Rattle.metric.specs.Columns.{arcs_in};
ghost use Rattle.metric.specs.Area.{held};
ghost use Rattle.metric.specs.Column.{slots_in};
ghost use Rattle.route.specs.Leg.{Leg, Playable};

use column::{attached_routers, towards_prefix};
use metric::columns::{Links, Slots};
use metric::read::Area;
use options::{Move, move_at};
use steps::next_routers;
use supply::choice;

// What a route is played over: the links of the network, its distances, and the choice bytes.
#[derive(Clone, Copy)]
pub(crate) struct Ground<'a> {
    pub links: &'a Links,
    pub area: Area<'a>,
    pub choices: &'a [u8],
}

// How far a route has come: how many choice bytes it has used, and how many routers are written.
#[derive(Clone, Copy)]
struct Progress {
    used: usize,
    written: usize,
}

// Goes one leg from router `start` towards the target that has these slots, and returns how far the route has come then. A choice byte is
// used at each router but `stop`, where the leg ends; it also ends at the first attached router, which delivers. With each step the
// distance to the target falls. A leg that stops nowhere has 64 for `stop`, and no None: `Leg`, the
// relation that the clauses cite, has a number there, and no router is 64.
fn leg(
    ground: &Ground<'_>,
    slots: &Slots<'_>,
    stop: usize,
    start: usize,
    before: Progress,
    buffer: &mut [u8],
) -> Progress
    requires { Playable ground.now.area.n (length ground.now.area.cells.now) ground.now.links.now.links ground.now.links.now.from ground.now.links.now.to ground.now.links.now.out ground.now.links.now.back slots.now.at.now slots.now.first slots.now.count × (start < ground.now.area.n)
        × ((rs : List ℕ) × (next : ℕ) × Leg (options ground.now.area.n (arcs_in ground.now.links.now.from ground.now.links.now.to ground.now.links.now.out ground.now.links.now.back ground.now.links.now.links) (held ground.now.area.n ground.now.area.cells.now) (slots_in slots.now.at.now slots.now.own.now slots.now.first slots.now.count)) ground.now.choices.now stop before.used start rs next
        × (next ≤ 2 * ground.now.area.n) × (before.written + length rs ≤ length buffer.old) × (before.written + length rs ≤ 2 * ground.now.area.n)) }
    ensures { (rs : List ℕ) (next : ℕ) → Leg (options ground.now.area.n (arcs_in ground.now.links.now.from ground.now.links.now.to ground.now.links.now.out ground.now.links.now.back ground.now.links.now.links) (held ground.now.area.n ground.now.area.cells.now)
        (slots_in slots.now.at.now slots.now.own.now slots.now.first slots.now.count)) ground.now.choices.now stop before.used start rs next
        → (result.used ≡ next) × (result.written ≡ before.written + length rs)
        × (buffer.new ≡ (take before.written buffer.old ++ rs) ++ drop result.written buffer.old) }
{
    let target = towards_prefix(&ground.area, slots);
    let ends = attached_routers(slots);
    let nexts = next_routers(ground.links, ends, &target);
    let mut x = start;
    let mut next = before.used;
    let mut k = before.written;
    let end = loop {
        if x == stop {
            break k;
        }
        let byte = choice(ground.choices, next);
        next += 1;
        let taken = move_at(nexts[x], ends, &target, x, byte);
        let Move::Go(z) = taken else {
            break k;
        };
        buffer[k] = z as u8;
        k += 1;
        x = z;
    };
    Progress {
        used: next,
        written: end,
    }
}

// Plays the route of the pair of a first hop and an endpoint: S, the leg from the first hop to the endpoint, and the leg from the
// endpoint to delivery, which goes on with the choice byte after those that the other has used. The tunnel's target is the endpoint, as
// the single attachment of cost 0.
pub(crate) fn play(
    ground: &Ground<'_>,
    slots: &Slots<'_>,
    near: usize,
    hop: usize,
    endpoint: usize,
    buffer: &mut [u8],
) -> usize
    requires { Playable ground.now.area.n (length ground.now.area.cells.now) ground.now.links.now.links ground.now.links.now.from ground.now.links.now.to ground.now.links.now.out ground.now.links.now.back slots.now.at.now slots.now.first slots.now.count
        × (near < ground.now.area.n) × (hop < ground.now.area.n) × (endpoint < ground.now.area.n)
        × ((route : List ℕ) × NamedRoute ground.now.area.n (arcs_in ground.now.links.now.from ground.now.links.now.to ground.now.links.now.out ground.now.links.now.back ground.now.links.now.links) (held ground.now.area.n ground.now.area.cells.now) (slots_in slots.now.at.now slots.now.own.now slots.now.first slots.now.count) ground.now.choices.now near hop endpoint route
        × (length route ≤ length buffer.old) × (length route ≤ 2 * ground.now.area.n)) }
    ensures { (route : List ℕ) → NamedRoute ground.now.area.n (arcs_in ground.now.links.now.from ground.now.links.now.to ground.now.links.now.out ground.now.links.now.back ground.now.links.now.links) (held ground.now.area.n ground.now.area.cells.now)
        (slots_in slots.now.at.now slots.now.own.now slots.now.first slots.now.count) ground.now.choices.now near hop endpoint route
        → (result ≡ length route) × (buffer.new ≡ route ++ drop result buffer.old) }
{
    let mut tunnel = [0u8; 1024];
    let free = [0u16; 1024];
    tunnel[0] = endpoint as u8;
    buffer[0] = near as u8;
    buffer[1] = hop as u8;
    let single = Slots {
        at: &tunnel,
        own: &free,
        first: 0,
        count: 1,
    };
    let begun = Progress {
        used: 0,
        written: 2,
    };
    let arrived = leg(ground, &single, endpoint, hop, begun, buffer);
    let delivered = leg(ground, slots, 64, endpoint, arrived, buffer);
    delivered.written
}
