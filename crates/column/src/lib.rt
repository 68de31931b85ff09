// The distances to a target, one for each router, read from an area that holds the distances; and the routers attached to a prefix.
//
// The public functions take any numbers. Where they are not those of a network, the column is all zeros, and the set is empty.
#![tactic(auto)]

ghost use Rattle.std.specs.Prelude.{◌≡◌, ℕ, ◌≤◌, ◌<◌, true, length};
ghost use Rattle.lfa.specs.Distance.{towards, unreachable};
ghost use Rattle.lfa.specs.Space.{set_of};
ghost use Rattle.metric.specs.Fit.{SlotsWithin, cells_fit};
ghost use Rattle.metric.specs.Area.{held};
ghost use Rattle.metric.specs.Column.{column, slots_in};
ghost use Rattle.column.specs.Calls.{router_column, prefix_column, in_slots, attached_set};

use fit::slots_fit;
use metric::Distance;
use metric::columns::Slots;
use metric::read::Area;

// A column: for each of n routers the number that `to` gives it.
fn column_of<F: Fn(usize) -> u32>(n: usize, to: F) -> [u32; 64]
    requires few { n ≤ 64 }
    requires callable { (x : ℕ) → x < n → F.pre to x }
    ensures { (f : ℕ → ℕ) → ((x r : ℕ) → x < n → r ≤ unreachable → F.post to x r → r ≡ f x) → result ≡ column n f }
{
    let mut target = [0u32; 64];
    for x in 0..n {
        target[x] = to(x);
    }
    target
}

// The distance from router x to the prefix that has these slots.
fn to_prefix(area: &Area<'_>, x: usize, slots: &Slots<'_>) -> u32
    requires area_fits { cells_fit area.now.n (length area.now.cells.now) ≡ true }
    requires x_in { x < area.now.n }
    requires slots_within { SlotsWithin area.now.n slots.now.first slots.now.count slots.now.at.now }
    ensures { result ≡ towards (held area.now.n area.now.cells.now) (slots_in slots.now.at.now slots.now.own.now slots.now.first slots.now.count) x }
{
    let mut best = Distance::UNREACHABLE;
    for s in 0..slots.count {
        let k = slots.first + s;
        let to_router = area.distance(x, usize::from(slots.at[k]));
        best = best.min(Distance::add(to_router, u32::from(slots.own[k])));
    }
    best
}

// The distances to router t from each of the n routers.
pub fn towards_router(area: &Area<'_>, t: usize) -> [u32; 64]
    ensures { result ≡ router_column area.now.n t area.now.cells.now }
{
    if area.fits() && t < area.n {
        column_of(area.n, |x| area.distance(x, t))
    } else {
        [0u32; 64]
    }
}

// The distances to the prefix that has these slots, from each of the n routers.
pub fn towards_prefix(area: &Area<'_>, slots: &Slots<'_>) -> [u32; 64]
    ensures { result ≡ prefix_column area.now.n slots.now.at.now slots.now.own.now slots.now.first slots.now.count area.now.cells.now }
{
    if area.fits() && slots_fit(area.n, slots) {
        column_of(area.n, |x| to_prefix(area, x, slots))
    } else {
        [0u32; 64]
    }
}

// The routers that the slots hold.
fn attached_in(slots: &Slots<'_>) -> u64
    requires { SlotsWithin 64 slots.now.first slots.now.count slots.now.at.now }
    ensures { result ≡ set_of 64 (in_slots slots.now.at.now slots.now.first slots.now.count) }
{
    let mut set: u64 = 0;
    for s in 0..slots.count {
        set |= 1u64 << slots.at[slots.first + s];
    }
    set
}

// The set of the routers attached to the prefix that has these slots.
pub fn attached_routers(slots: &Slots<'_>) -> u64
    ensures { result ≡ attached_set slots.now.at.now slots.now.first slots.now.count }
{
    if slots_fit(64, slots) {
        attached_in(slots)
    } else {
        0
    }
}
