// The options of a walk at a router, and the one that a choice byte takes.
//
// `move_at` takes any numbers. At a number that is not below 64 it delivers.
#![tactic(auto)]

ghost use Rattle.std.specs.Prelude.{◌≡◌, ◌<◌, get_or};
ghost use Rattle.lfa.specs.Route.{moves_of, option_taken};
ghost use Rattle.options.specs.Options.{move_in, delivers_by, members_of, move_by};

use metric::Distance;

// What an option does: it delivers the packet, or takes it to the next router. A route's
// rules name both (SPECIFICATION, section 7), and `Deliver` is plainer than None.
#[derive(Clone, Copy)]
pub enum Move {
    Deliver,
    Go(usize),
}

// Whether x delivers: it is in the set of the routers attached to the target, and reaches it.
fn delivers(ends: u64, target: &[u32; 64], x: usize) -> bool
    requires { x < 64 }
    ensures { result ≡ delivers_by ends (get_or target.now x 0) x }
{
    target[x] < Distance::UNREACHABLE && (ends >> x) & 1 == 1
}

// The member of a set with k members before it. It is 0 where the set has none such, and no Option: the callers take k below the number of
// members, so that they would only unwrap it.
fn member(set: u64, k: usize) -> usize
    ensures { result ≡ get_or (members_of set) k 0 }
{
    let mut left = k;
    for r in 0..64 {
        if (set >> r) & 1 == 1 {
            if left == 0 {
                return r;
            }
            left -= 1;
        }
    }
    0
}

// The option that a choice byte takes: delivery stands first, then the next routers ascending.
fn option_taken(deliver: bool, next: u64, byte: u8) -> Move
    ensures { move_in result ≡ option_taken (moves_of deliver (members_of next)) byte }
{
    let steps = next.count_ones() as usize;
    if !deliver {
        if steps == 0 {
            return Move::Deliver;
        }
        return Move::Go(member(next, usize::from(byte) % steps));
    }
    let number = usize::from(byte) % (steps + 1);
    if number == 0 {
        return Move::Deliver;
    }
    Move::Go(member(next, number - 1))
}

// The option that a choice byte takes at router x, whose next routers are the set `next`; the routers attached to the target are the set
// `ends`.
pub fn move_at(next: u64, ends: u64, target: &[u32; 64], x: usize, byte: u8) -> Move
    ensures { move_in result ≡ move_by next ends target.now x byte }
{
    if 64 <= x {
        return Move::Deliver;
    }
    let deliver = delivers(ends, target, x);
    option_taken(deliver, next, byte)
}
