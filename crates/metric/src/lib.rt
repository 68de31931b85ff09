// What the distances of a network are made of: the sums of costs, and the numbers as they are read from columns and areas.
#![tactic(auto)]

ghost use Rattle.std.specs.Prelude.{◌≡◌, ◌+◌, min};
ghost use Rattle.lfa.specs.Distance.{unreachable};

pub mod columns;
pub mod read;

// A distance between routers, as a 32-bit number.
#[derive(Clone, Copy)]
pub struct Distance(pub u32);

impl Distance {
    // The distance where no path leads.
    pub const UNREACHABLE: u32 = u32::MAX;

    // The sum of two distances, and unreachable where it would be larger.
    pub fn add(a: u32, b: u32) -> u32
        ensures { result ≡ min (a + b) unreachable }
    {
        a.saturating_add(b)
    }

    // The sum of three distances, and unreachable where it would be larger.
    pub fn add3(a: u32, b: u32, c: u32) -> u32
        ensures { result ≡ min (a + b + c) unreachable }
    {
        Self::add(Self::add(a, b), c)
    }
}
