// The distances between routers, as they are read from an area.
ghost use Rattle.std.specs.Prelude.{◌≡◌, length};
ghost use Rattle.metric.specs.Fit.{cells_fit};
ghost use Rattle.metric.specs.Area.{cell_in};

use crate::Distance;

// The distances between n routers, row by row, row = start, in an area that is only read.
#[derive(Clone, Copy)]
pub struct Area<'a> {
    pub n: usize,
    pub cells: &'a [u32],
}

impl Area<'_> {
    // Whether there are at most 64 routers, and a cell for each two of them.
    #[tactic(auto, unfolding(crate::specs::Fit::cells_fit))]
    pub fn fits(&self) -> bool
        ensures { result ≡ cells_fit self.now.n (length self.now.cells.now) }
    {
        self.n <= 64 && self.n * self.n <= self.cells.len()
    }

    // D(x,t), and unreachable where the area has no such cell. In a loop over x or t below n the tests are the same each time, so that the
    // compiler takes them out of the loop.
    #[tactic(auto, using(crate::proofs::ReadLaws::cell_none, crate::proofs::ReadLaws::cell_found, crate::proofs::ReadLaws::cell_place))]
    pub fn distance(&self, x: usize, t: usize) -> u32
        ensures { result ≡ cell_in self.now.n self.now.cells.now x t }
    {
        if self.fits() && x < self.n && t < self.n {
            self.cells[x * self.n + t]
        } else {
            Distance::UNREACHABLE
        }
    }
}
