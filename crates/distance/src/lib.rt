// Distances between the routers of a network: the least sum of link costs over all paths. `fill` leaves them in an area, row by row.
//
// It takes any numbers. Where they are not those of a network, the area stays as it was.
#![tactic(auto)]

ghost use Rattle.std.specs.Prelude.{◌≡◌};
ghost use Rattle.distance.specs.Calls.{area_filled};

use fit::links_fit;
use metric::columns::Links;
use metric::read::Area;
use rows::fill_cells;

mod direct;
mod rows;

// Fills the first routers * routers cells with the distances, row by row, row = start.
pub fn fill(links: &Links, work: &mut [u32])
    ensures { work.new ≡ area_filled links.now.routers links.now.links links.now.from links.now.to links.now.out links.now.back work.old }
{
    let n = links.routers;
    let area = Area { n, cells: work };
    if !area.fits() {
        return;
    }
    if !links_fit(n, links) {
        return;
    }
    fill_cells(links, &mut work[0..n * n]);
}
