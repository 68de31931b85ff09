// Whether each hop costs something. Of two hops that cost nothing and lead back and forth, each would be tight for any number in the cells
// of both routers.
ghost use Rattle.std.specs.Prelude.{◌≡◌, ◌≤◌};
ghost use Rattle.table.specs.Calls.{costs_fit};

use metric::columns::Links;

// Whether both costs of each link are 1 or more: the least cost in both columns is. The loop has no branch, so that it goes over many links
// at once.
pub(crate) fn costs_fit(links: &Links) -> bool
    requires { links.now.links ≤ 128 }
    ensures { result ≡ costs_fit links.now.links links.now.out links.now.back }
{
    let mut least = u16::MAX;
    for k in 0..links.links {
        least = least.min(links.out[k].min(links.back[k]));
    }
    0 < least
}
