// The protected link, seen from the end that a question names.
ghost use Rattle.std.specs.Prelude.{◌≡◌, ◌<◌};
ghost use Rattle.avoid.specs.Avoiding.{asked};
ghost use Rattle.search.specs.Hops.{protected_in};

use avoid::Protected;
use metric::columns::Links;

// The protected link, seen from its end.
#[tactic(auto, unfolding(crate::specs::Hops::protected_in, lfa::specs::Space::protected_by))]
pub(crate) fn protect(links: &Links, number: usize, end: usize) -> Protected
    requires { number < 128 }
    ensures { asked result ≡ protected_in links.now.from links.now.to links.now.out links.now.back number end }
{
    let near = usize::from(links.from[number]);
    let far = usize::from(links.to[number]);
    let out = u32::from(links.out[number]);
    let back = u32::from(links.back[number]);
    if end == 0 {
        Protected {
            number,
            near,
            far,
            out,
            back,
        }
    } else {
        Protected {
            number,
            near: far,
            far: near,
            out: back,
            back: out,
        }
    }
}
