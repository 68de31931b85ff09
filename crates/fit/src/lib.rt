// Whether columns that are handed in hold the links and the slots of a network.
#![tactic(auto)]

ghost use Rattle.std.specs.Prelude.{◌≡◌};
ghost use Rattle.metric.specs.Fit.{links_fit, slots_fit};

use metric::columns::{Links, Slots};

// Whether there are at most 128 links, and each joins routers below n: where there is a link, the largest number in both columns is such a
// router's. The loop has no branch, so that it goes over many links at once.
pub fn links_fit(n: usize, links: &Links) -> bool
    ensures { result ≡ links_fit n links.now.links links.now.from links.now.to }
{
    if 128 < links.links {
        return false;
    }
    if links.links == 0 {
        return true;
    }
    let mut top: u8 = 0;
    for k in 0..links.links {
        top = top.max(links.from[k].max(links.to[k]));
    }
    usize::from(top) < n
}

// Whether the slots in use are among the 1024, and hold routers below n.
pub fn slots_fit(n: usize, slots: &Slots<'_>) -> bool
    ensures { result ≡ slots_fit n slots.now.first slots.now.count slots.now.at.now }
{
    if 1024 < slots.first {
        return false;
    }
    if 1024 - slots.first < slots.count {
        return false;
    }
    for s in 0..slots.count {
        if n <= usize::from(slots.at[slots.first + s]) {
            return false;
        }
    }
    true
}
