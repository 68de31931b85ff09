// Links: their entries read into columns, and rows 6 and 7.
ghost use Rattle.std.specs.Prelude.{◌≡◌, not, ◌&&◌, ◌<◌, eqb, ltb};
ghost use Rattle.lfa.specs.Lists.{first_failing, every_below};
ghost use Rattle.lfa.specs.File.{network_of};
ghost use Rattle.block.specs.First.{found_in};
ghost use Rattle.block.specs.Judged.{Sized};
ghost use Rattle.network_file.specs.Struct.{links_struct_of};
ghost use Rattle.network_file.specs.Entry.{FewLinks, EndsBelow, ends_good, costs_good, link_sound, pair_cell, pair_new};

use super::place::next_place;
use field::{word_at, word_of};
use metric::columns::Links;

// Reads the counts of the head and the entries of the links into columns.
pub(crate) fn fill_links(file: &[u8]) -> Links
    requires { Sized file.now }
    ensures { result ≡ links_struct_of (network_of file.now) }
{
    let links = usize::from(word_at(file, 6));
    let mut from = [0u8; 128];
    let mut to = [0u8; 128];
    let mut out = [0u16; 128];
    let mut back = [0u16; 128];
    let mut place: usize = 516;
    for k in 0..links {
        from[k] = file[place];
        to[k] = file[place + 1];
        out[k] = word_of(file[place + 2], file[place + 3]);
        back[k] = word_of(file[place + 4], file[place + 5]);
        place = next_place::<6, 84>(place);
    }
    Links {
        routers: usize::from(file[4]),
        links,
        prefixes: usize::from(word_at(file, 8)),
        from,
        to,
        out,
        back,
    }
}

// Whether row 6 passes the routers of a link: two routers, below N.
fn ends_good(routers: u8, a: u8, b: u8) -> bool
    ensures { result ≡ (ltb a routers && ltb b routers && not (eqb a b)) }
{
    a < routers && b < routers && a != b
}

// Whether row 6 passes the routers of every link. All links are looked at, also after one that is wrong: without an early return the
// compiler tests many links at once.
fn all_ends_good(links: &Links) -> bool
    requires { FewLinks links.now }
    ensures { result ≡ every_below (ends_good links.now) links.now.links }
{
    let routers = links.routers as u8;
    let mut good = true;
    for k in 0..links.links {
        good &= ends_good(routers, links.from[k], links.to[k]);
    }
    good
}

// Whether row 6 passes the costs of every link: the least of them is not 0. The loop has no early return either. `table` asks the same of hops
// that are to cost something; it is no part of the file's rows, and a public function for both would stand apart from either's words.
fn all_costs_good(links: &Links) -> bool
    requires { FewLinks links.now }
    ensures { result ≡ every_below (costs_good links.now) links.now.links }
{
    let mut least = u16::MAX;
    for k in 0..links.links {
        least = least.min(links.out[k].min(links.back[k]));
    }
    least != 0
}

// Row 6 at one link: two routers, below N, and no cost 0.
#[tactic(auto, unfolding(crate::specs::Entry::link_sound, crate::specs::Entry::link_at, lfa::specs::File::sound_link))]
fn sound_link(links: &Links, k: usize) -> bool
    requires { FewLinks links.now × (k < links.now.links) }
    ensures { result ≡ link_sound links.now k }
{
    ends_good(links.routers as u8, links.from[k], links.to[k])
        && 1 <= links.out[k]
        && 1 <= links.back[k]
}

// The first link that row 6 turns down. It is asked only where a link is turned down.
fn first_bad_link(links: &Links) -> Option<usize>
    requires { FewLinks links.now }
    ensures { found_in result ≡ first_failing (link_sound links.now) 0 links.now.links }
{
    for k in 0..links.links {
        if !sound_link(links, k) {
            return Some(k);
        }
    }
    None
}

// Row 6 over the columns: the first link that it turns down. Two loops without branches tell whether there is one; only then is it
// looked for.
pub(crate) fn bad_link(links: &Links) -> Option<usize>
    requires { FewLinks links.now }
    ensures { found_in result ≡ first_failing (link_sound links.now) 0 links.now.links }
{
    if all_ends_good(links) && all_costs_good(links) {
        return None;
    }
    first_bad_link(links)
}

// The cell of two routers, in either order, in a table of 64 rows and columns.
fn pair_cell(a: u8, b: u8) -> usize
    requires { (a < 64) × (b < 64) }
    ensures { (result ≡ pair_cell a b) × (result < 4096) }
{
    64 * usize::from(a.min(b)) + usize::from(a.max(b))
}

// Row 7 over the columns: the first link that joins two routers an earlier link joins. A table of the pairs that are joined spares a
// look at each earlier link.
pub(crate) fn parallel_link(links: &Links) -> Option<usize>
    requires { FewLinks links.now × EndsBelow links.now }
    ensures { found_in result ≡ first_failing (pair_new links.now) 0 links.now.links }
{
    let mut joined = [false; 4096];
    for k in 0..links.links {
        let cell = pair_cell(links.from[k], links.to[k]);
        if joined[cell] {
            return Some(k);
        }
        joined[cell] = true;
    }
    None
}
