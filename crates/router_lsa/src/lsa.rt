// One LSA.
ghost use Rattle.std.specs.Prelude.{◌≡◌, ◌≤◌, length};
ghost use Rattle.ospf.specs.Lsa.{length_field, sound_lsa};

use super::entry::{entries_good, entries_new};
use super::field::{be16_at, be32_at};
use super::fletcher::sums_zero;

// Whether an LSA, as many bytes as its length field says, is sound.
pub(crate) fn sound_lsa(l: &[u8]) -> bool
    requires { (24 ≤ length l.now) × (length_field l.now ≡ length l.now) }
    ensures { result ≡ sound_lsa l.now }
{
    let links = usize::from(be16_at(l, 22));
    if l.len() != 24 + 12 * links {
        return false;
    }
    if l[3] != 1 {
        return false;
    }
    if be16_at(l, 16) == 0 {
        return false;
    }
    if !sums_zero(l) {
        return false;
    }
    if !entries_good(l, be32_at(l, 4), links) {
        return false;
    }
    entries_new(l, links)
}
