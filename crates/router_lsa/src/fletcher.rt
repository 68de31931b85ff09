// The LSA checksum.
ghost use Rattle.std.specs.Prelude.{◌≡◌, length, drop, ◌≤◌};
ghost use Rattle.ospf.specs.Lsa.{fletcher, both_zero};

// Whether the Fletcher sums over an LSA without its age are both 0.
pub(crate) fn sums_zero(l: &[u8]) -> bool
    requires { 2 ≤ length l.now }
    ensures { result ≡ both_zero (fletcher 0 0 (drop 2 l.now)) }
{
    let mut c0: u32 = 0;
    let mut c1: u32 = 0;
    let summed = &l[2..];
    for x in summed {
        c0 = (c0 + u32::from(*x)) % 255;
        c1 = (c1 + c0) % 255;
    }
    c0 == 0 && c1 == 0
}
