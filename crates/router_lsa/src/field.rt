// Fields, most significant byte first. Each function takes any bytes, and a byte past the end counts as 0.
ghost use Rattle.std.specs.Prelude.{◌≡◌, ◌+◌, ◌*◌};
ghost use Rattle.ospf.specs.Lsa.{be16, be32};

// A 32-bit field from its two halves. By a sum: they are read apart, since either may be past the end.
fn word(high: u16, low: u16) -> u32
    ensures { result ≡ 65536 * high + low }
{
    65536 * u32::from(high) + u32::from(low)
}

// The 16-bit field at an offset.
pub fn be16_at(s: &[u8], at: usize) -> u16
    ensures { result ≡ be16 s.now at }
{
    let n = s.len();
    if n <= at {
        return 0;
    }
    let next = at + 1;
    if n <= next {
        return u16::from_be_bytes([s[at], 0]);
    }
    u16::from_be_bytes([s[at], s[next]])
}

// The 32-bit field at an offset.
pub fn be32_at(s: &[u8], at: usize) -> u32
    ensures { result ≡ be32 s.now at }
{
    let n = s.len();
    if n <= at {
        return 0;
    }
    let high = be16_at(s, at);
    if n - at <= 2 {
        return word(high, 0);
    }
    word(high, be16_at(s, at + 2))
}
