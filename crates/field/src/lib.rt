// The fields of a network file: 16-bit numbers, and bytes that are to be zero. Each function takes any bytes, and a byte past the
// end counts as 0.
#![tactic(auto)]

ghost use Rattle.std.specs.Prelude.{◌≡◌, ◌+◌, ◌*◌};
ghost use Rattle.lfa.specs.File.{word_at, all_zero};

// A 16-bit field from its two bytes, least byte first.
pub fn word_of(low: u8, high: u8) -> u16
    ensures { result ≡ low + 256 * high }
{
    u16::from_le_bytes([low, high])
}

// The 16-bit field at an offset.
pub fn word_at(s: &[u8], at: usize) -> u16
    ensures { result ≡ word_at s.now at }
{
    let n = s.len();
    if n <= at {
        return 0;
    }
    let next = at + 1;
    if n <= next {
        return word_of(s[at], 0);
    }
    word_of(s[at], s[next])
}

// Whether every byte is zero. All bytes are looked at, also after one that is not zero: without an early return the compiler
// tests many bytes at once.
pub fn all_zero(s: &[u8]) -> bool
    ensures { result ≡ all_zero s.now }
{
    let mut zero = true;
    for byte in s {
        if *byte != 0 {
            zero = false;
        }
    }
    zero
}
