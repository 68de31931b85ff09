// The check that every block ends with, added up from numbers of eight bytes.
#![tactic(auto)]

ghost use Rattle.std.specs.Prelude.{◌≡◌, ◌+◌, ◌*◌, ◌/◌, ◌%◌, ◌≤◌, length, drop};
ghost use Rattle.lfa.specs.File.{word_at, sum_words, check_of};
ghost use Rattle.block_check.specs.Lanes.{lanes_of, odd_lanes};
ghost use Rattle.block_check.specs.Whole.{check_of_whole};

use field::{word_at, word_of};

// A number of four bytes from its two words, the lower one first. By a sum, as the next: std puts numbers together from bytes, and the lanes are
// of words.
fn half_of(low: u16, high: u16) -> u32
    ensures { result ≡ low + 65536 * high }
{
    u32::from(low) + 65536 * u32::from(high)
}

// A number of eight bytes from its two halves, the lower one first.
fn long_of(low: u32, high: u32) -> u64
    ensures { result ≡ low + 4294967296 * high }
{
    u64::from(low) + 4294967296 * u64::from(high)
}

// Four bytes as one number, least byte first. A function of its own: the compiler then reads the four bytes at once.
fn half_at(s: &[u8], at: usize) -> u32
    requires { at + 4 ≤ length s.now }
    ensures { (result % 65536 ≡ word_at s.now at) × (result / 65536 ≡ word_at s.now (at + 2)) }
{
    let next = at + 2;
    half_of(word_of(s[at], s[at + 1]), word_of(s[next], s[next + 1]))
}

// Eight bytes as one number, least byte first: its four lanes of 16 bits are four words of the check.
fn long_at(s: &[u8], at: usize) -> u64
    requires { at + 8 ≤ length s.now }
    ensures { lanes_of result ≡ sum_words 4 (drop at s.now) }
{
    long_of(half_at(s, at), half_at(s, at + 4))
}

// The second and the fourth lane of a number of eight bytes, in their places.
fn odd_lanes(w: u64) -> u64
    ensures { result ≡ odd_lanes w }
{
    65536 * (w / 65536 % 65536) + 281474976710656 * (w / 65536 / 65536 / 65536)
}

// The sum of three numbers, modulo 2^64.
fn add_three(x: u64, y: u64, z: u64) -> u64
    ensures { result ≡ (x + y + z) % 18446744073709551616 }
{
    x.wrapping_add(y).wrapping_add(z)
}

// The sum of the two halves of a number of eight bytes, modulo 65,536.
fn halves_of(w: u64) -> u16
    ensures { result ≡ (w % 4294967296 + w / 4294967296) % 65536 }
{
    ((w % 4294967296 + w / 4294967296) % 65536) as u16
}

// The sum of the lanes of three numbers, modulo 65,536. The odd lanes are added with the even ones' places free to carry into; what the
// fourth lanes carry is lost, a multiple of 65,536 there. Taken from the sum of the whole numbers they leave the sums of the even lanes,
// with the odd ones' places free. So no lane is moved before all three are added, which takes fewer instructions than a shift for each.
fn lanes_of(x: u64, y: u64, z: u64) -> u16
    ensures { result ≡ (lanes_of x + lanes_of y + lanes_of z) % 65536 }
{
    let odd = add_three(odd_lanes(x), odd_lanes(y), odd_lanes(z));
    let even = add_three(x, y, z).wrapping_sub(odd);
    halves_of(even + odd / 65536)
}

// The first 504 bytes are three parts of 21 numbers of eight bytes: the sum of the lanes of one number of each part, modulo 65,536.
fn parts_at(block: &[u8], at: usize) -> u16
    requires { at + 344 ≤ length block.now }
    ensures { result ≡ (sum_words 4 (drop at block.now) + sum_words 4 (drop (at + 168) block.now) + sum_words 4 (drop (at + 336) block.now)) % 65536 }
{
    lanes_of(
        long_at(block, at),
        long_at(block, at + 168),
        long_at(block, at + 336),
    )
}

// The sum of the three words left over after the 63 numbers of eight bytes, modulo 65,536.
fn rest_of(block: &[u8]) -> u16
    ensures { result ≡ sum_words 3 (drop 504 block.now) % 65536 }
{
    word_at(block, 504)
        .wrapping_add(word_at(block, 506))
        .wrapping_add(word_at(block, 508))
}

// The check of a block: the sum of its first 255 words, kept as a u16 by wrapping adds. Each step takes three numbers of eight bytes, one
// of each part and not three in a row: the next step's then lie beside them, so that a compiler with vectors takes several steps at once.
fn whole_check(block: &[u8]) -> u16
    requires { length block.now ≡ 512 }
    ensures { result ≡ check_of block.now }
{
    let mut sum = rest_of(block);
    for i in 0..21 {
        sum = sum.wrapping_add(parts_at(block, 8 * i));
    }
    sum
}

// The check of a block of 512 bytes; 0 for any other bytes.
// A number and no Option: the clause of this public function promises 0 there.
pub fn check_of(block: &[u8]) -> u16
    ensures { result ≡ check_of_whole block.now }
{
    if block.len() != 512 {
        return 0;
    }
    whole_check(block)
}
