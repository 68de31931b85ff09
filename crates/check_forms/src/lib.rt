// Both forms of the check of a block, for the benchmark alone: the two bytes of one word at a time, as it was once added up, and the
// numbers of eight bytes of `block_check`. One promise holds for both, so that only their times can differ.
#![tactic(auto)]

ghost use Rattle.std.specs.Prelude.{◌≡◌, ◌+◌, ◌*◌, ◌≤◌, length, unwrap_or};
ghost use Rattle.lfa.specs.File.{blocks_in, block_of, check_of};
ghost use Rattle.check_forms.specs.FirstBad.{first_bad};

use block_check::check_of;
use field::{word_at, word_of};

// The check of a block, one word at a time: the sum of its first 255 words, kept as a u16 by wrapping adds.
fn word_by_word(block: &[u8]) -> u16
    requires { length block.now ≡ 512 }
    ensures { result ≡ check_of block.now }
{
    let mut sum: u16 = 0;
    for i in 0..255 {
        let at = 2 * i;
        sum = sum.wrapping_add(word_of(block[at], block[at + 1]));
    }
    sum
}

// Block i. `block` has the same for itself: a public one would require of any caller that the block is in the file.
fn block_at(file: &[u8], i: usize) -> &[u8]
    requires { 512 * i + 512 ≤ length file.now }
    ensures { (result.now ≡ block_of file.now i) × (length result.now ≡ 512) }
{
    let start = 512 * i;
    let end = start + 512;
    &file[start..end]
}

// The first block that does not end with its check, as `check` works it out.
fn first_bad<F: Fn(&[u8]) -> u16>(file: &[u8], check: F) -> Option<usize>
    requires called { (block : _) → length block.now ≡ 512 → F.pre check block }
    requires right { (block : _) → (r : _) → length block.now ≡ 512 → F.post check block r → r ≡ check_of block.now }
    ensures { unwrap_or result (blocks_in file.now) ≡ first_bad file.now }
{
    for i in 0..file.len() / 512 {
        let block = block_at(file, i);
        if check(block) != word_at(block, 510) {
            return Some(i);
        }
    }
    None
}

// The first block whose check is not the one that it ends with, or the number of whole blocks: word by word where `words`, by numbers of
// eight bytes otherwise. A flag and a number in place of a closure and an Option: check_forms_c exports this call to C.
pub fn check_forms_first_bad(file: &[u8], words: bool) -> usize
    ensures { result ≡ first_bad file.now }
{
    let bad = if words {
        first_bad(file, word_by_word)
    } else {
        first_bad(file, check_of)
    };
    bad.unwrap_or(file.len() / 512)
}
