// The bytes of one named entry, as a part of the caller's file.
#![tactic(auto)]

ghost use Rattle.std.specs.Prelude.{◌≡◌, ◌+◌, ◌≤◌, length};
ghost use Rattle.lfa.specs.File.{part_of};
ghost use Rattle.lfa.specs.Answer.{link_part, prefix_part};
ghost use Rattle.entries.specs.Count.{count_loaded};

use field::word_at;
use network_file::judge;

// How many links or prefixes a file has, by the offset of their number in the head; 0 for a refused file, and no Option: it is the number of
// what may be asked for (`count_loaded`).
fn count_at(file: &[u8], at: usize) -> usize
    ensures { result ≡ count_loaded file.now at }
{
    match judge(file) {
        Ok(()) => usize::from(word_at(file, at)),
        Err(_) => 0,
    }
}

// The bytes of a file from a place on.
fn part_at(file: &[u8], start: usize, size: usize) -> &[u8]
    requires { start + size ≤ length file.now }
    ensures { result.now ≡ part_of file.now start size }
{
    let end = start + size;
    &file[start..end]
}

// The 6 bytes of a link's entry; none for a refused file or a link number too large (a part of no bytes and no Option: `link_part`, and the C
// interface). A block holds 84 of them.
pub fn link_entry(file: &[u8], link: usize) -> &[u8]
    ensures { result.now ≡ link_part file.now link }
{
    let links = count_at(file, 6);
    if links <= link {
        return &file[0..0];
    }
    part_at(file, 512 * (1 + link / 84) + 4 + 6 * (link % 84), 6)
}

// The 34 bytes of a prefix's entry, whose place another sum gives than a link's; none for a refused file or a prefix number too large. A
// block holds 14 of them, and the blocks of links stand before those of prefixes.
pub fn prefix_entry(file: &[u8], prefix: usize) -> &[u8]
    ensures { result.now ≡ prefix_part file.now prefix }
{
    let prefixes = count_at(file, 8);
    if prefixes <= prefix {
        return &file[0..0];
    }
    let blocks = usize::from(word_at(file, 6)).div_ceil(84);
    part_at(
        file,
        512 * (1 + blocks + prefix / 14) + 4 + 34 * (prefix % 14),
        34,
    )
}
