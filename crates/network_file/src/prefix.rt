// Prefixes: rows 8 and 9, and their entries read into columns.
ghost use Rattle.std.specs.Prelude.{◌≡◌, Bool, true, ℕ, ◌+◌, ◌*◌, ◌/◌, ◌%◌, ◌≤◌, ◌<◌, ltb, length};
ghost use Rattle.std.proofs.Math.Option.{none};
ghost use Rattle.lfa.specs.Lists.{first_failing, every_below};
ghost use Rattle.lfa.specs.File.{routers_of, links_of, network_of, word_at, prefix_entry, attachments, slot, sound_prefix, prefix_good, slot_new, routers_new};
ghost use Rattle.lfa.specs.Refusal.{file_returned, first_row};
ghost use Rattle.block.specs.First.{found_in};
ghost use Rattle.network_file.specs.Struct.{router_of, cost_of, stored, struct_of};
ghost use Rattle.network_file.specs.Entry.{LinksOf, FewLinks, EntryAt, place_in, PrefixesSound, unused_zero, unused_masks, Slots, prefix_rows};

use super::mask::UNUSED;
use super::network::Network;
use super::place::next_place;
use metric::columns::Links;

// Where the entry of prefix 0 stands. The blocks of links, 84 to a block, stand before those of prefixes.
fn first_place(links: usize) -> usize
    requires { links ≤ 128 }
    ensures { result ≡ place_in links 0 }
{
    512 * (1 + links.div_ceil(84)) + 4
}

// The 34 bytes of the prefix whose entry stands at a place.
fn entry_at(file: &[u8], place: usize) -> &[u8]
    requires { place + 34 ≤ length file.now }
    ensures { ((p : ℕ) → place ≡ place_in (links_of file.now) p → result.now ≡ prefix_entry file.now p) × (length result.now ≡ 34) }
{
    let end = place + 34;
    &file[place..end]
}

// The four bytes of slot s as one number: router and zero byte in its low half, the cost in its high half. Eight such numbers are
// read with fewer instructions than their 32 bytes.
fn slot_word(entry: &[u8], s: usize) -> u32
    requires { (length entry.now ≡ 34) × (s < 8) }
    ensures { (result % 65536 ≡ word_at entry.now (2 + 4 * s)) × (result / 65536 ≡ word_at entry.now (4 + 4 * s)) }
{
    let k = 2 + 4 * s;
    u32::from_le_bytes([entry[k], entry[k + 1], entry[k + 2], entry[k + 3]])
}

// Whether in each of the eight slots the router, with its zero byte as one number, lifted by so much that the sum reaches 65,536 where
// the number is too large, is below that. An or is below 65,536 exactly where each of its numbers is. The loop has no branch, so that
// the compiler tests several slots at once.
fn routers_below(lift: u32, entry: &[u8]) -> bool
    requires { (length entry.now ≡ 34) × (lift ≤ 65536) }
    ensures { result ≡ every_below (λ s. ltb (word_at entry.now (2 + 4 * s) + lift) 65536) 8 }
{
    let mut all: u32 = 0;
    for s in 0..8 {
        all |= slot_word(entry, s) % 65536 + lift;
    }
    all < 65536
}

// Whether each slot that is not used is zero. The masks stand in a table of the caller: a constant table is put on the stack anew
// wherever it is read.
fn unused_zero(count: usize, entry: &[u8], masks: &[u32; 72]) -> bool
    requires { (length entry.now ≡ 34) × (count ≤ 8) × (masks.now ≡ unused_masks) }
    ensures { result ≡ every_below (unused_zero entry.now count) 8 }
{
    let mut all: u32 = 0;
    for s in 0..8 {
        all |= slot_word(entry, s) & masks[8 * count + s];
    }
    all == 0
}

// Row 8 at one prefix. The count is tested before a slot is looked at. All eight routers are tested alike: a slot that is not used
// is zero, and 0 is a router.
fn sound_prefix(routers: usize, entry: &[u8], masks: &[u32; 72]) -> bool
    requires { (length entry.now ≡ 34) × (1 ≤ routers) × (routers ≤ 64) × (masks.now ≡ unused_masks) }
    ensures { result ≡ sound_prefix routers entry.now }
{
    let count = usize::from(entry[0]);
    1 <= count
        && count <= 8
        && entry[1] == 0
        && routers_below(65536 - routers as u32, entry)
        && unused_zero(count, entry, masks)
}

// The first prefix whose entry fails a test, which is given the place of the entry.
fn first_failing<F: Fn(usize) -> bool>(links: &Links, good: F) -> Option<usize>
    requires { FewLinks links.now × (links.now.prefixes ≤ 128) × ((p : ℕ) → p < links.now.prefixes → F.pre good (place_in links.now.links p)) }
    ensures { (test : ℕ → Bool) → ((p : ℕ) (r : Bool) → p < links.now.prefixes → F.post good (place_in links.now.links p) r → test p ≡ r) → found_in result ≡ first_failing test 0 links.now.prefixes }
{
    let mut place = first_place(links.links);
    for p in 0..links.prefixes {
        if !good(place) {
            return Some(p);
        }
        place = next_place::<34, 14>(place);
    }
    None
}

// Row 8: the first prefix that it turns down.
pub(crate) fn first_bad_prefix(file: &[u8], links: &Links) -> Option<usize>
    requires { LinksOf file.now links.now }
    ensures { found_in result ≡ first_failing (prefix_good file.now) 0 links.now.prefixes }
{
    let masks = UNUSED;
    let routers = links.routers;
    first_failing(
        links,
        |place|
            requires { (p : ℕ) × EntryAt file.now place p × (routers ≡ routers_of file.now) × (masks ≡ unused_masks) }
            ensures { (p : ℕ) → EntryAt file.entry.now place p → prefix_good file.entry.now p ≡ result }
        { sound_prefix(routers, entry_at(file, place), &masks) },
    )
}

// Row 9 at one prefix: whether no router is named twice. A table of the routers named so far spares a look at each earlier slot.
fn new_routers(entry: &[u8]) -> bool
    requires { Slots entry.now }
    ensures { result ≡ every_below (slot_new entry.now) (attachments entry.now) }
{
    let count = usize::from(entry[0]);
    let mut named = [false; 64];
    for s in 0..count {
        let router = usize::from(entry[2 + 4 * s]);
        if named[router] {
            return false;
        }
        named[router] = true;
    }
    true
}

// Row 9: the first prefix that names a router twice.
pub(crate) fn first_router_twice(file: &[u8], links: &Links) -> Option<usize>
    requires { LinksOf file.now links.now × PrefixesSound file.now links.now.prefixes }
    ensures { found_in result ≡ first_failing (routers_new file.now) 0 links.now.prefixes }
{
    first_failing(
        links,
        |place|
            requires { (p : ℕ) × EntryAt file.now place p × (prefix_good file.now p ≡ true) }
            ensures { (p : ℕ) → EntryAt file.entry.now place p → routers_new file.entry.now p ≡ result }
        { new_routers(entry_at(file, place)) },
    )
}

// Stores the routers and the costs of an entry's eight slots, used or not, into the cells of prefix p.
fn store_slots(entry: &[u8], p: usize, at: &mut [u8; 1024], own: &mut [u16; 1024])
    requires { (length entry.now ≡ 34) × (p < 128) }
    ensures routers { at.new ≡ stored (8 * p) 8 (λ s. router_of (slot entry.now s)) at.old }
    ensures costs { own.new ≡ stored (8 * p) 8 (λ s. cost_of (slot entry.now s)) own.old }
{
    for s in 0..8 {
        at[8 * p + s] = entry[2 + 4 * s];
        own[8 * p + s] = (slot_word(entry, s) / 65536) as u16;
    }
}

// The network of a file that rows 1 to 9 pass, of which the links are held. Row 8 has passed, so the slots that are not used are zero.
// An attachment is stored only here, after its count has been tested.
pub(crate) fn network_of(file: &[u8], links: &Links) -> Network
    requires { LinksOf file.now links.now × (first_row (file_returned file.now) prefix_rows ≡ none) }
    ensures { result ≡ struct_of (network_of file.now) }
{
    let mut attached = [0u8; 128];
    let mut at = [0u8; 1024];
    let mut own = [0u16; 1024];
    let mut place = first_place(links.links);
    for p in 0..links.prefixes {
        let entry = entry_at(file, place);
        attached[p] = entry[0];
        store_slots(entry, p, &mut at, &mut own);
        place = next_place::<34, 14>(place);
    }
    Network {
        links: *links,
        attached,
        at,
        own,
    }
}
