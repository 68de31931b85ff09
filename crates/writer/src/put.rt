// Fields and entries, put into a buffer at a place.
ghost use Rattle.std.specs.Prelude.{◌≡◌, ◌∷◌, map, ◌+◌, ◌*◌, ◌≤◌, length};
ghost use Rattle.lfa.specs.Lists.{flat};
ghost use Rattle.lfa.specs.Network.{link};
ghost use Rattle.lfa.specs.FileOf.{word_bytes, link_bytes, slot_bytes};
ghost use Rattle.metric.specs.Column.{slots_in};
ghost use Rattle.writer.specs.Put.{put_at};

use metric::columns::Slots;

// Puts a 16-bit field, least byte first.
pub(crate) fn put_word(bytes: &mut [u8], at: usize, word: u16)
    requires { at + 2 ≤ length bytes.old }
    ensures { bytes.new ≡ put_at at (word_bytes word) bytes.old }
{
    let [low, high] = word.to_le_bytes();
    bytes[at] = low;
    bytes[at + 1] = high;
}

// Puts two bytes and a 16-bit field.
pub(crate) fn put_four(bytes: &mut [u8], at: usize, first: u8, second: u8, word: u16)
    requires { at + 4 ≤ length bytes.old }
    ensures { bytes.new ≡ put_at at (first ∷ second ∷ word_bytes word) bytes.old }
{
    bytes[at] = first;
    bytes[at + 1] = second;
    put_word(bytes, at + 2, word);
}

// Puts the entry of a link.
pub(crate) fn put_link(bytes: &mut [u8], at: usize, a: u8, b: u8, out: u16, back: u16)
    requires { at + 6 ≤ length bytes.old }
    ensures { bytes.new ≡ put_at at (link_bytes (link a b out back)) bytes.old }
{
    put_four(bytes, at, a, b, out);
    put_word(bytes, at + 4, back);
}

// Puts the slots of a prefix.
fn put_slots(bytes: &mut [u8], at: usize, slots: &Slots<'_>)
    requires { (at + 4 * slots.now.count ≤ length bytes.old) × (slots.now.first + slots.now.count ≤ 1024) }
    ensures { bytes.new
        ≡ put_at at (flat (map slot_bytes (slots_in slots.now.at.now slots.now.own.now slots.now.first slots.now.count))) bytes.old }
{
    for s in 0..slots.count {
        let k = slots.first + s;
        put_four(bytes, at + 4 * s, slots.at[k], 0, slots.own[k]);
    }
}

// Puts the used part of the entry of a prefix: how many are attached, a zero byte, and their slots.
pub(crate) fn put_prefix(bytes: &mut [u8], at: usize, slots: &Slots<'_>)
    requires { (at + 34 ≤ length bytes.old) × (slots.now.count ≤ 8) × (slots.now.first + 8 ≤ 1024) }
    ensures { bytes.new
        ≡ put_at at (slots.now.count ∷ 0 ∷ flat (map slot_bytes (slots_in slots.now.at.now slots.now.own.now slots.now.first slots.now.count))) bytes.old }
{
    bytes[at] = slots.count as u8;
    bytes[at + 1] = 0;
    put_slots(bytes, at + 2, slots);
}

// Puts bytes at the start.
pub(crate) fn put_bytes(buffer: &mut [u8], bytes: &[u8])
    requires { length bytes.now ≤ length buffer.old }
    ensures { buffer.new ≡ put_at 0 bytes.now buffer.old }
{
    buffer[..bytes.len()].copy_from_slice(bytes);
}
