// From the place of one entry to that of the next.
ghost use Rattle.std.specs.Prelude.{◌≡◌, ◌*◌, ◌≤◌};
ghost use Rattle.network_file.specs.Entry.{next_place};

// Where the entry after this one stands, of entries of SIZE bytes of which PER fill a block: behind it, or after PER of them behind the
// label of the next block. A loop that keeps the place needs no division.
pub(crate) fn next_place<const SIZE: usize, const PER: usize>(place: usize) -> usize
    requires { (place ≤ 6656) × (SIZE ≤ 508) × (SIZE * PER ≤ 508) }
    ensures { result ≡ next_place SIZE PER place }
{
    let next = place + SIZE;
    if next % 512 == 4 + SIZE * PER {
        return next + (512 - SIZE * PER);
    }
    next
}
