// Parts of a file copied into a lent buffer.
ghost use Rattle.std.specs.Prelude.{◌≡◌, ◌≤◌, length};
ghost use Rattle.planner.specs.Copied.{copied_to};

// Copies a part to the start of the buffer, and tells its length.
pub(crate) fn copy_part(part: &[u8], entry: &mut [u8; 34]) -> usize
    requires { length part.now ≤ 34 }
    ensures { (result ≡ length part.now) × (entry.new ≡ copied_to entry.old part.now) }
{
    let n = part.len();
    // Byte by byte: an archive for C shall need no more of the C library than `memcpy` and `memset`, and `copy_from_slice` becomes a call of
    // `memmove` here.
    for i in 0..n {
        entry[i] = part[i];
    }
    n
}
