// Bytes and cells that are lent to a call, what they hold afterwards, and the check sum of answers.
ghost use Rattle.std.specs.Prelude.{◌≡◌, ◌+◌, ◌*◌, ◌%◌, ◌^◌, ◌≤◌, min, slice_index, EachIndex};
ghost use Rattle.std.specs.List.{list_all};

// The ranks by which the classes come in ascending order.
pub const ASCENDING: [u8; 8] = [0, 1, 2, 3, 4, 5, 6, 7];

// How many cells the distances of so many routers take. More than 64 routers there are never.
pub fn cells_of(routers: usize) -> usize
    ensures bound { result ≤ 4096 }
    ensures value { result ≡ min routers 64 * min routers 64 }
{
    let side = routers.min(64);
    side * side
}

// Fills bytes with a row of numbers modulo 256: the first, and each next one greater by the step.
pub fn rising(bytes: &mut [u8], first: u8, step: u8)
    ensures { EachIndex bytes.new (λ k. slice_index bytes.new k ≡ (first + k * step) % 256) }
{
    let mut next = first;
    for byte in bytes.iter_mut() {
        *byte = next;
        next = next.wrapping_add(step);
    }
}

// Whether each item is the value.
pub fn all_hold<T: PartialEq>(items: &[T], value: &T) -> bool
    ensures { result ≡ list_all (λ item. T.eq item value.now) items.now }
{
    items.iter().all(|item| item == value)
}

// The check sum of a row of answers: 33 times the sum before, and the next answer's code.
pub fn mixed(sum: u64, code: u64) -> u64
    ensures { result ≡ (33 * sum + code) % 2 ^ 64 }
{
    sum.wrapping_mul(33).wrapping_add(code)
}
