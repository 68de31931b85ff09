// The questions of the second calls with a table that is lent, and the lines of their answers.
use answers::Repair;
use question::Refusal;
use refusal::Row;
use repair::{link_repair_with, prefix_repair_with};
use route::route_with;
use told::{ASCENDING, Asked, End, mixed, print, rising};
use told_answers::{Repaired, code, print_answer, print_route};

// The bytes of choices that are lent: 0, 1, 2 and so on.
pub(crate) fn choices() -> [u8; 128] {
    let mut choices = [0u8; 128];
    rising(&mut choices, 0, 1);
    choices
}

// Prints the rest of a line: a repair, or what is answered in its place.
pub(crate) fn print_repair(answer: Result<Repair, Refusal>) {
    print_answer(answer.map(Repaired));
    print("\n");
}

// Prints the rest of a line: the route, with a buffer of 255s.
pub(crate) fn print_lent(
    file: &[u8],
    table: &[u32],
    ranks: &[u8],
    end: End,
    prefix: usize,
    buffer: &mut [u8],
) {
    let choices = choices();
    let answer = route_with(
        file, table, ranks, end.link, end.side, prefix, &choices, buffer,
    );
    print_route(answer, buffer);
    print("\n");
}

// Prints the line of a link repair, with ranks by which the classes come in the order 7, 6, 0, 4, 2, 5, 1, 3.
pub(crate) fn print_link(file: &[u8], table: &[u32], end: End) {
    print(format_args!("link-repair {end}"));
    let ranks = [2u8, 6, 4, 7, 3, 5, 1, 0];
    print_repair(link_repair_with(file, table, &ranks, end.link, end.side));
}

// Prints the lines of a prefix repair, with ranks by which the classes come in the order 1, 7, 3, 4, 2, 5, 0, 6, and of a route, with the
// ranks of the link repairs.
fn print_prefix(file: &[u8], table: &[u32], end: End, prefix: usize) {
    print(format_args!("prefix-repair {end} {prefix}"));
    let ranks = [6u8, 0, 4, 2, 3, 5, 7, 1];
    print_repair(prefix_repair_with(file, table, &ranks, end.link, end.side, prefix));
    print(format_args!("route {end} {prefix}"));
    let ranks = [2u8, 6, 4, 7, 3, 5, 1, 0];
    print_lent(file, table, &ranks, end, prefix, &mut [255; 128]);
}

// Prints the prefix repairs and routes of one link and end, for the prefixes that are asked about.
pub(crate) fn print_end(file: &[u8], table: &[u32], end: End, prefixes: usize, asked: Asked) {
    for prefix in 0..prefixes {
        if asked.has_prefix(prefix) {
            print_prefix(file, table, end, prefix);
        }
    }
}

// A refusal as one number. Its value goes into a `u64` by `as`, since no `From` does that.
fn refusal_code(row: Row) -> u64 {
    4 | u64::from(row.number) << 8 | (row.value as u64) << 16
}

// The check sum with the link repair of one link and end, and the prefix repairs that are asked about.
pub(crate) fn sum_end(
    file: &[u8],
    table: &[u32],
    end: End,
    prefixes: usize,
    asked: Asked,
    before: u64,
) -> u64 {
    let first = link_repair_with(file, table, &ASCENDING, end.link, end.side);
    let mut sum = mixed(before, code(first, refusal_code));
    for prefix in 0..prefixes {
        if asked.has_prefix(prefix) {
            let next = prefix_repair_with(file, table, &ASCENDING, end.link, end.side, prefix);
            sum = mixed(sum, code(next, refusal_code));
        }
    }
    sum
}
