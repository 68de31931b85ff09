// What the calls answer with several wrong things at once. Each step mends one thing more: at step 0 the work area, the table, the route
// buffer, the ranks and the link are wrong, at step 5 only the prefix.
ghost use Rattle.std.specs.Prelude.{◌≤◌};

use super::asking::{choices, print_lent, print_repair};
use super::made::{length_of, make};
use super::tables::Case;
use repair::{link_repair_with, prefix_repair_with};
use route::route;
use told::{ASCENDING, End, Kept, all_hold, cells_of, print};
use told_answers::print_route;

// What is asked at a step, about end 0 of a link and a prefix that is too large.
#[derive(Drop)]
struct Step<'a> {
    number: usize,
    file: &'a [u8],
    ranks: &'a [u8],
    link: usize,
    prefix: usize,
}

// The table of a step: 2, 3, and from step 2 on the right one.
fn table_at(step: usize) -> usize {
    if step < 2 { 2 + step } else { 0 }
}

// How many bytes the route buffer has at a step: one too few for n routers, and from step 3 on enough.
fn bytes_at(step: usize, n: usize) -> usize
    ensures { result ≤ 128 }
{
    if step < 3 {
        return (2 * n.min(64)).saturating_sub(1);
    }
    128
}

// How many of the ranks 0 to 7 are lent at a step: the four of before, and from step 4 on all.
fn ranks_at(step: usize) -> usize
    ensures { result ≤ 8 }
{
    if step < 4 { 4 } else { 8 }
}

// The link that is asked about at a step: one too large, and from step 5 on link 0.
fn link_at(step: usize, links: usize) -> usize {
    if step < 5 { links } else { 0 }
}

// How many cells the work area has at a step: one too few, and from step 1 on enough.
fn work_at(step: usize, n: usize) -> usize
    ensures { result ≤ 4096 }
{
    let count = cells_of(n);
    if step < 1 {
        return count.saturating_sub(1);
    }
    count
}

// Prints the lines of the three second calls at a step.
fn print_rows(step: &Step<'_>, table: &[u32], buffer: &mut [u8]) {
    let Step {
        number,
        file,
        ranks,
        link,
        prefix,
    } = *step;
    print(format_args!("link-rows {number}"));
    print_repair(link_repair_with(file, table, ranks, link, 0));
    print(format_args!("prefix-rows {number}"));
    print_repair(prefix_repair_with(file, table, ranks, link, 0, prefix));
    print(format_args!("route-rows {number}"));
    print_lent(file, table, ranks, End { link, side: 0 }, prefix, buffer);
}

// Prints the lines of the second calls at a step, with the table of the step.
fn print_second(step: &Step<'_>, case: &Case<'_>) {
    let which = table_at(step.number);
    let mut cells = [0u32; 4100];
    let table = &mut cells[..length_of(which, case.routers)];
    let distances = case.cells;
    make(which, distances, table, case.routers);
    let mut buffer = [255u8; 128];
    let bytes = bytes_at(step.number, case.routers);
    print_rows(step, table, &mut buffer[..bytes]);
}

// Prints the line of the route by the single call at a step, with a work area of 7s, and whether this is kept.
fn print_first(step: &Step<'_>, case: &Case<'_>) {
    let Step {
        number,
        file,
        ranks,
        link,
        prefix,
    } = *step;
    print(format_args!("single-rows {number}"));
    let mut cells = [7u32; 4096];
    let work = &mut cells[..work_at(number, case.routers)];
    let mut bytes = [255u8; 128];
    let buffer = &mut bytes[..bytes_at(number, case.routers)];
    let answer = route(file, work, ranks, link, 0, prefix, &choices(), buffer);
    print_route(answer, buffer);
    let kept = Kept(all_hold(work, &7));
    print(format_args!(" {kept}\n"));
}

// Prints the lines of a step.
fn print_step(case: &Case<'_>, number: usize) {
    let step = Step {
        number,
        file: case.file,
        ranks: &ASCENDING[..ranks_at(number)],
        link: link_at(number, case.links),
        prefix: case.prefixes,
    };
    print_second(&step, case);
    print_first(&step, case);
}

// Prints the lines of the steps, of which a refused file has only the first.
pub(crate) fn print_steps(case: &Case<'_>) {
    let steps = if 0 < case.routers { 6 } else { 1 };
    for number in 0..steps {
        print_step(case, number);
    }
}
