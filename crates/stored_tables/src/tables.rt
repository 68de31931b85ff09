// What the second calls answer for a file. The route buffer holds 255 in every byte before a call.
use super::asking::{print_end, print_lent, print_link, sum_end};
use super::made::{length_of, make};
use super::mending::print_steps;
use network_file::load;
use network_file::network::Network;
use told::{ASCENDING, Asked, End, cells_of, print};

// A file, its numbers of routers, links and prefixes, and the cells that the call for distances leaves. A refused file has no routers.
#[derive(Drop)]
pub(crate) struct Case<'a> {
    pub(crate) file: &'a [u8],
    pub(crate) routers: usize,
    pub(crate) links: usize,
    pub(crate) prefixes: usize,
    pub(crate) cells: &'a [u32; 4100],
}

// Prints the lines of all link repairs.
fn print_links(case: &Case<'_>, table: &[u32]) {
    for link in 0..case.links {
        print_link(case.file, table, End { link, side: 0 });
        print_link(case.file, table, End { link, side: 1 });
    }
}

// Prints the lines of the prefix repairs and routes that are asked about.
fn print_prefixes(case: &Case<'_>, table: &[u32]) {
    let asked = Asked::of(case.links, case.prefixes);
    for k in 0..asked.count() {
        let link = asked.link(k);
        print_end(
            case.file,
            table,
            End { link, side: 0 },
            case.prefixes,
            asked,
        );
        print_end(
            case.file,
            table,
            End { link, side: 1 },
            case.prefixes,
            asked,
        );
    }
}

// Prints the lines with the right table.
fn print_right(case: &Case<'_>) {
    let table = &case.cells[..cells_of(case.routers)];
    print_links(case, table);
    print_prefixes(case, table);
}

// The check sum of the repairs that are asked about.
fn sum_asked(case: &Case<'_>, table: &[u32]) -> u64 {
    let asked = Asked::of(case.links, case.prefixes);
    let mut sum = 0;
    for k in 0..asked.count() {
        let link = asked.link(k);
        sum = sum_end(
            case.file,
            table,
            End { link, side: 0 },
            case.prefixes,
            asked,
            sum,
        );
        sum = sum_end(
            case.file,
            table,
            End { link, side: 1 },
            case.prefixes,
            asked,
            sum,
        );
    }
    sum
}

// Prints the lines of another table: the check sum, and a route.
fn print_other(case: &Case<'_>, which: usize) {
    let mut cells = [0u32; 4100];
    let table = &mut cells[..length_of(which, case.routers)];
    let distances = case.cells;
    make(which, distances, table, case.routers);
    let sum = sum_asked(case, table);
    print(format_args!("table {which} {sum}\n"));
    print(format_args!("table-route {which}"));
    let first = End { link: 0, side: 0 };
    print_lent(case.file, table, &ASCENDING, first, 0, &mut [255; 128]);
}

// Prints the lines of the tables from 1 on. One router alone has no cell to take 1 from, so that it has no tables 5 and 6.
fn print_others(case: &Case<'_>) {
    for which in 1..10 {
        if 1 < case.routers || (which != 5 && which != 6) {
            print_other(case, which);
        }
    }
}

// Asks the second calls about a file and prints the answers.
pub(crate) fn print_tables(file: &[u8]) {
    let network = load(file).unwrap_or(Network::empty());
    let mut cells = [7u32; 4100];
    let _ = repair::distances(file, &mut cells);
    let case = Case {
        file,
        routers: network.links.routers,
        links: network.links.links,
        prefixes: network.links.prefixes,
        cells: &cells,
    };
    if 0 < case.routers {
        print_right(&case);
        print_others(&case);
    }
    print_steps(&case);
}
