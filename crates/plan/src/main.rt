// Reads a network file from standard input and prints its plan: a head line, and a line for each link and end with the link's own
// repair. A refused file has one line, which says why.
#![tactic(auto)]

use answers::Repair;
use metric::columns::Links;
use network_file::load_links;
use question::Refusal;
use refusal::file_row;
use repair::{distances, link_repair_with};
use std::fmt;
use std::fmt::{Display, Write};
use told::{ASCENDING, End, print};
use told_answers::{Fields, Refused};

// The answer to a link and an end as the fields of its pair; where there is none, number 14, each is a word. Nothing else is answered for
// a link and an end of an accepted file, with the table of its distances: only a prefix repair is untouched or unreachable.
#[derive(Drop)]
struct Planned(Result<Repair, Refusal>);

impl Display for Planned {
    fn fmt<W: Write>(&self, f: &mut fmt::Formatter<W>) -> fmt::Result {
        if let Ok(Repair::Pair(pair)) = self.0 {
            let fields = Fields(pair);
            write!(f, "{fields}")
        } else {
            write!(f, "none none none none")
        }
    }
}

// Prints the line of an end of a link, from the router there, near, to the router far.
fn print_end(file: &[u8], table: &[u32], end: End, near: u8, far: u8) {
    let planned = Planned(link_repair_with(file, table, &ASCENDING, end.link, end.side));
    print(format_args!("{end} {near} {far} {planned}\n"));
}

// Prints the lines of every link. The distances are worked out once, in a table that is enough for 64 routers.
fn print_links(file: &[u8], links: &Links) {
    let mut table = [0u32; 4096];
    let _ = distances(file, &mut table);
    let ends = links.from.iter().zip(links.to.iter()).take(links.links);
    for (link, (a, b)) in ends.enumerate() {
        print_end(file, &table, End { link, side: 0 }, *a, *b);
        print_end(file, &table, End { link, side: 1 }, *b, *a);
    }
}

// Prints the plan of a file, or why it is refused.
fn print_plan(file: &[u8]) {
    match load_links(file) {
        Ok(links) => {
            let Links {
                routers,
                links: count,
                prefixes,
                ..
            } = links;
            print(format_args!("plan {routers} {count} {prefixes}\n"));
            print_links(file, &links);
        }
        Err(fault) => {
            let refused = Refused(file_row(fault));
            print(format_args!("{refused}\n"));
        }
    }
}

// Reads to one byte past the largest file, so that a longer input is seen to be longer. The input may come in pieces.
fn main() {
    let mut file = [0u8; 6657];
    let length = io::read_full(0, &mut file);
    print_plan(&file[..length]);
}
