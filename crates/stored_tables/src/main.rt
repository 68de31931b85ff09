// Reads stored cases from standard input, each a 16-bit length and a file, and prints for each file what the second calls answer, which are
// lent a table of distances: with the right table, with others, and with several wrong things at once.
#![tactic(auto)]

use tables::print_tables;
use told::run_cases;

mod asking;
mod made;
mod mending;
mod tables;

fn main() {
    run_cases(print_tables);
}
