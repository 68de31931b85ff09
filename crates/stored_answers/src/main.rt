// Reads stored cases from standard input, each a 16-bit length and a file, and prints for each file what the calls answer that
// return their whole answer: those of the reader, the spaces and the repairs.
#![tactic(auto)]

use reading::print_reading;
use repairs::print_repairs;
use told::run_cases;

mod reading;
mod repairs;

// Prints what is answered for a file.
fn print_answers(file: &[u8]) {
    print_reading(file);
    print_repairs(file);
}

fn main() {
    run_cases(print_answers);
}
