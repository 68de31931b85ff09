// Reads stored cases from standard input, each a 16-bit length and a file, and prints for each file what the calls answer that
// leave a part of their answer in a lent buffer, and what they leave there: the distances and the routes.
#![tactic(auto)]

use distances::print_distances;
use routes::print_routes;
use told::run_cases;

mod distances;
mod routes;

// Prints what is answered for a file.
fn print_answers(file: &[u8]) {
    print_distances(file);
    print_routes(file);
}

fn main() {
    run_cases(print_answers);
}
