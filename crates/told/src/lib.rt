// What the programs share that print answers: the printing, the cases that are stored for them and what is asked about a case, and the bytes
// that they lend to a call.
#![tactic(auto)]

mod asked;
mod cases;
mod lent;
mod output;

pub use asked::{Asked, End};
pub use cases::run_cases;
pub use lent::{ASCENDING, all_hold, cells_of, mixed, rising};
pub use output::{Kept, print, print_each};
