// Printing bytes as runs of equal ones, so that a buffer that is mostly zeros makes a short line.
use std::fmt;
use std::fmt::{Display, Write};
use told::print;

// So many equal bytes, which are printed as the byte, and before it how often it stands there, if that is more than once.
#[derive(Drop)]
struct Run {
    times: usize,
    byte: u8,
}

impl Display for Run {
    fn fmt<W: Write>(&self, f: &mut fmt::Formatter<W>) -> fmt::Result {
        let times = self.times;
        let byte = self.byte;
        if 1 < times {
            write!(f, "{times}*{byte}")
        } else {
            write!(f, "{byte}")
        }
    }
}

// Prints bytes as runs, each after a space.
pub(crate) fn print_runs(bytes: &[u8]) {
    for equal in bytes.chunk_by(|byte, next| byte == next) {
        if let Some(byte) = equal.first() {
            let run = Run {
                times: equal.len(),
                byte: *byte,
            };
            print(format_args!(" {run}"));
        }
    }
}
