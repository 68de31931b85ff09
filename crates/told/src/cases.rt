// The stored cases, each a 16-bit length, least byte first, and a file.
ghost use Rattle.std.specs.Prelude.{◌≤◌, IfSome};

use super::output::print;

// The length of the next file, unless the input ends.
fn next_length() -> Option<usize> {
    let mut head = [0u8; 2];
    if io::read_full(0, &mut head) < 2 {
        return None;
    }
    Some(usize::from(u16::from_le_bytes(head)))
}

// Reads the next file and returns how many bytes of it were there. A file longer than 8,192 bytes is not read.
fn next_case(file: &mut [u8; 8192]) -> Option<usize>
    ensures { IfSome result (λ read. read ≤ 8192) }
{
    let length = next_length().filter(|length| *length <= 8192)?;
    Some(io::read_full(0, &mut file[..length]))
}

// Prints the number of each case, and what `print_answers` prints of its file. There are at most a thousand. What is read and printed no
// clause can say.
pub fn run_cases<F: Fn(&[u8])>(print_answers: F)
    requires { F.IsAlwaysCallable print_answers }
{
    let mut file = [0u8; 8192];
    for k in 0..1000 {
        let Some(read) = next_case(&mut file) else {
            return;
        };
        print(format_args!("case {k}\n"));
        print_answers(&file[..read]);
    }
}
