// Reads requests for drills from standard input and prints for each what `drill` answers and what it leaves in the buffer. A request
// has eight bytes: a seed of 32 bits, then the number of routers and the length of the buffer, 16 bits each, least byte first.
#![tactic(auto)]

use drill::drill;
use runs::print_runs;
use told::print;

mod runs;

#[derive(Drop)]
struct Request {
    seed: u32,
    routers: usize,
    length: usize,
}

// A number of 16 bits.
fn word(low: u8, high: u8) -> usize {
    usize::from(u16::from_le_bytes([low, high]))
}

// The next request, unless the input ends.
fn next_request() -> Option<Request> {
    let mut bytes = [0u8; 8];
    if io::read_full(0, &mut bytes) < 8 {
        return None;
    }
    Some(Request {
        seed: u32::from_le_bytes([bytes[0], bytes[1], bytes[2], bytes[3]]),
        routers: word(bytes[4], bytes[5]),
        length: word(bytes[6], bytes[7]),
    })
}

// Prints the line of a request: what is answered for a buffer of so many bytes, and what 1,100 bytes hold after the call, of which
// the buffer is the first part. Each of them is 7 before it.
fn print_drill(request: &Request) {
    let Request {
        seed,
        routers,
        length,
    } = *request;
    if 1100 < length {
        return;
    }
    print(format_args!("drill {seed} {routers} {length}"));
    let mut bytes = [7u8; 1100];
    let count = drill(seed, routers, &mut bytes[..length]);
    print(format_args!(" written {count} left"));
    print_runs(&bytes);
    print("\n");
}

// Runs the requests, at most a thousand.
fn main() {
    for _ in 0..1000 {
        let Some(request) = next_request() else {
            return;
        };
        print_drill(&request);
    }
}
