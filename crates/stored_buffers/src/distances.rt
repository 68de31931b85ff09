// What `distances` answers for a file and what it leaves in the work area, which holds 7 in every cell before a call.
ghost use Rattle.std.specs.Prelude.{◌<◌};

use network_file::load;
use network_file::network::Network;
use refusal::question_row;
use repair::distances;
use told::{Kept, all_hold, cells_of, print, print_each};
use told_answers::Refused;

// Prints the line of a call.
fn print_filled(file: &[u8], work: &mut [u32]) {
    match distances(file, work) {
        Ok(()) => print("done\n"),
        Err(refusal) => {
            let refused = Refused(question_row(refusal));
            print(format_args!("{refused}\n"));
        }
    }
}

// Prints the rows of n routers.
fn print_rows(n: usize, cells: &[u32])
    requires { 0 < n }
{
    for (x, row) in cells.chunks(n).enumerate() {
        print(format_args!("row {x}"));
        print_each(row);
        print("\n");
    }
}

// Prints the rows of n routers, and the first two cells after them.
fn print_work(n: usize, work: &[u32; 4100]) {
    let cells = cells_of(n);
    if 0 < n {
        print_rows(n, &work[..cells]);
    }
    print("later");
    print_each(&work[cells..cells + 2]);
    print("\n");
}

// Prints whether every cell still holds 7.
pub(crate) fn print_kept(work: &[u32]) {
    let kept = Kept(all_hold(work, &7));
    print(format_args!("{kept}\n"));
}

// Prints the answer for a work area with one cell too few for n routers, none where there are no routers, and whether its cells are kept.
fn print_short(file: &[u8], n: usize) {
    let mut work = [7u32; 4096];
    let short = &mut work[..cells_of(n).saturating_sub(1)];
    print_filled(file, short);
    print_kept(short);
}

// Prints what `distances` answers for a file. The network of a refused file has no routers.
pub(crate) fn print_distances(file: &[u8]) {
    let routers = load(file).unwrap_or(Network::empty()).links.routers;
    let mut work = [7u32; 4100];
    print_filled(file, &mut work);
    print_work(routers, &work);
    print_short(file, routers);
}
