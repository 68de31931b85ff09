// What the space calls and the repair calls answer to the questions about a file. Every call gets a work area that does not hold the
// distances yet. The ranks ascend where nothing else is said.
use answers::Repair;
use network_file::load;
use network_file::network::Network;
use question::Refusal;
use refusal::Row;
use told::{ASCENDING, Asked, End, mixed, print};
use told_answers::{Repaired, Set, code, print_answer};

// Prints the rest of a line: a set, or a refusal.
fn print_space(answer: Result<u64, Refusal>) {
    print_answer(answer.map(Set));
    print("\n");
}

// Prints the rest of a line: a repair, or what is answered in its place.
fn print_repair(answer: Result<Repair, Refusal>) {
    print_answer(answer.map(Repaired));
    print("\n");
}

// Prints the line of P.
fn print_p(file: &[u8], end: End) {
    print(format_args!("p {end}"));
    let mut work = [7u32; 4096];
    print_space(repair::p_space(file, &mut work, end.link, end.side));
}

// Prints the line of extended P.
fn print_extended_p(file: &[u8], end: End) {
    print(format_args!("extended-p {end}"));
    let mut work = [7u32; 4096];
    print_space(repair::extended_p_space(file, &mut work, end.link, end.side));
}

// Prints the line of Q.
fn print_q(file: &[u8], end: End) {
    print(format_args!("q {end}"));
    let mut work = [7u32; 4096];
    print_space(repair::q_space(file, &mut work, end.link, end.side));
}

// Prints the rest of a line: the link repair with some ranks.
fn print_ranked(file: &[u8], ranks: &[u8], end: End) {
    let mut work = [7u32; 4096];
    print_repair(repair::link_repair(file, &mut work, ranks, end.link, end.side));
}

// Prints the spaces and the link repair of one link and end.
fn print_link(file: &[u8], end: End) {
    print_p(file, end);
    print_extended_p(file, end);
    print_q(file, end);
    print(format_args!("link-repair {end}"));
    print_ranked(file, &ASCENDING, end);
}

// The prefix repair of one link, end and prefix with some ranks.
fn prefix_repair(file: &[u8], ranks: &[u8], end: End, prefix: usize) -> Result<Repair, Refusal> {
    let mut work = [7u32; 4096];
    repair::prefix_repair(file, &mut work, ranks, end.link, end.side, prefix)
}

// Prints the line of a prefix repair.
fn print_prefix(file: &[u8], end: End, prefix: usize) {
    print(format_args!("prefix-repair {end} {prefix}"));
    print_repair(prefix_repair(file, &ASCENDING, end, prefix));
}

// Prints the lines of the prefix repairs of one link and end.
fn print_prefixes(file: &[u8], end: End, prefixes: usize) {
    for prefix in 0..prefixes {
        print_prefix(file, end, prefix);
    }
}

// A refusal as one number: 0 for number 14, the only one that a question in range gets, and 4 for the others.
fn refusal_code(row: Row) -> u64 {
    if row.number == 14 { 0 } else { 4 }
}

// The check sum of the prefix repairs of one link and end with some ranks, in the order of the prefixes.
fn check_sum(file: &[u8], ranks: &[u8], end: End, prefixes: usize) -> u64 {
    let mut sum: u64 = 0;
    for prefix in 0..prefixes {
        sum = mixed(
            sum,
            code(prefix_repair(file, ranks, end, prefix), refusal_code),
        );
    }
    sum
}

// Prints the line of the check sum.
fn print_sum(file: &[u8], end: End, prefixes: usize) {
    let sum = check_sum(file, &ASCENDING, end, prefixes);
    print(format_args!("prefix-repairs {end} {sum}\n"));
}

// Prints the line of the check sum with ranks by which the classes come in the order 1, 7, 3, 4, 2, 5, 0, 6, if there is a prefix.
fn print_ranked_sum(file: &[u8], end: End, prefixes: usize) {
    if prefixes == 0 {
        return;
    }
    let ranks = [6u8, 0, 4, 2, 3, 5, 7, 1];
    let sum = check_sum(file, &ranks, end, prefixes);
    print(format_args!("ranked-prefix-repairs {end} {sum}\n"));
}

// Prints all questions of one link and end; the prefix repairs of a network that is not printed whole only by their check sum. The ranked link
// repair has ranks by which the classes come in the order 7, 6, 0, 4, 2, 5, 1, 3.
fn print_end(file: &[u8], end: End, prefixes: usize, whole: bool) {
    print_link(file, end);
    if whole {
        print_prefixes(file, end, prefixes);
    } else {
        print_sum(file, end, prefixes);
    }
    print(format_args!("ranked-link-repair {end}"));
    print_ranked(file, &[2, 6, 4, 7, 3, 5, 1, 0], end);
    print_ranked_sum(file, end, prefixes);
}

fn print_links(file: &[u8], links: usize, prefixes: usize) {
    let whole = Asked::of(links, prefixes).is_whole();
    for link in 0..links {
        print_end(file, End { link, side: 0 }, prefixes, whole);
        print_end(file, End { link, side: 1 }, prefixes, whole);
    }
}

// Prints the questions whose link, end or prefix is just too large.
fn print_beyond(file: &[u8], links: usize, prefixes: usize) {
    let no_link = End {
        link: links,
        side: 0,
    };
    let no_end = End { link: 0, side: 2 };
    print_link(file, no_link);
    print_prefix(file, no_link, 0);
    print_link(file, no_end);
    print_prefix(file, no_end, 0);
    print_prefix(file, End { link: 0, side: 0 }, prefixes);
}

// Prints the line of the link repair with a table of ranks that is no arrangement, and with a link number that is too large as well.
fn print_wrong(file: &[u8], table: usize, ranks: &[u8], links: usize) {
    print(format_args!("wrong-link-ranks {table}"));
    print_ranked(
        file,
        ranks,
        End {
            link: links,
            side: 0,
        },
    );
}

// Tables of another length: none, the four ranks of before, one rank too few, one too many.
fn print_wrong_lengths(file: &[u8], links: usize) {
    let ranks = [0u8, 1, 2, 3, 4, 5, 6, 7, 0];
    print_wrong(file, 0, &ranks[..0], links);
    print_wrong(file, 1, &ranks[..4], links);
    print_wrong(file, 2, &ranks[..7], links);
    print_wrong(file, 3, &ranks, links);
}

// Tables with a rank over 7, with a rank twice, with four ranks twice, and with two ranks four times.
fn print_wrong_ranks(file: &[u8], links: usize) {
    print_wrong(file, 4, &[0, 1, 2, 3, 4, 5, 6, 8], links);
    print_wrong(file, 5, &[0, 1, 2, 3, 4, 5, 6, 6], links);
    print_wrong(file, 6, &[0, 1, 2, 3, 0, 1, 2, 3], links);
    print_wrong(file, 7, &[7, 0, 7, 0, 7, 0, 7, 0], links);
}

// Tables with a rank of which some lower bits are those of a sound one.
fn print_wrong_bits(file: &[u8], links: usize) {
    print_wrong(file, 8, &[8, 1, 2, 3, 4, 5, 6, 7], links);
    print_wrong(file, 9, &[32, 1, 2, 3, 4, 5, 6, 7], links);
    print_wrong(file, 10, &[64, 1, 2, 3, 4, 5, 6, 7], links);
    print_wrong(file, 11, &[0, 1, 2, 3, 4, 5, 6, 255], links);
}

// Prints the line of the prefix repair with the four ranks of before, and with a prefix number that is too large as well.
fn print_wrong_prefix(file: &[u8], prefixes: usize) {
    print("wrong-prefix-ranks 1");
    let end = End { link: 0, side: 0 };
    print_repair(prefix_repair(file, &ASCENDING[..4], end, prefixes));
}

// Prints the questions with ranks that are no arrangement; about a refused file, which has no routers, only the last.
fn print_misranked(file: &[u8], routers: usize, links: usize, prefixes: usize) {
    if 0 < routers {
        print_wrong_lengths(file, links);
        print_wrong_ranks(file, links);
        print_wrong_bits(file, links);
    }
    print_wrong_prefix(file, prefixes);
}

// Asks every link, end and prefix of a file, and questions just out of range, and prints the answers.
pub(crate) fn print_repairs(file: &[u8]) {
    let network = load(file).unwrap_or(Network::empty());
    let routers = network.links.routers;
    let links = network.links.links;
    let prefixes = network.links.prefixes;
    print_links(file, links, prefixes);
    print_beyond(file, links, prefixes);
    print_misranked(file, routers, links, prefixes);
}
