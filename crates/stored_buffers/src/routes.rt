// What `route` answers for a file and what it leaves in the route buffer, which holds 255 in every byte before a call. Every call
// gets a work area that does not hold the distances yet.
use super::distances::print_kept;
use network_file::load;
use network_file::network::Network;
use route::route;
use told::{ASCENDING, Asked, End, print, rising};
use told_answers::print_route;

// What is asked: a prefix, at an end of a link, with a choice string. The string has a number, by which the line tells of it.
#[derive(Clone, Copy, Drop)]
struct Question<'a> {
    end: End,
    prefix: usize,
    string: usize,
    choices: &'a [u8],
}

// Prints the words that begin a line: its name, and the numbers of the question.
fn print_question(name: &str, question: &Question<'_>) {
    let end = question.end;
    let prefix = question.prefix;
    let string = question.string;
    print(format_args!("{name} {end} {prefix} {string}"));
}

// Prints the line of a question with some ranks, and a route buffer of 255s.
fn print_played(file: &[u8], name: &str, ranks: &[u8], question: &Question<'_>, buffer: &mut [u8]) {
    print_question(name, question);
    let mut work = [7u32; 4096];
    let end = question.end;
    let prefix = question.prefix;
    let answer = route(
        file,
        &mut work,
        ranks,
        end.link,
        end.side,
        prefix,
        question.choices,
        buffer,
    );
    print_route(answer, buffer);
    print("\n");
}

// Prints the line of a route.
fn print_plain(file: &[u8], end: End, prefix: usize, string: usize, choices: &[u8]) {
    let question = Question {
        end,
        prefix,
        string,
        choices,
    };
    print_played(file, "route", &ASCENDING, &question, &mut [255; 128]);
}

// Prints the line of a route with choice string 3 and with ranks by which the classes come in the order 7, 6, 0, 4, 2, 5, 1, 3.
fn print_ranked(file: &[u8], end: End, prefix: usize, choices: &[u8]) {
    let question = Question {
        end,
        prefix,
        string: 3,
        choices,
    };
    let ranks = [2u8, 6, 4, 7, 3, 5, 1, 0];
    print_played(file, "ranked-route", &ranks, &question, &mut [255; 128]);
}

// The routes of a prefix with the choice strings 0 to 2: no byte, one byte 1, 128 bytes 1.
fn print_ones(file: &[u8], end: End, prefix: usize) {
    let ones = [1u8; 128];
    print_plain(file, end, prefix, 0, &ones[..0]);
    print_plain(file, end, prefix, 1, &ones[..1]);
    print_plain(file, end, prefix, 2, &ones);
}

// The routes of a prefix with the choice strings 3 and 4: 128 bytes from 0 upwards, and from 255 downwards. Then string 3 with other
// ranks.
fn print_rows(file: &[u8], end: End, prefix: usize) {
    let mut upwards = [0u8; 128];
    rising(&mut upwards, 0, 1);
    let mut downwards = [0u8; 128];
    rising(&mut downwards, 255, 255);
    print_plain(file, end, prefix, 3, &upwards);
    print_plain(file, end, prefix, 4, &downwards);
    print_ranked(file, end, prefix, &upwards);
}

// The routes of one link and end, for the prefixes that are asked about.
fn print_end(file: &[u8], end: End, prefixes: usize, asked: Asked) {
    for prefix in 0..prefixes {
        if asked.has_prefix(prefix) {
            print_ones(file, end, prefix);
            print_rows(file, end, prefix);
        }
    }
}

// The questions of a file.
fn print_asked(file: &[u8], links: usize, prefixes: usize) {
    let asked = Asked::of(links, prefixes);
    for k in 0..asked.count() {
        let link = asked.link(k);
        print_end(file, End { link, side: 0 }, prefixes, asked);
        print_end(file, End { link, side: 1 }, prefixes, asked);
    }
}

// The question about link 0, end 0 and prefix 0 with no choice bytes.
fn first_question() -> Question<'static> {
    Question {
        end: End { link: 0, side: 0 },
        prefix: 0,
        string: 0,
        choices: &[],
    }
}

// Prints the lines of the questions with a route buffer that has a byte too few for n routers, none where there are no routers; the second
// has the four ranks of before too.
fn print_shorts(file: &[u8], n: usize) {
    let bytes = (2 * n.min(64)).saturating_sub(1);
    let question = first_question();
    let mut buffer = [255u8; 128];
    print_played(
        file,
        "short-route",
        &ASCENDING,
        &question,
        &mut buffer[..bytes],
    );
    let mut other = [255u8; 128];
    let ranks = &ASCENDING[..4];
    print_played(
        file,
        "short-route-and-ranks",
        ranks,
        &question,
        &mut other[..bytes],
    );
}

// Prints the line of a question with the four ranks of before and a link number too large, and whether the work area is kept.
fn print_wrong_ranks(file: &[u8], links: usize) {
    let end = End {
        link: links,
        side: 0,
    };
    print_question(
        "wrong-ranks",
        &Question {
            end,
            ..first_question()
        },
    );
    let mut work = [7u32; 4096];
    let mut buffer = [255u8; 128];
    let answer = route(
        file,
        &mut work,
        &ASCENDING[..4],
        links,
        0,
        0,
        &[],
        &mut buffer,
    );
    print_route(answer, &buffer);
    print("\n");
    print_kept(&work);
}

// Asks for the routes of a file and prints the answers. The network of a refused file has no routers.
pub(crate) fn print_routes(file: &[u8]) {
    let network = load(file).unwrap_or(Network::empty());
    print_asked(file, network.links.links, network.links.prefixes);
    print_shorts(file, network.links.routers);
    print_wrong_ranks(file, network.links.links);
}
