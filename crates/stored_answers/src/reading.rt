// The section of the reader: the network that it makes of a file, or why it refuses the file, and the parts of some entries.
ghost use Rattle.std.specs.Prelude.{◌<◌};

use entries::{link_entry, prefix_entry};
use metric::columns::Links;
use network_file::load;
use network_file::network::Network;
use refusal::file_row;
use told::{print, print_each};
use told_answers::Refused;

// A number that no link and no prefix has.
const BEYOND: usize = 4000000000;

// Prints a line for each link.
fn print_links(links: &Links) {
    for k in 0..links.links.min(128) {
        let from = links.from[k];
        let to = links.to[k];
        let out = links.out[k];
        let back = links.back[k];
        print(format_args!("link {k} {from} {to} {out} {back}\n"));
    }
}

// Prints the router and the cost of each used slot of prefix p. The used ones are the first of its eight.
fn print_slots(network: &Network, p: usize)
    requires { p < 128 }
{
    for s in 0..network.attached[p].min(8) {
        let slot = 8 * p + usize::from(s);
        let router = network.at[slot];
        let cost = network.own[slot];
        print(format_args!(" {router} {cost}"));
    }
}

// Prints a line for each prefix.
fn print_prefixes(network: &Network) {
    for p in 0..network.links.prefixes.min(128) {
        print(format_args!("prefix {p}"));
        print_slots(network, p);
        print("\n");
    }
}

// Prints the line of a link's entry.
fn print_link_entry(file: &[u8], link: usize) {
    print(format_args!("link-entry {link}"));
    print_each(link_entry(file, link));
    print("\n");
}

// Prints the line of a prefix's entry.
fn print_prefix_entry(file: &[u8], prefix: usize) {
    print(format_args!("prefix-entry {prefix}"));
    print_each(prefix_entry(file, prefix));
    print("\n");
}

// Prints the entries of the first and the last link, and of two numbers too large.
fn print_link_entries(file: &[u8], links: usize) {
    print_link_entry(file, 0);
    if 1 < links {
        print_link_entry(file, links - 1);
    }
    print_link_entry(file, links);
    print_link_entry(file, BEYOND);
}

// Prints the entries of the first and the last prefix, and of two numbers too large.
fn print_prefix_entries(file: &[u8], prefixes: usize) {
    print_prefix_entry(file, 0);
    if 1 < prefixes {
        print_prefix_entry(file, prefixes - 1);
    }
    print_prefix_entry(file, prefixes);
    print_prefix_entry(file, BEYOND);
}

// Prints the network of an accepted file.
fn print_network(network: &Network) {
    let routers = network.links.routers;
    let links = network.links.links;
    let prefixes = network.links.prefixes;
    print(format_args!("accepted {routers} {links} {prefixes}\n"));
    print_links(&network.links);
    print_prefixes(network);
}

// Prints what the reader answers for a file.
pub(crate) fn print_reading(file: &[u8]) {
    match load(file) {
        Ok(network) => {
            print_network(&network);
            print_link_entries(file, network.links.links);
            print_prefix_entries(file, network.links.prefixes);
        }
        Err(fault) => {
            let refused = Refused(file_row(fault));
            print(format_args!("{refused}\n"));
            print_link_entries(file, 1);
            print_prefix_entries(file, 1);
        }
    }
}
