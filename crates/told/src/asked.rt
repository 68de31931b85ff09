// What is asked about a network: everything about a small one, and about a large one the questions of four links and of every 16th prefix.
ghost use Rattle.std.specs.Prelude.{◌≡◌, ◌↔◌, Some, IsTrue};
ghost use Rattle.told.specs.Texts.{end_text};
ghost use Rattle.told.specs.Asked.{few, asked_links, asked_link, IsAsked};

use std::fmt;
use std::fmt::{Display, Write};

// A link and an end of it.
#[derive(Clone, Copy, Drop)]
pub struct End {
    pub link: usize,
    pub side: usize,
}

impl Display for End {
    ghost output = { λ x. Some (end_text x) };

    fn fmt<W: Write>(&self, f: &mut fmt::Formatter<W>) -> fmt::Result {
        let link = self.link;
        let side = self.side;
        write!(f, "{link} {side}")
    }
}

// The links and prefixes that are asked about.
#[derive(Clone, Copy, Drop)]
pub struct Asked {
    links: usize,
    whole: bool,
}

impl Asked {
    // What is asked about a network of so many links and prefixes. It is small if links times prefixes is at most 2,000.
    pub fn of(links: usize, prefixes: usize) -> Asked
        ensures all { result.links ≡ links }
        ensures small { result.whole ≡ few links prefixes }
    {
        let questions = links.checked_mul(prefixes);
        let whole = questions.is_some_and(|questions| questions <= 2000);
        Asked { links, whole }
    }

    // Whether the network is small.
    pub fn is_whole(&self) -> bool
        ensures { result ≡ self.now.whole }
    {
        self.whole
    }

    // How many links are asked about.
    pub fn count(&self) -> usize
        ensures { result ≡ asked_links self.now }
    {
        if self.whole { self.links } else { 4 }
    }

    // Link number k of those that are asked about.
    pub fn link(&self, k: usize) -> usize
        ensures { result ≡ asked_link self.now k }
    {
        if self.whole {
            return k;
        }
        match k {
            0 => 0,
            1 => 1,
            2 => 64,
            _ => 127,
        }
    }

    // Whether a prefix is asked about.
    pub fn has_prefix(&self, prefix: usize) -> bool
        ensures { IsTrue result ↔ IsAsked self.now prefix }
    {
        prefix % 16 == 0 || self.whole
    }
}
