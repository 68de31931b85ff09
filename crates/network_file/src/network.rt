// The network by value: columns of numbers, every cell past its count zero.
ghost use Rattle.std.specs.Prelude.{◌≡◌, []};
ghost use Rattle.network_file.specs.Struct.{struct_of};

use metric::columns::Links;

// Its counts and its links, and the attachments of its prefixes. Slot s of prefix p is cell p * 8 + s of `at` (the router) and `own` (its
// cost); the first attached[p] of its eight are used. Columns of a fixed size, and no list of slots: the C interface hands them over as they
// are (`planner_load`), and there is no heap.
#[derive(Clone, Copy)]
pub struct Network {
    pub links: Links,
    pub attached: [u8; 128],
    pub at: [u8; 1024],
    pub own: [u16; 1024],
}

impl Network {
    // The network with nothing in it.
    pub fn empty() -> Network
        ensures { result ≡ struct_of (record { routers = 0; links = []; prefixes = [] }) }
    {
        let links = Links {
            routers: 0,
            links: 0,
            prefixes: 0,
            from: [0; 128],
            to: [0; 128],
            out: [0; 128],
            back: [0; 128],
        };
        Network {
            links,
            attached: [0; 128],
            at: [0; 1024],
            own: [0; 1024],
        }
    }
}
