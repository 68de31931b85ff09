// A network in columns of numbers, as the crates above hand its parts on.

// The counts of a network and its links, in columns of a fixed size: there is no heap, and the C interface has the same columns. Link k
// joins routers from[k] and to[k], at cost out[k] one way and back[k] the other.
#[derive(Clone, Copy)]
pub struct Links {
    pub routers: usize,
    pub links: usize,
    pub prefixes: usize,
    pub from: [u8; 128],
    pub to: [u8; 128],
    pub out: [u16; 128],
    pub back: [u16; 128],
}

// The attachments of a prefix: `count` slots from `first` on, each with a router (`at`) and its own cost.
#[derive(Clone, Copy)]
pub struct Slots<'a> {
    pub at: &'a [u8; 1024],
    pub own: &'a [u16; 1024],
    pub first: usize,
    pub count: usize,
}
