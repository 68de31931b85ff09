// Rows 10 to 13, 15 and 18 of the table of refusals, for every call that tries one of them, in the order 10, 18, 11, 15, 12, 13. They look at
// the counts of a file's head, at the numbers of the question, at whether its table of ranks is an arrangement, and at whether a table of
// distances that is lent is the file's.
#![tactic(auto)]

ghost use Rattle.std.specs.Prelude.{ℕ, ◌≡◌, Bool, true, ◌&&◌, List, ltb, leb};
ghost use Rattle.lfa.specs.Lists.{select};
ghost use Rattle.lfa.specs.File.{Bytes};
ghost use Rattle.lfa.specs.Space.{Space};
ghost use Rattle.lfa.specs.Ranks.{is_arrangement};
ghost use Rattle.lfa.specs.Refusal.{early_rows, tries_early, first_row, sized_returned};
ghost use Rattle.rows.specs.Rows.{given_in, count_in, right_in, call_of, question_about, inputs_in, row_unless, row_decided};

pub mod ranks;

// The calls, by the inputs that these rows look at. They do not look at which space is asked for.
#[derive(Clone, Copy)]
pub enum Call {
    Distances,
    Space,
    Link,
    Prefix,
    Route,
}

// The cells for distances that every call is lent: a work area of so many; or a table, as repair and route calls may have it, of so many,
// and whether it holds the file's distances.
#[derive(Clone, Copy)]
pub enum Cells {
    Work(usize),
    Table { count: usize, right: bool },
}

impl Cells {
    // How many they are.
    fn count(self) -> usize
        ensures { result ≡ count_in self }
    {
        match self {
            Cells::Work(count) | Cells::Table { count, .. } => count,
        }
    }

    // Whether they are given as a table.
    fn given(self) -> bool
        ensures { result ≡ given_in self }
    {
        matches!(self, Cells::Table { .. })
    }

    // Whether the table, if one is given, holds the file's distances.
    fn right(self) -> bool
        ensures { result ≡ right_in self true }
    {
        !matches!(self, Cells::Table { right: false, .. })
    }
}

// The numbers of a question, beside those cells, and whether the lent table of ranks is an arrangement. Where the call has no such input,
// any value may stand:
// one struct and no enum with fields, since the rows are stated once for all calls by these numbers (`question_about`).
#[derive(Clone, Copy)]
pub struct Asked {
    pub call: Call,
    pub buffer: usize,
    pub ranked: bool,
    pub link: usize,
    pub end: usize,
    pub prefix: usize,
}

// The first of these rows that applies, with the value that it returns.
#[derive(Clone, Copy)]
pub enum Row {
    ShortArea(usize),
    WrongTable,
    ShortBuffer(usize),
    NoSuchLink(usize),
    NoSuchPrefix(usize),
    BadRanks,
}

// Which inputs a call has, beside the file and the cells for distances.
#[derive(Clone, Copy)]
struct Inputs {
    table: bool,
    buffer: bool,
    ranks: bool,
    link: bool,
    prefix: bool,
}

// Which they are. No step is chosen by this: the rows try what a call has.
fn inputs_of(call: Call, given: bool) -> Inputs
    ensures { (s : Space) → result ≡ inputs_in (call_of call given s) }
{
    let none = Inputs {
        table: false,
        buffer: false,
        ranks: false,
        link: false,
        prefix: false,
    };
    let link = Inputs { link: true, ..none };
    let repair = Inputs {
        table: given,
        ranks: true,
        ..link
    };
    let prefix = Inputs {
        prefix: true,
        ..repair
    };
    match call {
        Call::Distances => none,
        Call::Space => link,
        Call::Link => repair,
        Call::Prefix => prefix,
        Call::Route => Inputs {
            buffer: true,
            ..prefix
        },
    }
}

// Whether a link and one of its two ends are named.
fn named(links: usize, link: usize, end: usize) -> bool
    ensures { result ≡ (ltb link links && leb end 1) }
{
    link < links && end <= 1
}

// A row, where the call tries it and its test does not pass.
fn row_unless(tried: bool, passes: bool, row: Row) -> Result<(), Row>
    ensures { result ≡ row_unless tried passes row }
{
    if tried && !passes { Err(row) } else { Ok(()) }
}

// The first of these rows that applies to a question about a file with these counts.
pub fn first_row(
    routers: u8,
    links: usize,
    prefixes: usize,
    cells: Cells,
    asked: Asked,
) -> Result<(), Row>
    ensures { (b : Bytes) (s : Space) (table choices ranks : List ℕ) (right : Bool) → is_arrangement ranks ≡ asked.ranked → row_decided result
        ≡ first_row (sized_returned routers links prefixes (right_in cells right) (question_about b cells table asked s choices ranks)) (select (tries_early (call_of asked.call (given_in cells) s)) early_rows) }
{
    let has = inputs_of(asked.call, cells.given());
    let n = usize::from(routers);
    let square = n * n;
    let bytes = 2 * n;
    let there = named(links, asked.link, asked.end);
    let area = row_unless(true, square <= cells.count(), Row::ShortArea(square));
    let table = row_unless(has.table, cells.right(), Row::WrongTable);
    let buffer = row_unless(has.buffer, bytes <= asked.buffer, Row::ShortBuffer(bytes));
    let ranks = row_unless(has.ranks, asked.ranked, Row::BadRanks);
    let link = row_unless(has.link, there, Row::NoSuchLink(links));
    let prefix = row_unless(
        has.prefix,
        asked.prefix < prefixes,
        Row::NoSuchPrefix(prefixes),
    );
    area.and(table).and(buffer).and(ranks).and(link).and(prefix)
}
