// Whether a question is turned away before anything is searched for: rows 1 to 9 over the file, then rows 10, 18, 11, 15, 12 and 13.
#![tactic(auto)]

ghost use Rattle.std.specs.Prelude.{ℕ, ◌%◌, ◌≡◌, List, [], length, IfOk, Err};
ghost use Rattle.std.proofs.Math.Option.{some};
ghost use Rattle.lfa.specs.File.{Bytes};
ghost use Rattle.lfa.specs.Space.{Space};
ghost use Rattle.lfa.specs.Ranks.{is_arrangement};
ghost use Rattle.lfa.specs.Refusal.{in_file, in_early};
ghost use Rattle.lfa.specs.Answer.{early_answer, network_loaded};
ghost use Rattle.network_file.specs.Load.{fault_row};
ghost use Rattle.network_file.specs.Struct.{struct_of};
ghost use Rattle.rows.specs.Rows.{question_about, row_decided};
ghost use Rattle.question.specs.Taken.{Taken};
ghost use Rattle.question.specs.Turning.{row_of, work_cells, table_cells, turned_answer, area_posed, links_posed, TableJudged, Judges, Poses};

use distance::fill;
use metric::columns::Links;
use network_file::network::Network;
use network_file::{Fault, load, load_links};
use rows::{Asked, Cells, Row, first_row};
use table::holds_distances;

// What turns a question away: rows 1 to 9 as the file part tells them, and the others with the value that each returns, where it is not
// always 0: `NoPair` is row 14, `BadRanks` row 15, `WrongTable` row 18.
#[derive(Clone, Copy)]
pub enum Refusal {
    File(Fault),
    ShortArea(usize),
    ShortBuffer(usize),
    NoSuchLink(usize),
    NoSuchPrefix(usize),
    NoPair,
    BadRanks,
    WrongTable,
}

// What turns the file away turns the question away.
impl From<Fault> for Refusal {
    ghost from_gives = { λ given refusal. row_of refusal ≡ in_file (fault_row given) };

    #[tactic(auto, unfolding(crate::specs::Turning::row_of))]
    fn from(fault: Fault) -> Refusal {
        Refusal::File(fault)
    }
}

// A row as a refusal.
impl From<Row> for Refusal {
    ghost from_gives = { λ given refusal. some (row_of refusal) ≡ in_early (row_decided (Err given)) };

    #[tactic(auto, unfolding(crate::specs::Turning::row_of, rows::specs::Rows::row_decided, lfa::specs::Refusal::in_early))]
    fn from(row: Row) -> Refusal {
        match row {
            Row::ShortArea(cells) => Refusal::ShortArea(cells),
            Row::ShortBuffer(bytes) => Refusal::ShortBuffer(bytes),
            Row::NoSuchLink(links) => Refusal::NoSuchLink(links),
            Row::NoSuchPrefix(prefixes) => Refusal::NoSuchPrefix(prefixes),
            Row::BadRanks => Refusal::BadRanks,
            Row::WrongTable => Refusal::WrongTable,
        }
    }
}

// The number of routers of a network, of which there are at most 64. By a remainder and not `u8::try_from`, whose error never comes.
fn narrow(routers: usize) -> u8
    ensures { result ≡ routers % 256 }
{
    (routers % 256) as u8
}

// The rows before 14 for a question about an accepted file, as far as its call tries them, by the links of its network; whichever space is
// asked for, whatever the choice bytes are, and for every table of ranks that was judged as `asked` says.
fn judge(links: &Links, cells: Cells, asked: Asked) -> Result<(), Refusal>
    ensures { (b : Bytes) (table : List ℕ) (s : Space) (choices ranks : List ℕ) → Taken b links.now → is_arrangement ranks ≡ asked.ranked →
        TableJudged (question_about b cells table asked s choices ranks) cells →
        turned_answer result ≡ early_answer (question_about b cells table asked s choices ranks) }
{
    let routers = narrow(links.routers);
    first_row(routers, links.links, links.prefixes, cells, asked)?;
    Ok(())
}

// The same for a call that is lent a work area. Where no row applies, the work area holds the distances of the network. (Apart from `ask_with`,
// as are the four calls below from one another: one for all would take what differs as closures with their contracts, longer than these.)
fn ask(links: &Links, asked: Asked, work: &mut [u32]) -> Result<(), Refusal>
    ensures turned { (b : Bytes) (s : Space) (choices ranks : List ℕ) → Taken b links.now → is_arrangement ranks ≡ asked.ranked →
        turned_answer result ≡ early_answer (question_about b (work_cells (length work.old)) [] asked s choices ranks) }
    ensures area { (b : Bytes) (s : Space) (choices ranks : List ℕ) → Taken b links.now → is_arrangement ranks ≡ asked.ranked →
        work.new ≡ area_posed result (network_loaded b) work.old }
{
    let cells = Cells::Work(work.len());
    judge(links, cells, asked)?;
    fill(links, work);
    Ok(())
}

// The same for a call that is lent a table of distances, which is only read.
fn ask_with(links: &Links, asked: Asked, table: &[u32]) -> Result<(), Refusal>
    ensures { (b : Bytes) (s : Space) (choices ranks : List ℕ) → Taken b links.now → is_arrangement ranks ≡ asked.ranked →
        turned_answer result ≡ early_answer (question_about b (table_cells (network_loaded b) table.now) table.now asked s choices ranks) }
{
    let right = holds_distances(links, table);
    let count = table.len();
    judge(links, Cells::Table { count, right }, asked)
}

// Puts a question that names no prefix, for a call that is lent a work area: what turns it away, or the links of its file.
pub fn pose_links(file: &[u8], asked: Asked, work: &mut [u32]) -> Result<Links, Refusal>
    ensures { (s : Space) (choices ranks : List ℕ) → is_arrangement ranks ≡ asked.ranked →
        Poses (question_about file.now (work_cells (length work.old)) [] asked s choices ranks) result work.old work.new }
{
    let links = load_links(file)?;
    ask(&links, asked, work)?;
    Ok(links)
}

// Puts a question that names a prefix, in the same way: the whole network is handed over.
pub fn pose(file: &[u8], asked: Asked, work: &mut [u32]) -> Result<Network, Refusal>
    ensures network { IfOk result (λ network. network ≡ struct_of (network_loaded file.now)) }
    ensures posed { (s : Space) (choices ranks : List ℕ) → is_arrangement ranks ≡ asked.ranked →
        Poses (question_about file.now (work_cells (length work.old)) [] asked s choices ranks) (links_posed result) work.old work.new }
{
    let network = load(file)?;
    ask(&network.links, asked, work)?;
    Ok(network)
}

// Puts a question that names no prefix, for a call that is lent a table of distances.
pub fn pose_links_with(file: &[u8], asked: Asked, table: &[u32]) -> Result<Links, Refusal>
    ensures { (s : Space) (choices ranks : List ℕ) → is_arrangement ranks ≡ asked.ranked →
        Judges (question_about file.now (table_cells (network_loaded file.now) table.now) table.now asked s choices ranks) result }
{
    let links = load_links(file)?;
    ask_with(&links, asked, table)?;
    Ok(links)
}

// Puts a question that names a prefix, in the same way: the whole network is handed over.
pub fn pose_with(file: &[u8], asked: Asked, table: &[u32]) -> Result<Network, Refusal>
    ensures network { IfOk result (λ network. network ≡ struct_of (network_loaded file.now)) }
    ensures judged { (s : Space) (choices ranks : List ℕ) → is_arrangement ranks ≡ asked.ranked →
        Judges (question_about file.now (table_cells (network_loaded file.now) table.now) table.now asked s choices ranks) (links_posed result) }
{
    let network = load(file)?;
    ask_with(&network.links, asked, table)?;
    Ok(network)
}
