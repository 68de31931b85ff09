// The repair part: distances, spaces and repairs of the network that the file part hands over. The file is only passed on, the
// distances are those of the distance part or of a lent table that the table part has checked, and the spaces and pairs those of the search
// part, which reads them from the work area or the table.
#![tactic(auto)]

ghost use Rattle.std.specs.Prelude.{◌≡◌, length};
ghost use Rattle.lfa.specs.Space.{p_space, extended_p, q_space};
ghost use Rattle.lfa.specs.Question.{filling, ask_space, ask_link, ask_prefix, ask_link_with, ask_prefix_with};
ghost use Rattle.lfa.specs.Answer.{answer_to};
ghost use Rattle.lfa.specs.Contract.{Answered};
ghost use Rattle.search.specs.Spaces.{space_named};
ghost use Rattle.answers.specs.Answer.{filled_answer, repair_of, space_answer};
ghost use Rattle.repair.specs.Told.{link_numbers, prefix_numbers};

use answers::{Repair, link_answer, repair_answer};
use question::{Refusal, pose, pose_links, pose_links_with, pose_with};
use rows::ranks::arranged;
use rows::{Asked, Call};
use search::{Which, link_pair, prefix_pair, space_in};

// Fills the work area with the distances between the routers of a file, row by row.
pub fn distances(file: &[u8], work: &mut [u32]) -> Result<(), Refusal>
    ensures { Answered (filling file.now (length work.old)) (filled_answer result) work.old work.new }
{
    let asked = Asked {
        call: Call::Distances,
        buffer: 0,
        ranked: false,
        link: 0,
        end: 0,
        prefix: 0,
    };
    let _links = pose_links(file, asked, work)?;
    Ok(())
}

// The numbers of a question for a link's repair.
#[tactic(auto, unfolding(crate::specs::Told::link_numbers))]
fn link_asked(ranked: bool, link: usize, end: usize) -> Asked
    ensures { result ≡ link_numbers ranked link end }
{
    Asked {
        call: Call::Link,
        buffer: 0,
        ranked,
        link,
        end,
        prefix: 0,
    }
}

// The pair that repairs a link: around it, to its far router. The table gives each class its rank, by which pairs are ordered.
pub fn link_repair(
    file: &[u8],
    work: &mut [u32],
    ranks: &[u8],
    link: usize,
    end: usize,
) -> Result<Repair, Refusal>
    ensures { Answered (ask_link file.now (length work.old) ranks.now link end) (repair_of result) work.old work.new }
{
    let asked = link_asked(arranged(ranks), link, end);
    let links = pose_links(file, asked, work)?;
    link_answer(link_pair(&links, ranks, link, end, work))
}

// The same with a table of the file's distances, which is only read, in place of the work area.
pub fn link_repair_with(
    file: &[u8],
    table: &[u32],
    ranks: &[u8],
    link: usize,
    end: usize,
) -> Result<Repair, Refusal>
    ensures { repair_of result ≡ answer_to (ask_link_with file.now table.now ranks.now link end) }
{
    let asked = link_asked(arranged(ranks), link, end);
    let links = pose_links_with(file, asked, table)?;
    link_answer(link_pair(&links, ranks, link, end, table))
}

// The numbers of a question for the repair of the traffic to a prefix.
#[tactic(auto, unfolding(crate::specs::Told::prefix_numbers))]
fn prefix_asked(ranked: bool, link: usize, end: usize, prefix: usize) -> Asked
    ensures { result ≡ prefix_numbers ranked link end prefix }
{
    Asked {
        call: Call::Prefix,
        buffer: 0,
        ranked,
        link,
        end,
        prefix,
    }
}

// The pair that repairs the traffic to a prefix, where it may cross the link.
pub fn prefix_repair(
    file: &[u8],
    work: &mut [u32],
    ranks: &[u8],
    link: usize,
    end: usize,
    prefix: usize,
) -> Result<Repair, Refusal>
    ensures { Answered (ask_prefix file.now (length work.old) ranks.now link end prefix) (repair_of result) work.old work.new }
{
    let asked = prefix_asked(arranged(ranks), link, end, prefix);
    let network = pose(file, asked, work)?;
    repair_answer(prefix_pair(&network, ranks, link, end, prefix, work))
}

// The same with a table of the file's distances, which is only read, in place of the work area.
pub fn prefix_repair_with(
    file: &[u8],
    table: &[u32],
    ranks: &[u8],
    link: usize,
    end: usize,
    prefix: usize,
) -> Result<Repair, Refusal>
    ensures { repair_of result ≡ answer_to (ask_prefix_with file.now table.now ranks.now link end prefix) }
{
    let asked = prefix_asked(arranged(ranks), link, end, prefix);
    let network = pose_with(file, asked, table)?;
    repair_answer(prefix_pair(&network, ranks, link, end, prefix, table))
}

// The answer of a call for a space.
fn ask_space(
    file: &[u8],
    work: &mut [u32],
    link: usize,
    end: usize,
    which: Which,
) -> Result<u64, Refusal>
    ensures { Answered (ask_space (space_named which) file.now (length work.old) link end) (space_answer result) work.old work.new }
{
    let asked = Asked {
        call: Call::Space,
        buffer: 0,
        ranked: false,
        link,
        end,
        prefix: 0,
    };
    let links = pose_links(file, asked, work)?;
    Ok(space_in(which, &links, link, end, work))
}

// P space: the routers that S avoids the link on the way to.
pub fn p_space(file: &[u8], work: &mut [u32], link: usize, end: usize) -> Result<u64, Refusal>
    ensures { Answered (ask_space p_space file.now (length work.old) link end) (space_answer result) work.old work.new }
{
    ask_space(file, work, link, end, Which::P)
}

// Extended P space: the routers that some first hop of S avoids the link on the way to.
pub fn extended_p_space(
    file: &[u8],
    work: &mut [u32],
    link: usize,
    end: usize,
) -> Result<u64, Refusal>
    ensures { Answered (ask_space extended_p file.now (length work.old) link end) (space_answer result) work.old work.new }
{
    ask_space(file, work, link, end, Which::ExtendedP)
}

// Q space: the routers that avoid the link on the way to E.
pub fn q_space(file: &[u8], work: &mut [u32], link: usize, end: usize) -> Result<u64, Refusal>
    ensures { Answered (ask_space q_space file.now (length work.old) link end) (space_answer result) work.old work.new }
{
    ask_space(file, work, link, end, Which::Q)
}
