// The network file's reader: judges a file by rows 1 to 9 of document 01, in order, and hands over the network that it holds.
#![tactic(auto)]

ghost use Rattle.std.specs.Prelude.{◌≡◌, IfOk};
ghost use Rattle.std.proofs.Math.Option.{none};
ghost use Rattle.lfa.specs.File.{network_of};
ghost use Rattle.lfa.specs.Question.{loading};
ghost use Rattle.lfa.specs.Refusal.{file_returned, file_refusal, first_row};
ghost use Rattle.lfa.specs.Answer.{answer_to, network_loaded};
ghost use Rattle.block.specs.Judged.{block_rows, fault_decided};
ghost use Rattle.network_file.specs.Struct.{struct_of, links_struct_of};
ghost use Rattle.network_file.specs.Load.{fault_row, answer_of, verdict_decided};

use block::{BlockFault, judge_blocks};
use entry::{judge_links, judge_prefixes};
use link::fill_links;
use metric::columns::Links;
use network::Network;
use prefix::network_of;

mod entry;
mod link;
mod mask;
pub mod network;
mod place;
mod prefix;

// Why a file is turned away: rows 1 to 9, each with the block, link or prefix that it names, or the number of blocks needed.
#[derive(Clone, Copy)]
pub enum Fault {
    Length,
    Check(usize),
    Head,
    BlockCount(usize),
    Block(usize),
    Link(usize),
    ParallelLink(usize),
    Prefix(usize),
    RouterTwice(usize),
}

// What turns the blocks away turns the file away.
impl From<BlockFault> for Fault {
    ghost from_gives = { λ given fault. fault_row fault ≡ fault_decided given };

    #[tactic(auto, unfolding(block::specs::Judged::fault_decided, crate::specs::Load::fault_row))]
    fn from(fault: BlockFault) -> Fault {
        match fault {
            BlockFault::Length => Fault::Length,
            BlockFault::Check(i) => Fault::Check(i),
            BlockFault::Head => Fault::Head,
            BlockFault::BlockCount(n) => Fault::BlockCount(n),
            BlockFault::Block(i) => Fault::Block(i),
        }
    }
}

// Judges a file that rows 1 to 5 pass and hands over its links. The columns are read once: rows 6 and 7 judge what is handed over.
fn load_entries(file: &[u8]) -> Result<Links, Fault>
    requires { first_row (file_returned file.now) block_rows ≡ none }
    ensures row { verdict_decided result ≡ file_refusal file.now }
    ensures links { IfOk result (λ links. links ≡ links_struct_of (network_of file.now)) }
{
    let links = fill_links(file);
    judge_links(&links)?;
    judge_prefixes(file, &links)?;
    Ok(links)
}

// Judges a file by all its rows and hands over its links. Rows 6 to 9 are tried only where rows 1 to 5 pass.
fn judge_file(file: &[u8]) -> Result<Links, Fault>
    ensures row { verdict_decided result ≡ file_refusal file.now }
    ensures links { IfOk result (λ links. links ≡ links_struct_of (network_of file.now)) }
{
    judge_blocks(file)?;
    load_entries(file)
}

// The verdict on a file.
pub fn judge(file: &[u8]) -> Result<(), Fault>
    ensures { verdict_decided result ≡ file_refusal file.now }
{
    judge_file(file)?;
    Ok(())
}

// Judges a file and hands over its links.
pub fn load_links(file: &[u8]) -> Result<Links, Fault>
    ensures answer { answer_of result ≡ answer_to (loading file.now) }
    ensures links { IfOk result (λ links. links ≡ links_struct_of (network_loaded file.now)) }
{
    judge_file(file)
}

// Judges a file and hands over its network.
#[tactic(auto, using(crate::proofs::LoadLaws::verdict_answers, crate::proofs::LoadLaws::accepted_answers, crate::proofs::LoadLaws::accepted_network, crate::proofs::LoadLaws::accepted_sized, crate::proofs::LoadLaws::accepted_prefixes), unfolding(crate::specs::Load::verdict_decided))]
pub fn load(file: &[u8]) -> Result<Network, Fault>
    ensures answer { answer_of result ≡ answer_to (loading file.now) }
    ensures network { IfOk result (λ network. network ≡ struct_of (network_loaded file.now)) }
{
    let links = judge_file(file)?;
    Ok(network_of(file, &links))
}
