// Demand 3, said of the calls for a link's repair and a prefix's repair and proved from their contracts alone: what is promised of
// document 01's answer is promised of what the calls return. The equations say what is answered to every other question.
#![tactic(auto)]

ghost use Rattle.std.specs.Prelude.{◌≡◌, length};
ghost use Rattle.lfa.specs.Question.{ask_link, ask_prefix, ask_link_with, ask_prefix_with};
ghost use Rattle.lfa.specs.Answer.{answer_to};
ghost use Rattle.lfa.specs.Contract.{Answered};
ghost use Rattle.answers.specs.Answer.{repair_of};
ghost use Rattle.demands.specs.Demand.{MeetsDemand3};

use answers::Repair;
use question::Refusal;

// The link repair question, and what demand 3 says of its answer.
#[tactic(auto, using(crate::specs::Demand::answer_meets))]
pub fn link_demand(
    file: &[u8],
    work: &mut [u32],
    ranks: &[u8],
    link: usize,
    end: usize,
) -> Result<Repair, Refusal>
    ensures { MeetsDemand3 (ask_link file.now (length work.old) ranks.now link end) (repair_of result)
        × Answered (ask_link file.now (length work.old) ranks.now link end) (repair_of result) work.old work.new }
{
    repair::link_repair(file, work, ranks, link, end)
}

// The same with a lent table of distances.
#[tactic(auto, using(crate::specs::Demand::answer_meets))]
pub fn link_demand_with(
    file: &[u8],
    table: &[u32],
    ranks: &[u8],
    link: usize,
    end: usize,
) -> Result<Repair, Refusal>
    ensures { MeetsDemand3 (ask_link_with file.now table.now ranks.now link end) (repair_of result)
        × (repair_of result ≡ answer_to (ask_link_with file.now table.now ranks.now link end)) }
{
    repair::link_repair_with(file, table, ranks, link, end)
}

// The prefix repair question, and what demand 3 says of its answer.
#[tactic(auto, using(crate::specs::Demand::answer_meets))]
pub fn prefix_demand(
    file: &[u8],
    work: &mut [u32],
    ranks: &[u8],
    link: usize,
    end: usize,
    prefix: usize,
) -> Result<Repair, Refusal>
    ensures { MeetsDemand3 (ask_prefix file.now (length work.old) ranks.now link end prefix) (repair_of result)
        × Answered (ask_prefix file.now (length work.old) ranks.now link end prefix) (repair_of result) work.old work.new }
{
    repair::prefix_repair(file, work, ranks, link, end, prefix)
}

// The same with a lent table of distances.
#[tactic(auto, using(crate::specs::Demand::answer_meets))]
pub fn prefix_demand_with(
    file: &[u8],
    table: &[u32],
    ranks: &[u8],
    link: usize,
    end: usize,
    prefix: usize,
) -> Result<Repair, Refusal>
    ensures { MeetsDemand3 (ask_prefix_with file.now table.now ranks.now link end prefix) (repair_of result)
        × (repair_of result ≡ answer_to (ask_prefix_with file.now table.now ranks.now link end prefix)) }
{
    repair::prefix_repair_with(file, table, ranks, link, end, prefix)
}
