// The answers of the repair part's calls, what a search found as one of them, and the size of a set that one of them tells.
#![tactic(auto)]

ghost use Rattle.std.specs.Prelude.{◌≡◌};
ghost use Rattle.lfa.specs.Space.{size_of};
ghost use Rattle.lfa.specs.Answer.{repair_answer};
ghost use Rattle.search.specs.Choice.{outcome_in, outcome_of_pair};
ghost use Rattle.answers.specs.Answer.{repair_of};

use order::Pair;
use question::Refusal;
pub use search::Repair;

// The answer of a repair call for a link: row 14 where no pair serves.
#[tactic(auto, unfolding(crate::specs::Answer::repair_of, question::specs::Turning::refusal_answer, question::specs::Turning::row_of, lfa::specs::Answer::refusal, lfa::specs::Answer::repair_answer))]
pub fn link_answer(found: Option<Pair>) -> Result<Repair, Refusal>
    ensures { repair_of result ≡ repair_answer (outcome_of_pair found) }
{
    match found {
        Some(pair) => Ok(Repair::Pair(pair)),
        None => Err(Refusal::NoPair),
    }
}

// The answer of a repair call for a prefix: row 14 where nothing was found.
#[tactic(auto, unfolding(crate::specs::Answer::repair_of, question::specs::Turning::refusal_answer, question::specs::Turning::row_of, lfa::specs::Answer::refusal, lfa::specs::Answer::repair_answer))]
pub fn repair_answer(found: Option<Repair>) -> Result<Repair, Refusal>
    ensures { repair_of result ≡ repair_answer (outcome_in found) }
{
    found.ok_or(Refusal::NoPair)
}

// The number of routers in a set.
#[tactic(auto, using(lfa::proofs::Laws::Set::size_ones))]
pub fn size(set: u64) -> u32
    ensures { result ≡ size_of set }
{
    u64::count_ones(set)
}
