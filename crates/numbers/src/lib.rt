// The answers of the calls as numbers: the kind, the number and value of a refusal, and the fields of a pair.
#![tactic(auto)]

ghost use Rattle.std.specs.Prelude.{◌≡◌};
ghost use Rattle.lfa.specs.Answer.{refused};
ghost use Rattle.network_file.specs.Load.{answer_of};
ghost use Rattle.question.specs.Turning.{refusal_answer};
ghost use Rattle.answers.specs.Answer.{filled_answer, space_answer, repair_of};
ghost use Rattle.route.specs.Answer.{played_of};
ghost use Rattle.numbers.specs.Numbers.{plain, numbers_of};

use answers::Repair;
use network_file::Fault;
use question::Refusal;
use refusal::{Row, file_row, question_row};
use route::Played;

// An answer. A field of which its kind does not speak is 0. The kinds: 0 refused, 1 accepted, 2 done, 3 unreachable, 4 untouched,
// 5 a set, 6 a pair, 7 a route.
#[repr(C)]
#[derive(Clone, Copy)]
pub struct Numbers {
    pub kind: u32,
    pub number: u32,
    pub value: u64,
    pub first: usize,
    pub endpoint: usize,
    pub class: u32,
    pub cost: u32,
}

// An answer without a pair.
#[tactic(auto, unfolding(crate::specs::Numbers::plain))]
fn plain(kind: u32, number: u32, value: u64) -> Numbers
    ensures { result ≡ plain kind number value }
{
    Numbers {
        kind,
        number,
        value,
        first: 0,
        endpoint: 0,
        class: 0,
        cost: 0,
    }
}

// A row of the table of refusals.
#[tactic(auto, unfolding(crate::specs::Numbers::numbers_of))]
fn row_numbers(row: Row) -> Numbers
    ensures { result ≡ numbers_of (refused row.number row.value) }
{
    plain(0, row.number, row.value as u64)
}

// A refused question.
fn refusal_numbers(refusal: Refusal) -> Numbers
    ensures { result ≡ numbers_of (refusal_answer refusal) }
{
    row_numbers(question_row(refusal))
}

// The verdict on a file.
#[tactic(auto, unfolding(crate::specs::Numbers::numbers_of, network_file::specs::Load::answer_of))]
pub fn verdict_numbers(verdict: Result<(), Fault>) -> Numbers
    ensures { result ≡ numbers_of (answer_of verdict) }
{
    match verdict {
        Ok(()) => plain(1, 0, 0),
        Err(fault) => row_numbers(file_row(fault)),
    }
}

// The answer of the call that fills the work area.
#[tactic(auto, unfolding(crate::specs::Numbers::numbers_of, answers::specs::Answer::filled_answer))]
pub fn filled_numbers(answer: Result<(), Refusal>) -> Numbers
    ensures { result ≡ numbers_of (filled_answer answer) }
{
    match answer {
        Ok(()) => plain(2, 0, 0),
        Err(refusal) => refusal_numbers(refusal),
    }
}

// The answer of a call for a space.
#[tactic(auto, unfolding(crate::specs::Numbers::numbers_of, answers::specs::Answer::space_answer))]
pub fn space_numbers(answer: Result<u64, Refusal>) -> Numbers
    ensures { result ≡ numbers_of (space_answer answer) }
{
    match answer {
        Ok(set) => plain(5, 0, set),
        Err(refusal) => refusal_numbers(refusal),
    }
}

// The answer of a repair call.
#[tactic(auto, unfolding(crate::specs::Numbers::numbers_of, answers::specs::Answer::repair_of))]
pub fn repair_numbers(answer: Result<Repair, Refusal>) -> Numbers
    ensures { result ≡ numbers_of (repair_of answer) }
{
    match answer {
        Err(refusal) => refusal_numbers(refusal),
        Ok(Repair::Unreachable) => plain(3, 0, 0),
        Ok(Repair::Untouched) => plain(4, 0, 0),
        Ok(Repair::Pair(pair)) => Numbers {
            kind: 6,
            number: 0,
            value: 0,
            first: pair.first,
            endpoint: pair.endpoint,
            class: pair.class,
            cost: pair.cost,
        },
    }
}

// The answer of a route call.
#[tactic(auto, unfolding(crate::specs::Numbers::numbers_of, route::specs::Answer::played_of))]
pub fn played_numbers(answer: Result<Played, Refusal>) -> Numbers
    ensures { result ≡ numbers_of (played_of answer) }
{
    match answer {
        Err(refusal) => refusal_numbers(refusal),
        Ok(Played::Unreachable) => plain(3, 0, 0),
        Ok(Played::Untouched) => plain(4, 0, 0),
        Ok(Played::Written(count)) => plain(7, 0, count as u64),
    }
}
