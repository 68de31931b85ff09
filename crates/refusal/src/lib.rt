// Refusals as document 01 writes them, in two numbers, for the programs that print them.
#![tactic(auto)]

ghost use Rattle.std.specs.Prelude.{◌≡◌};
ghost use Rattle.lfa.specs.Answer.{refused};
ghost use Rattle.network_file.specs.Load.{fault_of};
ghost use Rattle.question.specs.Turning.{refusal_answer};

use network_file::Fault;
use question::Refusal;

// A row of the table of refusals: its number, and the value that it returns.
#[derive(Clone, Copy)]
pub struct Row {
    pub number: u32,
    pub value: usize,
}

fn numbered(number: u32, value: usize) -> Row
    ensures { refused result.number result.value ≡ refused number value }
{
    Row { number, value }
}

// The row that turns a file away.
#[tactic(auto, unfolding(network_file::specs::Load::fault_of, network_file::specs::Load::fault_row, lfa::specs::Answer::refusal, lfa::specs::Refusal::in_file, lfa::specs::Refusal::entry_of, lfa::specs::Refusal::file_number))]
pub fn file_row(fault: Fault) -> Row
    ensures { refused result.number result.value ≡ fault_of fault }
{
    match fault {
        Fault::Length => numbered(1, 0),
        Fault::Check(i) => numbered(2, i),
        Fault::Head => numbered(3, 0),
        Fault::BlockCount(n) => numbered(4, n),
        Fault::Block(i) => numbered(5, i),
        Fault::Link(k) => numbered(6, k),
        Fault::ParallelLink(k) => numbered(7, k),
        Fault::Prefix(p) => numbered(8, p),
        Fault::RouterTwice(p) => numbered(9, p),
    }
}

// The row that turns a question away.
#[tactic(auto, unfolding(question::specs::Turning::refusal_answer, question::specs::Turning::row_of, network_file::specs::Load::fault_of, lfa::specs::Answer::refusal, lfa::specs::Refusal::entry_of))]
pub fn question_row(refusal: Refusal) -> Row
    ensures { refused result.number result.value ≡ refusal_answer refusal }
{
    match refusal {
        Refusal::File(fault) => file_row(fault),
        Refusal::ShortArea(n) => numbered(10, n),
        Refusal::ShortBuffer(n) => numbered(11, n),
        Refusal::NoSuchLink(n) => numbered(12, n),
        Refusal::NoSuchPrefix(n) => numbered(13, n),
        Refusal::NoPair => numbered(14, 0),
        Refusal::BadRanks => numbered(15, 0),
        Refusal::WrongTable => numbered(18, 0),
    }
}
