// The answers of the calls as texts, for the programs that print them, and as one number.
#![tactic(auto)]

ghost use Rattle.std.specs.Prelude.{◌≡◌, ℕ, Some};
ghost use Rattle.lfa.specs.Answer.{Answer};
ghost use Rattle.told_answers.specs.Codes.{GivesCodes, code_of};
ghost use Rattle.told_answers.specs.Texts.{row_text, answer_text, pair_text, repair_text, set_text, played_text, routers_text, routed_text};

use answers::Repair;
use order::Pair;
use question::Refusal;
use refusal::{Row, question_row};
use route::Played;
use std::fmt;
use std::fmt::{Display, Write};
use told::{Kept, all_hold, print};

// A refusal: the number of the row that applies, and the value that it returns.
#[derive(Clone, Copy, Drop)]
pub struct Refused(pub Row);

impl Display for Refused {
    ghost output = { λ x. Some (row_text x.0) };

    fn fmt<W: Write>(&self, f: &mut fmt::Formatter<W>) -> fmt::Result {
        let number = self.0.number;
        let value = self.0.value;
        write!(f, "refused {number} {value}")
    }
}

// The fields of a pair.
#[derive(Clone, Copy, Drop)]
pub struct Fields(pub Pair);

impl Display for Fields {
    ghost output = { λ x. Some (pair_text x.0) };

    fn fmt<W: Write>(&self, f: &mut fmt::Formatter<W>) -> fmt::Result {
        let first = self.0.first;
        let endpoint = self.0.endpoint;
        let class = self.0.class;
        let cost = self.0.cost;
        write!(f, "{first} {endpoint} {class} {cost}")
    }
}

// What a call for a repair answers where it does not refuse.
#[derive(Clone, Copy, Drop)]
pub struct Repaired(pub Repair);

impl Display for Repaired {
    ghost output = { λ x. Some (repair_text x.0) };

    fn fmt<W: Write>(&self, f: &mut fmt::Formatter<W>) -> fmt::Result {
        match self.0 {
            Repair::Unreachable => write!(f, "unreachable"),
            Repair::Untouched => write!(f, "untouched"),
            Repair::Pair(pair) => {
                let fields = Fields(pair);
                write!(f, "pair {fields}")
            }
        }
    }
}

// What a call for a space answers where it does not refuse.
#[derive(Clone, Copy, Drop)]
pub struct Set(pub u64);

impl Display for Set {
    ghost output = { λ x. Some (set_text x.0) };

    fn fmt<W: Write>(&self, f: &mut fmt::Formatter<W>) -> fmt::Result {
        let set = self.0;
        write!(f, "set {set}")
    }
}

// What a call for a route answers where it does not refuse. The routers that it wrote come after this text.
#[derive(Clone, Copy, Drop)]
pub struct Route(pub Played);

impl Display for Route {
    ghost output = { λ x. Some (played_text x.0) };

    fn fmt<W: Write>(&self, f: &mut fmt::Formatter<W>) -> fmt::Result {
        match self.0 {
            Played::Unreachable => write!(f, "unreachable"),
            Played::Untouched => write!(f, "untouched"),
            Played::Written(count) => write!(f, "count {count} route"),
        }
    }
}

// An answer: a refusal, or what is told.
#[derive(Drop)]
struct Answered<T>(Result<T, Refusal>);

impl<T: Display> Display for Answered<T> {
    ghost output = { λ x. answer_text T.output x.0 };

    fn fmt<W: Write>(&self, f: &mut fmt::Formatter<W>) -> fmt::Result {
        match &self.0 {
            Ok(told) => write!(f, "{told}"),
            Err(refusal) => {
                let refused = Refused(question_row(*refusal));
                write!(f, "{refused}")
            }
        }
    }
}

// Prints an answer after a space. That it is printed no clause can say; its text is that of `Answered`.
pub fn print_answer<T: Display + Drop>(answer: Result<T, Refusal>) {
    let answer = Answered(answer);
    print(format_args!(" {answer}"));
}

// Routers, each after a space.
#[derive(Drop)]
struct Routers<'a>(&'a [u8]);

impl Display for Routers<'_> {
    ghost output = { λ x. Some (routers_text x.0.now) };

    fn fmt<W: Write>(&self, f: &mut fmt::Formatter<W>) -> fmt::Result {
        for router in self.0 {
            write!(f, " {router}")?;
        }
        Ok(())
    }
}

// The answer of a call for a route and what it left in the route buffer: the routers that it wrote, and whether every later byte still holds 255.
#[derive(Drop)]
struct Routed<'a> {
    answer: Result<Played, Refusal>,
    buffer: &'a [u8],
}

impl Display for Routed<'_> {
    ghost output = { λ x. Some (routed_text x.answer x.buffer.now) };

    fn fmt<W: Write>(&self, f: &mut fmt::Formatter<W>) -> fmt::Result {
        let count = match self.answer {
            Ok(Played::Written(count)) => count.min(self.buffer.len()),
            _ => 0,
        };
        let (routers, later) = self.buffer.split_at(count);
        let answer = Answered(self.answer.map(Route));
        let routers = Routers(routers);
        let kept = Kept(all_hold(later, &255));
        write!(f, "{answer}{routers} {kept}")
    }
}

// Prints the answer of a call for a route and what it left in the route buffer, after a space. That it is printed no clause can say; its text is
// that of `Routed`.
pub fn print_route(answer: Result<Played, Refusal>, buffer: &[u8]) {
    let routed = Routed { answer, buffer };
    print(format_args!(" {routed}"));
}

// The answer of a call for a repair as one number, another one for another answer. The lowest two bits are 0 for a refusal, whose code is told.
// A `usize` goes into a `u64` by `as`, since no `From` does that.
pub fn code<F: FnOnce(Row) -> u64>(answer: Result<Repair, Refusal>, refusal_code: F) -> u64
    requires { F.IsAlwaysCallable refusal_code }
    ensures { (told : Answer → ℕ) → GivesCodes (F.post refusal_code) told → result ≡ code_of told answer }
{
    match answer {
        Err(refusal) => refusal_code(question_row(refusal)),
        Ok(Repair::Unreachable) => 1,
        Ok(Repair::Untouched) => 2,
        Ok(Repair::Pair(pair)) => {
            let hop = (pair.first as u64) << 8;
            let endpoint = (pair.endpoint as u64) << 16;
            let class = u64::from(pair.class) << 24;
            let cost = u64::from(pair.cost) << 32;
            hop | endpoint | class | cost | 3
        }
    }
}
