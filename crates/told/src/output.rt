// Printing. std's `println!` would do as well, but reads the number of an error besides, so that a program would assume one function of the
// C library more.
ghost use Rattle.std.specs.Prelude.{Some};
ghost use Rattle.told.specs.Texts.{kept_text};

use std::fmt;
use std::fmt::{Display, Write};

// The standard output. What cannot be written is left out.
#[derive(Drop)]
struct Output;

impl fmt::Write for Output {
    fn write_str(&mut self, text: &str) -> fmt::Result {
        io::write_all(1, text.as_bytes());
        Ok(())
    }
}

// Prints a text. That it is printed no clause can say; what its bytes are, the `output` of its type says.
pub fn print<D: Display + Drop>(text: D) {
    let mut output = Output;
    let _ = output.write(text);
}

// Prints each item after a space. That they are printed no clause can say.
pub fn print_each<T: Display>(items: &[T]) {
    for item in items {
        print(format_args!(" {item}"));
    }
}

// Whether all that is spoken of is as it was, told by a word.
#[derive(Clone, Copy, Drop)]
pub struct Kept(pub bool);

impl Display for Kept {
    ghost output = { λ x. Some (kept_text x.0) };

    fn fmt<W: Write>(&self, f: &mut fmt::Formatter<W>) -> fmt::Result {
        let word = if self.0 { "kept" } else { "changed" };
        write!(f, "{word}")
    }
}
