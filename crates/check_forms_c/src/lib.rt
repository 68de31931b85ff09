// The two forms of the check of a block for the benchmark, which is no Rattle program: the call of `check_forms` as a C function of the same
// name, with the same clause. A crate that exports functions is no library to other crates.
#![tactic(auto)]

ghost use Rattle.std.specs.Prelude.{◌≡◌};
ghost use Rattle.check_forms.specs.FirstBad.{first_bad};

// The first block whose check is not the one that it ends with, or the number of whole blocks: word by word where `words`, by numbers of
// eight bytes otherwise.
#[unsafe(no_mangle)]
pub extern "C" fn check_forms_first_bad(file: &[u8], words: bool) -> usize
    ensures { result ≡ first_bad file.now }
{
    check_forms::check_forms_first_bad(file, words)
}
