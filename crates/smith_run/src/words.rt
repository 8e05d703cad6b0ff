ghost use Rattle.std.specs.Prelude.{◌≡◌, map, string_bytes, codes};
ghost use Rattle.std.specs.Str.{bytes_eq};
ghost use Rattle.smith_run.specs.Run.{status_of};
ghost use Rattle.smith_run.specs.Words.{drawn_by};

use crate::run::{Outcome, RunFault};

/// Returns whether `words`, the words after the program's name, select a configuration that is
/// drawn from the input. Returns `None` if `words` are not accepted.
pub fn words(words: &[String]) -> Option<bool>
    ensures { result ≡ drawn_by (map string_bytes words.now) }
{
    match words {
        [] => Some(false),
        [word] => is_arbitrary(word).then_some(true),
        _ => None,
    }
}

fn is_arbitrary(word: &String) -> bool
    ensures { result ≡ bytes_eq (string_bytes word.now) (codes "arbitrary") }
{
    word.as_str() == "arbitrary"
}

/// Returns the exit status of the program: 0 if a module was drawn, else 1.
pub fn status(ended: &Result<Outcome, RunFault>) -> u8
    ensures { result ≡ status_of ended.now }
{
    match ended {
        Ok(Outcome::Made) => 0,
        _ => 1,
    }
}
