ghost use Rattle.std.specs.Prelude.{ℕ, Bool, List, [], ◌∷◌, Result, Ok, Err, true, false};
ghost use Rattle.std.specs.Fn.{CalledAtMut};
ghost use Rattle.smith_bytes.specs.declared.error.Error.{Error};
ghost use Rattle.smith_bytes.specs.Loop.{Turn, EndsAt, LoopRuns};

use smith_bytes::{Error, Unstructured, Why};

fn loops_without_a_call<'a, F: FnMut(&mut Unstructured<'a>) -> Result<bool, Error>>()
    ensures none_may_be { (f : F) (bytes : List ℕ) → LoopRuns F.FnMut 0 0 f bytes (Ok tt) bytes }
    ensures stopped_at_once { (f : F) → LoopRuns F.FnMut 0 5 f (0 ∷ 9 ∷ []) (Ok tt) (9 ∷ []) }
    ensures past_the_end { (f : F) → LoopRuns F.FnMut 0 5 f [] (Ok tt) [] }
    ensures none_may_be_and_a_byte_taken { (f : F) → ¬ LoopRuns F.FnMut 0 0 f (0 ∷ 9 ∷ []) (Ok tt) (9 ∷ []) }
{}

fn loops_of_one_call<'a, F: FnMut(&mut Unstructured<'a>) -> Result<bool, Error>>()
    ensures needed_and_full { (f f' : F) (bytes bytes' : List ℕ) → CalledAtMut F.FnMut f bytes (Ok true) f' bytes'
        → LoopRuns F.FnMut 1 1 f bytes (Ok tt) bytes' }
    ensures needed_and_stopped { (f f' : F) (bytes bytes' : List ℕ) → CalledAtMut F.FnMut f bytes (Ok true) f' (0 ∷ bytes')
        → LoopRuns F.FnMut 1 2 f bytes (Ok tt) bytes' }
    ensures needed_and_false { (f f' : F) (bytes bytes' : List ℕ) → CalledAtMut F.FnMut f bytes (Ok false) f' bytes'
        → LoopRuns F.FnMut 1 2 f bytes (Err (Error.IncorrectFormat Why.Loop)) bytes' }
    ensures asked_for_and_false { (f f' : F) (bytes bytes' : List ℕ) → CalledAtMut F.FnMut f bytes (Ok false) f' bytes'
        → LoopRuns F.FnMut 0 2 f (1 ∷ bytes) (Ok tt) bytes' }
    ensures error_is_handed_on { (f f' : F) (bytes bytes' : List ℕ) → CalledAtMut F.FnMut f bytes (Err Error.EmptyChoose) f' bytes'
        → LoopRuns F.FnMut 0 2 f (1 ∷ bytes) (Err Error.EmptyChoose) bytes' }
{}

fn turns_and_ends<'a, F: FnMut(&mut Unstructured<'a>) -> Result<bool, Error>>()
    ensures full { (f f' : F) (answer : Result Bool Error) (bytes bytes' : List ℕ) → ¬ Turn F.FnMut 0 2 2 f bytes answer f' bytes' }
    ensures not_asked_for { (f f' : F) (answer : Result Bool Error) (bytes bytes' : List ℕ) → ¬ Turn F.FnMut 0 2 1 f (0
        ∷ bytes) answer f' bytes' }
    ensures success_below_the_minimum { (f : F) (bytes bytes' : List ℕ) → ¬ EndsAt F.FnMut 2 5 1 f bytes (Ok tt) bytes' }
    ensures full_and_a_byte_taken { (f : F) → ¬ EndsAt F.FnMut 0 2 2 f (0 ∷ []) (Ok tt) [] }
{}
