use crate::memory::tries::{is_left, is_refused_first};
use smith_bytes::{Error, Unstructured, unique_kebab_string, unique_string, unique_url};
use smith_rows_memory::{Attempt, Ended};
use std::alloc::{AllocError, Global};
use std::collections::HashSet;
use std::test::Fail;

#[derive(Clone, Copy)]
enum Kind {
    Text,
    Kebab,
    Url,
}

// The names before the draw. The set is full: one more name makes it grow.
const NAMES: [&str; 3] = ["a", "b", "a-name-of-many-letters-that-exists-already"];

// The drawn name, of at most fifteen characters.
const INPUT: &[u8] = &[
    15, 97, 98, 99, 100, 101, 102, 103, 104, 105, 106, 107, 108, 109, 110, 111, 112,
];

// A name that is drawn, distinct from `names`. `copy` has the names before the draw.
#[derive(Drop)]
struct Naming {
    kind: Kind,
    names: HashSet<String>,
    copy: HashSet<String>,
}

impl Attempt for Naming {
    fn run(&mut self, alloc: Global) -> Ended {
        let mut u = Unstructured::new(INPUT);
        let answer = draw_name(alloc, self.kind, &mut self.names, &mut u);
        let ended = outcome_of(answer, &self.names, &self.copy);
        if is_left(&u, INPUT) {
            ended
        } else {
            Ended::Wrong("the source is no piece of the input")
        }
    }
}

// Returns the outcome of the draw that answered `answer` and left `names`, which were `before`.
fn outcome_of(
    answer: Result<String, Error>,
    names: &HashSet<String>,
    before: &HashSet<String>,
) -> Ended {
    match answer {
        Ok(_) if has_one_more(names, before) => Ended::Given,
        Err(Error::Memory) if names == before => Ended::Refused,
        _ => Ended::Wrong("the names are others"),
    }
}

// Returns whether `names` are those of `before` and one more.
fn has_one_more(names: &HashSet<String>, before: &HashSet<String>) -> bool {
    names.len() == before.len().saturating_add(1) && before.is_subset(names)
}

fn draw_name(
    alloc: Global,
    kind: Kind,
    names: &mut HashSet<String>,
    u: &mut Unstructured<'_>,
) -> Result<String, Error> {
    match kind {
        Kind::Text => unique_string(alloc, 100, names, u),
        Kind::Kebab => unique_kebab_string(alloc, 100, names, u),
        Kind::Url => unique_url(alloc, 100, names, u),
    }
}

fn names_before(alloc: Global) -> Result<HashSet<String>, AllocError> {
    let mut names = HashSet::new(alloc);
    for name in &NAMES {
        let _ = names.insert(String::from_str(alloc, name)?)?;
    }
    Ok(names)
}

fn try_kind(alloc: Global, kind: Kind) -> Result<(), Fail> {
    let mut naming = Naming {
        kind,
        names: names_before(alloc)?,
        copy: names_before(alloc)?,
    };
    is_refused_first(alloc, &mut naming)
}

#[test]
fn names(rt: HostRuntime) -> Result<(), Fail> {
    try_kind(rt.alloc(), Kind::Text)?;
    try_kind(rt.alloc(), Kind::Kebab)?;
    try_kind(rt.alloc(), Kind::Url)
}
