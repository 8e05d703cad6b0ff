use crate::memory::tries::is_refused_first;
use smith_bytes::Error;
use smith_case::shapes::shape_named;
use smith_config::Shape;
use smith_rows_memory::{Attempt, Ended};
use smith_types::{CompositeInnerType, CompositeType, Items, StructType, SubType, TypeSpace};
use std::alloc::Global;
use std::ops::Range;
use std::test::Fail;

// Types that are pushed onto a space, the first of `chain`, in two groups.
#[derive(Clone, Copy)]
struct Pushes<'a> {
    chain: &'a [SubType],
}

// The pushes: whether each is of a group, and how many types and groups exist before it.
static PUSHES: [(bool, u32, usize); 7] = [
    (false, 0, 0),
    (false, 1, 0),
    (true, 2, 0),
    (false, 2, 1),
    (false, 3, 1),
    (false, 4, 1),
    (true, 5, 1),
];

// The types of each group.
const GROUPS: [Range<usize>; 2] = [0..2, 2..5];

impl Attempt for Pushes<'_> {
    fn run(&mut self, alloc: Global) -> Ended {
        let mut types = TypeSpace::new(alloc);
        let ended = push_all(alloc, self.chain, &mut types);
        drop(types);
        ended
    }
}

// Pushes all types and groups onto `types`, which is empty. Returns the outcome.
fn push_all(alloc: Global, chain: &[SubType], types: &mut TypeSpace) -> Ended {
    for (is_group, count, groups) in &PUSHES {
        match push(alloc, types, *is_group, *count) {
            Ok(()) => {}
            Err(Error::Memory) if is_start(chain, types, *count, *groups) => {
                return Ended::Refused;
            }
            Err(_) => return Ended::Wrong("the types are others"),
        }
    }
    whole(chain, types)
}

// Returns the outcome of all pushes.
fn whole(chain: &[SubType], types: &TypeSpace) -> Ended {
    if is_start(chain, types, 5, 2) {
        Ended::Given
    } else {
        Ended::Wrong("the types are others")
    }
}

// Creates an open struct type without fields, a subtype of `supertype` if there is one.
fn open_struct(alloc: Global, supertype: Option<u32>) -> SubType {
    SubType {
        is_final: false,
        supertype,
        composite_type: CompositeType {
            inner: CompositeInnerType::Struct(StructType {
                fields: Items::new(alloc),
            }),
            shared: false,
        },
    }
}

// Pushes a group, or the type `index`.
fn push(alloc: Global, types: &mut TypeSpace, is_group: bool, index: u32) -> Result<(), Error> {
    if is_group {
        return types.push_group();
    }
    let added = open_struct(alloc, index.checked_sub(1));
    if types.may_follow(&added) {
        let _ = types.push_type(added)?;
    }
    Ok(())
}

// Returns whether `types` has the first `count` types of `chain`, the first `groups` groups, and
// nothing else.
fn is_start(chain: &[SubType], types: &TypeSpace, count: u32, groups: usize) -> bool {
    types.types().len() == count as usize
        && types.rec_groups().len() == groups
        && GROUPS.starts_with(types.rec_groups())
        && chain.starts_with(types.types())
}

fn try_pushes(alloc: Global, shape: &Shape) -> Result<(), Fail> {
    let Some(group) = shape.groups.first() else {
        return Err(Fail::new("the shape has no group"));
    };
    let mut pushes = Pushes {
        chain: group.as_slice(),
    };
    is_refused_first(alloc, &mut pushes)
}

#[test]
fn types(rt: HostRuntime) -> Result<(), Fail> {
    let shape = shape_named(rt.alloc(), "63 structs, each below the one before")?;
    let tried = try_pushes(rt.alloc(), &shape);
    drop(shape);
    tried
}
