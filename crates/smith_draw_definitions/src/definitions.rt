ghost use Rattle.std.specs.Prelude.{◌≡◌, false, IfErr, OnOk, All};
ghost use Rattle.smith_bytes.specs.Source.{KeepsPieces};
ghost use Rattle.smith_types.specs.Floats.{HasNoFloat};
ghost use Rattle.smith_types.specs.EntitySpaces.{spaces_in};
ghost use Rattle.smith_draw_types.specs.KeptGrounds.{AreKeptGrounds};
ghost use Rattle.smith_draw_definitions.specs.Definitions.{definitions_at};
ghost use Rattle.smith_bytes.specs.Steps.{Returns, is_memory};
ghost use Rattle.smith_draw_definitions.specs.Defined.{nothing_defined, drawn_beside, MayDefine};
ghost use Rattle.smith_draw_definitions.specs.Defined.{MayRefuseDefined, AreDefinedMore, HaveNoFloats};

use crate::funcs::{define_funcs, note_defined};
use crate::globals::define_globals;
use crate::memories::define_memories;
use crate::reference_scopes::{reference_scope, reference_scope_of_imports};
use crate::tables::define_tables;
use crate::tags::define_tags;
use smith_bytes::{Error, Unstructured};
use smith_config::Config;
use smith_draw_types::KeptGrounds;
use smith_types::{ConstInstr, EntitySpaces, Items, TypeSpace};
use std::alloc::Global;

/// The definitions of a module: the numbers of tags, functions and memories, and the initialisers
/// of tables and globals.
#[derive(Drop)]
pub struct Definitions {
    /// The number of defined tags.
    pub num_tags: usize,
    /// The number of defined functions.
    pub num_funcs: usize,
    /// The initialiser of each defined table, or `None`.
    pub tables: Items<Option<Items<ConstInstr>>>,
    /// The number of defined memories.
    pub num_memories: usize,
    /// The index and the initialiser of each defined global.
    pub globals: Items<(u32, Items<ConstInstr>)>,
}

impl Definitions {
    /// Creates empty definitions. Does not allocate.
    pub fn none(alloc: Global) -> Self
        ensures { result ≡ nothing_defined }
    {
        Definitions {
            num_tags: 0,
            num_funcs: 0,
            tables: Items::new(alloc),
            num_memories: 0,
            globals: Items::new(alloc),
        }
    }
}

/// Defines tags, functions, tables, memories and globals, in this order, after the entities of
/// `spaces`. Of each kind there are then at least the minimum of `config`, and at most the maximum
/// of `config` or the number before, whichever is greater. An entity of `spaces` that `definitions`
/// does not count is imported. See the standard, section Validation, Modules.
///
/// Requires `config` to be sanitised and to pass its check. Requires `types` to be valid, at least
/// `min_types` and fewer than 2^32. Requires the entities of `spaces` to be valid over `types`,
/// fewer than 2^32 of each kind, and to need only enabled features for their numbers. Requires
/// `definitions` to count no more entities than exist in `spaces`, and `grounds` to record the heap
/// types that the functions of `spaces` ground. Each defined function is noted in `grounds`.
///
/// # Errors
///
/// - `Unmet(Tags)` or `Unmet(Funcs)` if `spaces` has fewer than the minimum and no type is suitable
///   for another.
/// - `EmptyChoose` if no expression has the type of an initialiser. This requires a field of a type
///   whose reference type is not nullable and, with `non_nullable_enabled`, not grounded.
#[tactic(auto, unfolding(crate::specs::Definitions::definitions_at))]
pub fn define(
    alloc: Global,
    config: &Config,
    types: &TypeSpace,
    spaces: &mut EntitySpaces,
    definitions: &mut Definitions,
    grounds: &mut KeptGrounds,
    u: &mut Unstructured<'_>,
) -> Result<(), Error>
    requires may { MayDefine config.now types.now (spaces_in spaces.old) definitions.old }
    requires kept { AreKeptGrounds (drawn_beside config.now types.now.types
        (spaces_in spaces.old) definitions.old) grounds.old }
    ensures exact { Returns is_memory (λ _. ((spaces_in spaces.new, definitions.new), u.new)) result
        (definitions_at config.now types.now.types (spaces_in spaces.old) definitions.old u.old) }
    ensures defined { OnOk result (AreDefinedMore config.now types.now
        (spaces_in spaces.old) definitions.old (spaces_in spaces.new) definitions.new) }
    ensures kept { OnOk result (AreKeptGrounds (drawn_beside config.now types.now.types
        (spaces_in spaces.new) definitions.new) grounds.new) }
    ensures floats { config.now.allow_floats ≡ false → All HasNoFloat types.now.types
        → HaveNoFloats (spaces_in spaces.old) definitions.old
        → OnOk result (HaveNoFloats (spaces_in spaces.new) definitions.new) }
    ensures refusal { IfErr result (MayRefuseDefined config.now
        (drawn_beside config.now types.now.types (spaces_in spaces.old) definitions.old)) }
    ensures left { KeepsPieces u.old u.new }
{
    let tags_before = spaces.tags.len();
    let funcs_before = spaces.funcs.len();
    let memories_before = spaces.memories.len();
    let globals_before = spaces.globals.len();
    let globals_defined = definitions.globals.len();
    let imported_funcs = funcs_before - definitions.num_funcs;
    let imported_globals = globals_before - globals_defined;
    define_tags(config, types, &mut spaces.tags, u)?;
    define_funcs(config, types, &mut spaces.funcs, u)?;
    let func_types = spaces.funcs.as_slice();
    note_defined(config, types, func_types, funcs_before, grounds);
    let scope = reference_scope(types, func_types, imported_funcs, &[], 0);
    let drawn = grounds.scope(config, &scope);
    let globals = spaces.globals.as_slice();
    let imported = reference_scope_of_imports(
        types,
        func_types,
        imported_funcs,
        globals,
        imported_globals,
    );
    let initials = &mut definitions.tables;
    let tables = &mut spaces.tables;
    define_tables(alloc, config, &imported, &drawn, tables, initials, u)?;
    define_memories(config, &mut spaces.memories, u)?;
    define_globals(
        alloc,
        config,
        types,
        func_types,
        imported_funcs,
        imported_globals,
        &drawn,
        &mut spaces.globals,
        &mut definitions.globals,
        u,
    )?;
    definitions.num_tags += spaces.tags.len() - tags_before;
    definitions.num_funcs += spaces.funcs.len() - funcs_before;
    definitions.num_memories += spaces.memories.len() - memories_before;
    Ok(())
}
