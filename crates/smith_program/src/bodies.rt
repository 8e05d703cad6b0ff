ghost use Rattle.std.specs.Prelude.{◌≡◌, ◌<◌, ◌≤◌, ◌+◌, ◌*◌, ◌++◌, ℕ, All, IfOk, IfErr, IsTrue};
ghost use Rattle.std.specs.Prelude.{Some, length, slice_get};
ghost use Rattle.smith_bytes.specs.Source.{KeepsPieces};
ghost use Rattle.smith_types.specs.Entities.{IsFuncAt};
ghost use Rattle.smith_types.specs.ValidTypes.{IsValTypeValid};
ghost use Rattle.smith_types.specs.Syntax.code.Code.{Code as Defined};
ghost use Rattle.smith_module_rules.specs.Module.{IsValid, module_features, module_imports};
ghost use Rattle.smith_instr.specs.Enabled.{IsEnabled};
ghost use Rattle.smith_instr.specs.Sequences.{IsBodyTyped};
ghost use Rattle.smith_program.specs.Bodies.{AreDrawnBodies, HasDefinedType, IsDrawnAt, IsOfBody};
ghost use Rattle.smith_program.specs.Bodies.{function_context};
ghost use Rattle.smith_program.specs.DrawnBodies.{bodies_at, budget_at, one_at};
ghost use Rattle.smith_program.specs.Named.{IsNamed};
ghost use Rattle.smith_body.specs.Bodies.{body_at};
ghost use Rattle.smith_body_leaves.specs.Leaves.{longest_leaf};
ghost use Rattle.smith_body.specs.Stops.{HasNeededStops};
ghost use Rattle.smith_body_nodes.specs.Scopes.{kinds_of_bodies, most};
ghost use Rattle.smith_body_nodes.specs.Traps.{IsTrapless};

use crate::program::Body;
use crate::references::{references_of, segment_types};
use smith_body::{Scope, draw_body};
use smith_bytes::{Error, Unstructured};
use smith_instr::Instr;
use smith_types::{Code, CompositeInnerType, FuncType, Instructions, Items, RefType, ValType};
use std::alloc::Global;
use wasm_smith::Module;

/// Draws a body for each function that `module` defines, except for bodies of raw bytes.
///
/// With `disallow_traps` of the configuration, only `unreachable` may trap, as for [`draw_body`].
/// Raw bytes stay as they are.
///
/// Requires `module` to be valid.
///
/// # Errors
///
/// Returns `Memory` if an allocation fails, and no other error.
pub fn draw_bodies(
    alloc: Global,
    module: &Module,
    u: &mut Unstructured<'_>,
) -> Result<Items<Body>, Error>
    requires valid { IsValid «module».now }
    ensures bodies { IfOk result (AreDrawnBodies «module».now) }
    ensures exact { IfOk result (λ bodies. bodies_at «module».now u.old ≡ (bodies, u.new)) }
    ensures refusal { IfErr result (λ e. e ≡ Error.Memory) }
    ensures left { KeepsPieces u.old u.new }
{
    let named = Named {
        elems: segment_types(alloc, module)?,
        references: references_of(alloc, module)?,
    };
    draw_each(alloc, module, &named, u)
}

/// The parts of the context of bodies that are computed from a module.
#[derive(Drop)]
pub(crate) struct Named {
    /// The type of each element segment.
    elems: Items<RefType>,
    /// The functions that `ref.func` may name.
    references: Items<u32>,
}

fn draw_each(
    alloc: Global,
    module: &Module,
    named: &Named,
    u: &mut Unstructured<'_>,
) -> Result<Items<Body>, Error>
    requires valid { IsValid «module».now }
    requires named { IsNamed «module».now named.now }
    ensures bodies { IfOk result (AreDrawnBodies «module».now) }
    ensures exact { IfOk result (λ bodies. bodies_at «module».now u.old ≡ (bodies, u.new)) }
    ensures refusal { IfErr result (λ e. e ≡ Error.Memory) }
    ensures left { KeepsPieces u.old u.new }
{
    let mut bodies = Items::with_capacity(alloc, module.code().len())?;
    for place in 0..module.code().len() {
        bodies.push(draw_one(alloc, module, named, place, u)?)?;
    }
    Ok(bodies)
}

/// Draws the body of the defined function at `place`.
fn draw_one(
    alloc: Global,
    module: &Module,
    named: &Named,
    place: usize,
    u: &mut Unstructured<'_>,
) -> Result<Body, Error>
    requires valid { IsValid «module».now }
    requires named { IsNamed «module».now named.now }
    requires inside { place < length «module».now.code }
    ensures body { IfOk result (λ body.
        (code : Defined) → slice_get «module».now.code place ≡ Some code
        → IsOfBody (IsDrawnAt «module».now place code) code body) }
    ensures exact { IfOk result (λ body.
        (code : Defined) → slice_get «module».now.code place ≡ Some code
        → one_at «module».now place code u.old ≡ (body, u.new)) }
    ensures refusal { IfErr result (λ e. e ≡ Error.Memory) }
    ensures left { KeepsPieces u.old u.new }
{
    let code = &module.code()[place];
    if let Instructions::Arbitrary(_) = code.instructions {
        return Ok(Body::Raw);
    }
    let function = defined_type(module, place);
    let budget = budget_at(module, place, u);
    let instructions = draw_instructions(alloc, module, named, function, code, budget, u)?;
    Ok(Body::Drawn(instructions))
}

/// Returns the budget of the body of the defined function at `place`: 8, and a fifth of its share of
/// the bytes left, but at most that of the configuration.
#[tactic(auto, unfolding(crate::specs::DrawnBodies::budget_at))]
fn budget_at(module: &Module, place: usize, u: &Unstructured<'_>) -> usize
    requires inside { place < length «module».now.code }
    ensures { result ≡ budget_at «module».now place u.now }
{
    let share = u.len() / (module.code().len() - place);
    module.config().max_instructions.min(8 + share / 5)
}

/// Returns the type of the defined function at `place`.
pub(crate) fn defined_type(module: &Module, place: usize) -> &FuncType
    requires valid { IsValid «module».now }
    requires inside { place < length «module».now.code }
    ensures { HasDefinedType «module».now place result.now }
{
    let imported = imported_funcs(module);
    let index = module.funcs()[imported + place];
    match &module.types()[index as usize].composite_type.inner {
        CompositeInnerType::Func(function) => function,
        _ => unreachable!(),
    }
}

/// Returns the number of imported functions.
fn imported_funcs(module: &Module) -> usize
    requires valid { IsValid «module».now }
    ensures imported { result ≡ length (module_imports «module».now).funcs }
{
    module.funcs().len() - module.num_defined_funcs()
}

/// Draws the instructions of a function of the type `function` with the locals of `code`, for
/// `budget`.
fn draw_instructions(
    alloc: Global,
    module: &Module,
    named: &Named,
    function: &FuncType,
    code: &Code,
    budget: usize,
    u: &mut Unstructured<'_>,
) -> Result<Items<Instr>, Error>
    requires valid { IsValid «module».now }
    requires named { IsNamed «module».now named.now }
    requires there { (index : ℕ) × IsFuncAt «module».now.types index function.now }
    requires locals { All
        (IsValTypeValid (module_features «module».now) (length «module».now.types))
        code.now.locals }

    // Validity, traps and bounds.
    ensures typed { IfOk result
        (IsBodyTyped (function_context «module».now function.now code.now.locals)) }
    ensures enabled { IfOk result
        (All (IsEnabled (module_features «module».now) (kinds_of_bodies «module».now.config))) }
    ensures trapless { IsTrue «module».now.config.disallow_traps → IfOk result (All IsTrapless) }
    ensures needed { 0 < budget → IfOk result (HasNeededStops «module».now.config
        (function_context «module».now function.now code.now.locals)) }
    ensures short { IfOk result (λ body. length body
        ≤ 1 + longest_leaf «module».now.config «module».now.types
        * (length function.now.results + most «module».now.types * budget)) }

    // The draw.
    ensures exact { IfOk result (λ body.
        body_at «module».now.config (function_context «module».now function.now code.now.locals)
        budget u.old ≡ (body, u.new)) }

    // Refusals and the source.
    ensures refusal { IfErr result (λ e. e ≡ Error.Memory) }
    ensures left { KeepsPieces u.old u.new }
{
    let locals = join_locals(alloc, function.params.as_slice(), code.locals.as_slice())?;
    let config = module.config();
    let scope = Scope {
        features: config.features(),
        config,
        types: module.type_space(),
        funcs: module.funcs(),
        imported_funcs: imported_funcs(module),
        tables: module.tables(),
        memories: module.memories(),
        globals: module.globals(),
        tags: module.tags(),
        elems: named.elems.as_slice(),
        datas: module.data().len(),
        references: named.references.as_slice(),
        locals: locals.as_slice(),
        params: function.params.len(),
        results: function.results.as_slice(),
    };
    draw_body(alloc, &scope, budget, u)
}

/// Returns the types of all locals: `params`, then `locals`.
pub(crate) fn join_locals(
    alloc: Global,
    params: &[ValType],
    locals: &[ValType],
) -> Result<Items<ValType>, Error>
    ensures joined { IfOk result (λ joined. joined ≡ params.now ++ locals.now) }
    ensures memory { IfErr result (λ e. e ≡ Error.Memory) }
{
    let mut joined = Items::from_slice(alloc, params)?;
    joined.extend_from_slice(locals)?;
    Ok(joined)
}
