ghost use Rattle.std.specs.Prelude.{◌≡◌, ◌↔◌, IsTrue, All, MatchOption, take};
ghost use Rattle.smith_types.specs.Syntax.FeatureBits.{features_in};
ghost use Rattle.smith_instr.specs.Enabled.{has_features};
ghost use Rattle.smith_decode.specs.Definitions.{null_of, null_type};
ghost use Rattle.smith_decode.specs.Forms.{
  AreFormsEnabled,
  AreItemsEnabled,
  AreMemoriesEnabled,
  AreNamedEnabled,
  AreReferencesEnabled,
  AreStatedEnabled,
  AreTablesEnabled,
  Each,
  HasBodyFeatures,
  HasInstrFeatures,
  HasTypeFeatures,
  IsBlockTypeEnabled,
  IsBodyEnabled,
  IsCastEnabled,
  IsCountEnabled,
  IsDataModeEnabled,
  IsElementModeEnabled,
  IsExprEnabled,
  IsExtendedEnabled,
  IsFirstOff,
  IsInstrEnabled,
  IsKindEnabled,
  IsMemArgEnabled,
  IsMemoryNameEnabled,
  IsOffAt,
  IsTableNameEnabled,
  forms_of,
};

use crate::bodies::{Body, LocalRun};
use crate::data::{DataMode, DataSegment};
use crate::definitions::{GlobalDefinition, TableDefinition};
use crate::elements::{ElementItems, ElementMode, ElementSegment};
use crate::locations::Place;
use crate::modules::Module;
use crate::type_forms::{
    EnabledForm, is_global_type_enabled, is_heap_type_enabled, is_ref_type_enabled,
    is_table_type_enabled, is_val_type_enabled,
};
use smith_binary_read::{Export, TagDefinition};
use smith_instr::{BlockType, BranchCast, Instr, MemArg, MemoryInstr, ReferenceInstr, TableInstr};
use smith_types::{ExportKind, HeapType, InstructionKinds, Items, RefType, WasmFeatures};
use smith_validity::{Predicate, all_hold};

/// Tests whether `features` enable an instruction of an expression of constants.
#[derive(Clone, Copy)]
struct EnabledConstant {
    features: WasmFeatures,
}

impl Predicate<Instr> for EnabledForm {
    ghost use Rattle.smith_decode.specs.Forms.{IsInstrEnabled};
    ghost use Rattle.smith_types.specs.Syntax.FeatureBits.{features_in};

    ghost meaning = { λ form instruction. IsInstrEnabled (features_in form.features) instruction };

    fn holds(&self, item: &Instr) -> bool {
        has_features(self.features, item)
            && are_stated_enabled(*self, item)
            && are_named_enabled(self.features, item)
    }
}

impl Predicate<Instr> for EnabledConstant {
    ghost use Rattle.smith_decode.specs.Forms.{IsConstantEnabled};
    ghost use Rattle.smith_types.specs.Syntax.FeatureBits.{features_in};

    ghost meaning = { λ form instruction. IsConstantEnabled (features_in form.features) instruction };

    fn holds(&self, item: &Instr) -> bool {
        let form = EnabledForm {
            features: self.features,
        };
        form.holds(item) && is_extended_enabled(self.features, item)
    }
}

impl Predicate<Items<Instr>> for EnabledForm {
    ghost use Rattle.smith_decode.specs.Forms.{IsExprEnabled};
    ghost use Rattle.smith_types.specs.Syntax.FeatureBits.{features_in};

    ghost meaning = { λ form expression. IsExprEnabled (features_in form.features) expression };

    fn holds(&self, item: &Items<Instr>) -> bool {
        is_expr_enabled(self.features, item.as_slice())
    }
}

impl Predicate<TableDefinition> for EnabledForm {
    ghost use Rattle.smith_decode.specs.Forms.{IsTableEnabled};
    ghost use Rattle.smith_types.specs.Syntax.FeatureBits.{features_in};

    ghost meaning = { λ form table. IsTableEnabled (features_in form.features) table };

    fn holds(&self, item: &TableDefinition) -> bool {
        is_table_type_enabled(self.features, item.ty)
            && (is_null_of(item.ty.element_type, item.initial.as_slice())
                || (self.features.contains(WasmFeatures::GC)
                    && is_expr_enabled(self.features, item.initial.as_slice())))
    }
}

impl Predicate<TagDefinition> for EnabledForm {
    ghost use Rattle.smith_decode.specs.Forms.{IsTagEnabled};
    ghost use Rattle.smith_types.specs.Syntax.FeatureBits.{features_in};

    ghost meaning = { λ form tag. IsTagEnabled (features_in form.features) tag };

    fn holds(&self, _item: &TagDefinition) -> bool {
        self.features.contains(WasmFeatures::EXCEPTIONS)
    }
}

impl Predicate<GlobalDefinition> for EnabledForm {
    ghost use Rattle.smith_decode.specs.Forms.{IsGlobalEnabled};
    ghost use Rattle.smith_types.specs.Syntax.FeatureBits.{features_in};

    ghost meaning = { λ form global. IsGlobalEnabled (features_in form.features) global };

    fn holds(&self, item: &GlobalDefinition) -> bool {
        is_global_type_enabled(self.features, item.ty)
            && is_expr_enabled(self.features, item.initial.as_slice())
    }
}

impl Predicate<Export> for EnabledForm {
    ghost use Rattle.smith_decode.specs.Forms.{IsExportEnabled};
    ghost use Rattle.smith_types.specs.Syntax.FeatureBits.{features_in};

    ghost meaning = { λ form item. IsExportEnabled (features_in form.features) item };

    fn holds(&self, item: &Export) -> bool {
        is_kind_enabled(self.features, item.kind)
    }
}

impl Predicate<ElementSegment> for EnabledForm {
    ghost use Rattle.smith_decode.specs.Forms.{IsElementEnabled};
    ghost use Rattle.smith_types.specs.Syntax.FeatureBits.{features_in};

    ghost meaning = { λ form segment. IsElementEnabled (features_in form.features) segment };

    fn holds(&self, item: &ElementSegment) -> bool {
        are_items_enabled(*self, item.ty, &item.items)
            && is_element_mode_enabled(self.features, &item.mode)
    }
}

impl Predicate<DataSegment> for EnabledForm {
    ghost use Rattle.smith_decode.specs.Forms.{IsDataEnabled};
    ghost use Rattle.smith_types.specs.Syntax.FeatureBits.{features_in};

    ghost meaning = { λ form segment. IsDataEnabled (features_in form.features) segment };

    fn holds(&self, item: &DataSegment) -> bool {
        is_data_mode_enabled(self.features, &item.mode)
    }
}

impl Predicate<LocalRun> for EnabledForm {
    ghost use Rattle.smith_decode.specs.TypeForms.{IsValTypeEnabled};
    ghost use Rattle.smith_types.specs.Syntax.FeatureBits.{features_in};

    ghost meaning = { λ form run. IsValTypeEnabled (features_in form.features) run.ty };

    fn holds(&self, item: &LocalRun) -> bool {
        is_val_type_enabled(self.features, item.ty)
    }
}

impl Predicate<Body> for EnabledForm {
    ghost use Rattle.smith_decode.specs.Forms.{IsBodyEnabled};
    ghost use Rattle.smith_types.specs.Syntax.FeatureBits.{features_in};

    ghost meaning = { λ form body. IsBodyEnabled (features_in form.features) body };

    fn holds(&self, item: &Body) -> bool {
        all_hold(self, item.locals.as_slice()) && all_hold(self, item.instructions.as_slice())
    }
}

// Returns whether `features` enable `instruction`, apart from the types that it states.
#[tactic(auto, using(crate::proofs::FormLemmas::without_kinds))]
fn has_features(features: WasmFeatures, instruction: &Instr) -> bool
    ensures { result ≡ has_features (features_in features) instruction.now }
{
    instruction.is_enabled(features, InstructionKinds::all())
}

fn is_block_type_enabled(features: WasmFeatures, ty: BlockType) -> bool
    ensures { IsTrue result ↔ IsBlockTypeEnabled (features_in features) ty }
{
    match ty {
        BlockType::Value(value) => is_val_type_enabled(features, value),
        _ => true,
    }
}

fn is_cast_enabled(features: WasmFeatures, cast: BranchCast) -> bool
    ensures { IsTrue result ↔ IsCastEnabled (features_in features) cast }
{
    is_ref_type_enabled(features, cast.from) && is_ref_type_enabled(features, cast.to)
}

fn are_references_enabled(features: WasmFeatures, op: ReferenceInstr) -> bool
    ensures { IsTrue result ↔ AreReferencesEnabled (features_in features) op }
{
    match op {
        ReferenceInstr::Null(heap_type) => is_heap_type_enabled(features, heap_type),
        ReferenceInstr::Test(to) | ReferenceInstr::Cast(to) => is_ref_type_enabled(features, to),
        _ => true,
    }
}

// Returns whether the types that `instruction` states are enabled.
fn are_stated_enabled(form: EnabledForm, instruction: &Instr) -> bool
    ensures { IsTrue result ↔ AreStatedEnabled (features_in form.features) instruction.now }
{
    match instruction {
        Instr::Block(ty) | Instr::Loop(ty) | Instr::If(ty) => {
            is_block_type_enabled(form.features, *ty)
        }
        Instr::TryTable(ty, _) => is_block_type_enabled(form.features, *ty),
        Instr::BrOnCast(cast) | Instr::BrOnCastFail(cast) => is_cast_enabled(form.features, *cast),
        Instr::SelectTyped(values) => all_hold(&form, values.as_slice()),
        Instr::Reference(op) => are_references_enabled(form.features, *op),
        _ => true,
    }
}

fn is_memory_name_enabled(features: WasmFeatures, index: u32) -> bool
    ensures { IsTrue result ↔ IsMemoryNameEnabled (features_in features) index }
{
    index == 0 || features.contains(WasmFeatures::MULTI_MEMORY)
}

fn is_table_name_enabled(features: WasmFeatures, index: u32) -> bool
    ensures { IsTrue result ↔ IsTableNameEnabled (features_in features) index }
{
    index == 0 || features.contains(WasmFeatures::REFERENCE_TYPES)
}

fn is_mem_arg_enabled(features: WasmFeatures, at: MemArg) -> bool
    ensures { IsTrue result ↔ IsMemArgEnabled (features_in features) at }
{
    is_memory_name_enabled(features, at.memory)
        && (at.offset < 1 << 32 || features.contains(WasmFeatures::MEMORY64))
}

fn are_memories_enabled(features: WasmFeatures, op: MemoryInstr) -> bool
    ensures { IsTrue result ↔ AreMemoriesEnabled (features_in features) op }
{
    match op {
        MemoryInstr::Size(memory) | MemoryInstr::Grow(memory) | MemoryInstr::Fill(memory) => {
            is_memory_name_enabled(features, memory)
        }
        MemoryInstr::Copy { to, from } => {
            is_memory_name_enabled(features, to) && is_memory_name_enabled(features, from)
        }
        MemoryInstr::Init { memory, segment: _ } => is_memory_name_enabled(features, memory),
        MemoryInstr::DataDrop(_) => true,
    }
}

fn are_tables_enabled(features: WasmFeatures, op: TableInstr) -> bool
    ensures { IsTrue result ↔ AreTablesEnabled (features_in features) op }
{
    match op {
        TableInstr::Copy { to, from } => {
            is_table_name_enabled(features, to) && is_table_name_enabled(features, from)
        }
        TableInstr::Init { table, segment: _ } => is_table_name_enabled(features, table),
        _ => true,
    }
}

// Returns whether the memories and tables that `instruction` names are enabled.
fn are_named_enabled(features: WasmFeatures, instruction: &Instr) -> bool
    ensures { IsTrue result ↔ AreNamedEnabled (features_in features) instruction.now }
{
    match instruction {
        Instr::CallIndirect { table, ty: _ } => is_table_name_enabled(features, *table),
        Instr::ReturnCallIndirect { table, ty: _ } => is_table_name_enabled(features, *table),
        Instr::Table(op) => are_tables_enabled(features, *op),
        Instr::Memory(op) => are_memories_enabled(features, *op),
        Instr::Load(_, at) | Instr::Store(_, at) => is_mem_arg_enabled(features, *at),
        Instr::VectorLoad(_, at) | Instr::VectorStore(at) => is_mem_arg_enabled(features, *at),
        Instr::VectorLoadLane {
            log2_bytes: _,
            at,
            lane: _,
        } => is_mem_arg_enabled(features, *at),
        Instr::VectorStoreLane {
            log2_bytes: _,
            at,
            lane: _,
        } => is_mem_arg_enabled(features, *at),
        Instr::Atomic(_, at) => is_mem_arg_enabled(features, *at),
        _ => true,
    }
}

fn is_extended_enabled(features: WasmFeatures, instruction: &Instr) -> bool
    ensures { IsTrue result ↔ IsExtendedEnabled (features_in features) instruction.now }
{
    match instruction {
        Instr::Numeric(_) => features.contains(WasmFeatures::EXTENDED_CONST),
        _ => true,
    }
}

// Returns whether `features` enable the expression of constants `expression`.
fn is_expr_enabled(features: WasmFeatures, expression: &[Instr]) -> bool
    ensures { IsTrue result ↔ IsExprEnabled (features_in features) expression.now }
{
    all_hold(&EnabledConstant { features }, expression)
}

// Returns the heap type of the null that `instruction` produces, if it is one.
fn null_type(instruction: &Instr) -> Option<HeapType>
    ensures { result ≡ null_type instruction.now }
{
    match instruction {
        Instr::Reference(ReferenceInstr::Null(heap_type)) => Some(*heap_type),
        _ => None,
    }
}

// Returns whether `expression` is the null of `reference`.
fn is_null_of(reference: RefType, expression: &[Instr]) -> bool
    ensures { IsTrue result ↔ (expression.now ≡ null_of reference) }
{
    match expression {
        [only] => null_type(only) == Some(reference.heap_type),
        _ => false,
    }
}

fn is_kind_enabled(features: WasmFeatures, kind: ExportKind) -> bool
    ensures { IsTrue result ↔ IsKindEnabled (features_in features) kind }
{
    match kind {
        ExportKind::Tag => features.contains(WasmFeatures::EXCEPTIONS),
        _ => true,
    }
}

fn are_items_enabled(form: EnabledForm, ty: RefType, items: &ElementItems) -> bool
    ensures { IsTrue result ↔ AreItemsEnabled (features_in form.features) ty items.now }
{
    match items {
        ElementItems::Functions(_) => true,
        ElementItems::Expressions(expressions) => {
            form.features.contains(WasmFeatures::REFERENCE_TYPES)
                && is_ref_type_enabled(form.features, ty)
                && all_hold(&form, expressions.as_slice())
        }
    }
}

fn is_element_mode_enabled(features: WasmFeatures, mode: &ElementMode) -> bool
    ensures { IsTrue result ↔ IsElementModeEnabled (features_in features) mode.now }
{
    match mode {
        ElementMode::Passive | ElementMode::Declared => {
            features.contains(WasmFeatures::BULK_MEMORY)
        }
        ElementMode::Active { table, offset } => {
            is_table_name_enabled(features, *table) && is_expr_enabled(features, offset.as_slice())
        }
    }
}

fn is_data_mode_enabled(features: WasmFeatures, mode: &DataMode) -> bool
    ensures { IsTrue result ↔ IsDataModeEnabled (features_in features) mode.now }
{
    match mode {
        DataMode::Passive => features.contains(WasmFeatures::BULK_MEMORY),
        DataMode::Active { memory, offset } => {
            is_memory_name_enabled(features, *memory)
                && is_expr_enabled(features, offset.as_slice())
        }
    }
}

// Returns whether the form of the number of data segments is enabled.
fn is_count_enabled(features: WasmFeatures, count: Option<u32>) -> bool
    ensures { IsTrue result ↔ IsCountEnabled (features_in features) count }
{
    count.is_none() || features.contains(WasmFeatures::BULK_MEMORY)
}

// Returns the index of the first of `items` that doesn't satisfy `predicate`.
fn first_off<T, P: Predicate<T>>(predicate: &P, items: &[T]) -> Option<usize>
    ensures { MatchOption result (All (P.meaning predicate.now) items.now)
        (λ index. IsFirstOff (P.meaning predicate.now) items.now index) }
{
    for i in 0..items.len() {
        if !predicate.holds(&items[i]) {
            return Some(i);
        }
    }
    None
}

// Returns the index of the first item of `list` that doesn't satisfy `predicate`.
fn first_item_off<T, P: Predicate<T>>(predicate: &P, list: &Items<T>) -> Option<usize>
    ensures { MatchOption result (All (P.meaning predicate.now) list.now)
        (λ index. IsFirstOff (P.meaning predicate.now) list.now index) }
{
    first_off(predicate, list.as_slice())
}

// Returns whether `features` have those that some value type requires, or some instruction on
// references or aggregates.
fn have_types(features: WasmFeatures) -> bool
    ensures { IsTrue result → HasTypeFeatures (features_in features) }
{
    features.contains(WasmFeatures::REFERENCE_TYPES)
        && features.contains(WasmFeatures::FUNCTION_REFERENCES)
        && features.contains(WasmFeatures::GC)
        && features.contains(WasmFeatures::EXCEPTIONS)
        && features.contains(WasmFeatures::SIMD)
        && features.contains(WasmFeatures::SHARED_EVERYTHING_THREADS)
        && features.contains(WasmFeatures::CUSTOM_DESCRIPTORS)
}

// Returns whether `features` have all that some other instruction requires.
fn have_instructions(features: WasmFeatures) -> bool
    ensures { IsTrue result → HasInstrFeatures (features_in features) }
{
    features.contains(WasmFeatures::SATURATING_FLOAT_TO_INT)
        && features.contains(WasmFeatures::SIGN_EXTENSION)
        && features.contains(WasmFeatures::WIDE_ARITHMETIC)
        && features.contains(WasmFeatures::RELAXED_SIMD)
        && features.contains(WasmFeatures::BULK_MEMORY)
        && features.contains(WasmFeatures::MULTI_VALUE)
        && features.contains(WasmFeatures::TAIL_CALL)
        && features.contains(WasmFeatures::THREADS)
        && features.contains(WasmFeatures::MULTI_MEMORY)
        && features.contains(WasmFeatures::MEMORY64)
}

// Returns whether `features` have all that a body may require.
fn have_all(features: WasmFeatures) -> bool
    ensures { IsTrue result → HasBodyFeatures (features_in features) }
{
    have_types(features) && have_instructions(features)
}

// Returns the index of the first of `bodies` that isn't enabled. If all features that a body may
// require are on, it doesn't look at them.
fn first_body_off(form: EnabledForm, bodies: &Items<Body>) -> Option<usize>
    ensures { MatchOption result (All (IsBodyEnabled (features_in form.features)) bodies.now)
        (λ index. IsFirstOff (IsBodyEnabled (features_in form.features)) bodies.now index) }
{
    if have_all(form.features) {
        return None;
    }
    first_item_off(&form, bodies)
}

// Returns the first place up to the memories of `m` whose form is off.
fn early_off(form: EnabledForm, m: &Module) -> Option<Place>
    ensures { MatchOption result (Each (take 4 (forms_of (features_in form.features) m.now)))
        (λ place. IsOffAt (features_in form.features) m.now place) }
{
    if let Some(index) = first_item_off(&form, &m.types) {
        return Some(Place::Types(index));
    }
    if let Some(index) = first_item_off(&form, &m.imports) {
        return Some(Place::Imports(index));
    }
    if let Some(index) = first_item_off(&form, &m.tables) {
        return Some(Place::Table(index));
    }
    if let Some(index) = first_item_off(&form, &m.memories) {
        return Some(Place::Memory(index));
    }
    None
}

// Returns the first place from the tags to the exports of `m` whose form is off.
fn middle_off(form: EnabledForm, m: &Module) -> Option<Place>
    requires { Each (take 4 (forms_of (features_in form.features) m.now)) }
    ensures { MatchOption result (Each (take 7 (forms_of (features_in form.features) m.now)))
        (λ place. IsOffAt (features_in form.features) m.now place) }
{
    if let Some(index) = first_item_off(&form, &m.tags) {
        return Some(Place::Tag(index));
    }
    if let Some(index) = first_item_off(&form, &m.globals) {
        return Some(Place::Global(index));
    }
    if let Some(index) = first_item_off(&form, &m.exports) {
        return Some(Place::Export(index));
    }
    None
}

// Returns the first place from the element segments of `m` on whose form is off.
fn late_off(form: EnabledForm, m: &Module) -> Option<Place>
    requires { Each (take 7 (forms_of (features_in form.features) m.now)) }
    ensures { MatchOption result (AreFormsEnabled (features_in form.features) m.now)
        (λ place. IsOffAt (features_in form.features) m.now place) }
{
    if let Some(index) = first_item_off(&form, &m.elements) {
        return Some(Place::Element(index));
    }
    if !is_count_enabled(form.features, m.data_count) {
        return Some(Place::DataCount);
    }
    if let Some(index) = first_body_off(form, &m.bodies) {
        return Some(Place::Body(index));
    }
    if let Some(index) = first_item_off(&form, &m.datas) {
        return Some(Place::Data(index));
    }
    None
}

/// Returns the first place in `m` whose form `features` don't enable.
pub(crate) fn find_off(features: WasmFeatures, m: &Module) -> Option<Place>
    ensures { MatchOption result (AreFormsEnabled (features_in features) m.now)
        (λ place. IsOffAt (features_in features) m.now place) }
{
    let form = EnabledForm { features };
    if let Some(place) = early_off(form, m) {
        return Some(place);
    }
    if let Some(place) = middle_off(form, m) {
        return Some(place);
    }
    late_off(form, m)
}
