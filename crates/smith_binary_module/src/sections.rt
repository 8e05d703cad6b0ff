ghost use Rattle.std.specs.Prelude.{◌≡◌, ◌⊎◌, length, OnOk, IfErr};
ghost use Rattle.std.specs.List.{zip};
ghost use Rattle.smith_binary.specs.Spelling.{IsUnsignedIn};
ghost use Rattle.smith_binary.specs.Spelling.Spelling.{any};
ghost use Rattle.smith_binary.specs.Faults.{IsFault};
ghost use Rattle.smith_binary.specs.Pieces.{Writes, IsListIn};
ghost use Rattle.smith_binary_sections.specs.Types.{IsRecGroupWrittenIn};
ghost use Rattle.smith_binary_sections.specs.Instructions.{IsIndexIn};
ghost use Rattle.smith_binary_sections.specs.Entities.{IsTagTypeIn, IsMemoryTypeIn};
ghost use Rattle.smith_binary_sections.specs.Imports.{IsImportGroupIn};
ghost use Rattle.smith_binary_sections.specs.Definitions.{IsGlobalIn, IsTableWrittenIn};
ghost use Rattle.smith_binary_sections.specs.Exports.{IsExportIn};
ghost use Rattle.smith_binary_sections.specs.Elements.{IsElemWrittenIn};
ghost use Rattle.smith_binary_sections.specs.Data.{IsDataWrittenIn};
ghost use Rattle.smith_binary_sections.specs.Long.{IsLongContent};
ghost use Rattle.smith_binary_sections.specs.Sections.{IsSectionIfIn};
ghost use Rattle.smith_binary_sections.specs.Modules.{IsStartSectionIn};
ghost use Rattle.smith_binary_module.specs.Contents.{defined, contents_of};
ghost use Rattle.smith_binary_module.specs.Layout.{is_filled, writes_types, writes_imports};
ghost use Rattle.smith_binary_module.specs.Layout.{writes_data_count};
ghost use Rattle.smith_binary_module.specs.TooLong.{IsTooLong};

use smith_binary::{EncodeError, Sink};
use smith_binary_sections::{
    Count, Encode, Globals, Groups, Listed, Plain, Tables, Tags, Zipped, write_section_if,
};
use wasm_smith::Module;

// Returns whether there is an item.
fn is_filled<T>(items: &[T]) -> bool
    ensures { result ≡ is_filled items.now }
{
    !items.is_empty()
}

// Returns the last `count` items of an index space: the defined ones.
fn defined_items<T>(space: &[T], count: usize) -> &[T]
    ensures { result.now ≡ defined count space.now }
{
    let (_, defined) = space.split_at(space.len().saturating_sub(count));
    defined
}

// Returns whether the type section is written.
fn writes_types(module: &Module) -> bool
    ensures { result ≡ writes_types «module».now }
{
    module.should_encode_types() || is_filled(module.rec_groups())
}

// Returns whether the import section is written.
fn writes_imports(module: &Module) -> bool
    ensures { result ≡ writes_imports «module».now }
{
    module.should_encode_imports() || is_filled(module.imports())
}

// Returns whether the data count section is written.
fn writes_data_count(module: &Module) -> bool
    ensures { result ≡ writes_data_count «module».now }
{
    module.config().bulk_memory_enabled && is_filled(module.data())
}

/// Writes the type section.
pub(crate) fn write_types(module: &Module, sink: &mut Sink) -> Result<(), EncodeError>
    ensures writes { OnOk result (Writes (λ s. IsSectionIfIn s (writes_types «module».now) 1
        (IsListIn s (IsRecGroupWrittenIn s) (contents_of «module».now).types)) sink.old sink.new) }
    ensures fault { IfErr result (IsFault (IsTooLong «module».now)) }
{
    let groups = Listed {
        writer: Groups {
            types: module.types(),
        },
        items: module.rec_groups(),
    };
    write_section_if(writes_types(module), 1, &groups, sink)
}

/// Writes the import section.
pub(crate) fn write_imports(module: &Module, sink: &mut Sink) -> Result<(), EncodeError>
    ensures writes { OnOk result (Writes (λ s. IsSectionIfIn s (writes_imports «module».now) 2
        (IsListIn s (IsImportGroupIn s) «module».now.imports)) sink.old sink.new) }
    ensures fault { IfErr result (IsFault (IsTooLong «module».now)) }
{
    let imports = Listed {
        writer: Plain,
        items: module.imports(),
    };
    write_section_if(writes_imports(module), 2, &imports, sink)
}

/// Writes the function section.
pub(crate) fn write_functions(module: &Module, sink: &mut Sink) -> Result<(), EncodeError>
    ensures writes { OnOk result
        (Writes (λ s. IsSectionIfIn s (is_filled (defined «module».now.num_defined_funcs «module».now.funcs))
        3 (IsListIn s (IsIndexIn s) (contents_of «module».now).functions)) sink.old sink.new) }
    ensures fault { IfErr result (IsFault (IsTooLong «module».now)) }
{
    let functions = Listed {
        writer: Plain,
        items: defined_items(module.funcs(), module.num_defined_funcs()),
    };
    write_section_if(is_filled(functions.items), 3, &functions, sink)
}

/// Writes the table section.
pub(crate) fn write_tables(module: &Module, sink: &mut Sink) -> Result<(), EncodeError>
    ensures writes { OnOk result (Writes
        (λ s. IsSectionIfIn s (is_filled «module».now.defined_tables) 4 (IsListIn s (IsTableWrittenIn s) (zip (defined
        (length «module».now.defined_tables) «module».now.tables) «module».now.defined_tables)))
        sink.old sink.new) }
    ensures fault { IfErr result (IsFault (IsTooLong «module».now)) }
{
    let initialisers = module.defined_tables();
    let tables = Zipped {
        writer: Tables,
        firsts: defined_items(module.tables(), initialisers.len()),
        seconds: initialisers,
    };
    write_section_if(is_filled(initialisers), 4, &tables, sink)
}

/// Writes the memory section.
pub(crate) fn write_memories(module: &Module, sink: &mut Sink) -> Result<(), EncodeError>
    ensures writes { OnOk result (Writes
        (λ s. IsSectionIfIn s (is_filled (defined «module».now.num_defined_memories «module».now.memories)) 5
        (IsListIn s (IsMemoryTypeIn s) (contents_of «module».now).memories)) sink.old sink.new) }
    ensures fault { IfErr result (IsFault (IsTooLong «module».now)) }
{
    let memories = Listed {
        writer: Plain,
        items: defined_items(module.memories(), module.num_defined_memories()),
    };
    write_section_if(is_filled(memories.items), 5, &memories, sink)
}

/// Writes the tag section.
pub(crate) fn write_tags(module: &Module, sink: &mut Sink) -> Result<(), EncodeError>
    ensures writes { OnOk result
        (Writes (λ s. IsSectionIfIn s (is_filled (defined «module».now.num_defined_tags «module».now.tags))
        13 (IsListIn s (IsTagTypeIn s) (contents_of «module».now).tags)) sink.old sink.new) }
    ensures fault { IfErr result (IsFault (IsTooLong «module».now)) }
{
    let tags = Listed {
        writer: Tags,
        items: defined_items(module.tags(), module.num_defined_tags()),
    };
    write_section_if(is_filled(tags.items), 13, &tags, sink)
}

/// Writes the global section.
pub(crate) fn write_globals(module: &Module, sink: &mut Sink) -> Result<(), EncodeError>
    ensures writes { OnOk result (Writes (λ s. IsSectionIfIn s (is_filled «module».now.defined_globals) 6
        (IsListIn s (IsGlobalIn s) (contents_of «module».now).globals)) sink.old sink.new) }
    ensures fault { IfErr result (IsFault (IsTooLong «module».now)) }
{
    let definitions = module.defined_globals();
    let globals = Zipped {
        writer: Globals,
        firsts: defined_items(module.globals(), definitions.len()),
        seconds: definitions,
    };
    write_section_if(is_filled(definitions), 6, &globals, sink)
}

/// Writes the export section.
pub(crate) fn write_exports(module: &Module, sink: &mut Sink) -> Result<(), EncodeError>
    ensures writes { OnOk result (Writes (λ s. IsSectionIfIn s (is_filled «module».now.exports) 7
        (IsListIn s (IsExportIn s) «module».now.exports)) sink.old sink.new) }
    ensures fault { IfErr result (IsFault (IsTooLong «module».now)) }
{
    let exports = Listed {
        writer: Plain,
        items: module.exports(),
    };
    write_section_if(is_filled(exports.items), 7, &exports, sink)
}

/// Writes the start section.
pub(crate) fn write_start(module: &Module, sink: &mut Sink) -> Result<(), EncodeError>
    ensures writes { OnOk result (Writes (λ s. IsStartSectionIn s «module».now.start) sink.old sink.new) }
    ensures fault { IfErr result (IsFault (IsTooLong «module».now)) }
{
    match module.start() {
        Some(index) => write_section_if(true, 8, &index, sink),
        None => Ok(()),
    }
}

/// Writes the element section.
pub(crate) fn write_elems(module: &Module, sink: &mut Sink) -> Result<(), EncodeError>
    ensures writes { OnOk result (Writes (λ s. IsSectionIfIn s (is_filled «module».now.elems) 9
        (IsListIn s (IsElemWrittenIn s) «module».now.elems)) sink.old sink.new) }
    ensures fault { IfErr result (IsFault (IsTooLong «module».now)) }
{
    let elems = Listed {
        writer: Plain,
        items: module.elems(),
    };
    write_section_if(is_filled(elems.items), 9, &elems, sink)
}

/// Writes the data count section.
pub(crate) fn write_data_count(module: &Module, sink: &mut Sink) -> Result<(), EncodeError>
    ensures writes { OnOk result (Writes (λ s. IsSectionIfIn s (writes_data_count «module».now) 12
        (IsUnsignedIn s 32 (length «module».now.datas))) sink.old sink.new) }
    ensures fault { IfErr result (IsFault (IsTooLong «module».now)) }
{
    let count = Count(module.data().len());
    write_section_if(writes_data_count(module), 12, &count, sink)
}

/// Writes the code section, whose content is `bodies`.
pub(crate) fn write_bodies<B: Encode>(
    module: &Module,
    bodies: &B,
    sink: &mut Sink,
) -> Result<(), EncodeError>
    ensures writes { OnOk result (Writes
        (λ s. IsSectionIfIn s (is_filled «module».now.code) 10 (B.spells s bodies.now)) sink.old sink.new) }
    ensures fault { IfErr result
        (IsFault (B.is_long bodies.now ⊎ IsLongContent (B.spells any bodies.now))) }
{
    write_section_if(is_filled(module.code()), 10, bodies, sink)
}

/// Writes the data section.
pub(crate) fn write_datas(module: &Module, sink: &mut Sink) -> Result<(), EncodeError>
    ensures writes { OnOk result (Writes (λ s. IsSectionIfIn s (is_filled «module».now.datas) 11
        (IsListIn s (IsDataWrittenIn s) «module».now.datas)) sink.old sink.new) }
    ensures fault { IfErr result (IsFault (IsTooLong «module».now)) }
{
    let datas = Listed {
        writer: Plain,
        items: module.data(),
    };
    write_section_if(is_filled(datas.items), 11, &datas, sink)
}
