ghost use Rattle.std.specs.Prelude.{◌≡◌, ◌⊎◌, [], IfOk, IfErr, OnOk};
ghost use Rattle.smith_binary.specs.Faults.{IsFault};
ghost use Rattle.smith_binary.specs.Pieces.{Writes};
ghost use Rattle.smith_binary.specs.Spelling.Spelling.{any, written};
ghost use Rattle.smith_binary_sections.specs.Long.{IsLongContent};
ghost use Rattle.smith_binary_sections.specs.Modules.{IsModule, IsModuleAround};
ghost use Rattle.smith_binary_sections.specs.Sections.{IsSectionIf};
ghost use Rattle.smith_binary_module.specs.Contents.{contents_of};
ghost use Rattle.smith_binary_module.specs.Layout.{is_filled, section_ids, HasSections};
ghost use Rattle.smith_binary_module.specs.Written.{IsFrontIn, IsMiddleIn, IsBackIn, IsWritten};
ghost use Rattle.smith_binary_module.specs.Written.{IsWrittenIn, AreOwnBodies, AreOwnBodiesIn};
ghost use Rattle.smith_binary_module.specs.TooLong.{IsTooLong};

use crate::sections::{
    write_bodies, write_data_count, write_datas, write_elems, write_exports, write_functions,
    write_globals, write_imports, write_memories, write_start, write_tables, write_tags,
    write_types,
};
use smith_binary::{EncodeError, Sink};
use smith_binary_sections::{Bodies, Encode, Listed, write_preamble};
use std::alloc::Global;
use wasm_smith::Module;

// Returns an empty sink for the bytes of `module`.
fn empty_sink(alloc: Global, module: &Module) -> Sink
    ensures { result ≡ record { bytes = []; least = «module».now.config.min_uleb_size } }
{
    Sink::new(alloc, module.config().min_uleb_size)
}

// Writes the sections up to the table section.
fn write_front(module: &Module, sink: &mut Sink) -> Result<(), EncodeError>
    ensures writes { OnOk result (Writes (λ s. IsFrontIn s «module».now) sink.old sink.new) }
    ensures fault { IfErr result (IsFault (IsTooLong «module».now)) }
{
    write_types(module, sink)?;
    write_imports(module, sink)?;
    write_functions(module, sink)?;
    write_tables(module, sink)
}

// Writes the sections from the memory section to the export section.
fn write_middle(module: &Module, sink: &mut Sink) -> Result<(), EncodeError>
    ensures writes { OnOk result (Writes (λ s. IsMiddleIn s «module».now) sink.old sink.new) }
    ensures fault { IfErr result (IsFault (IsTooLong «module».now)) }
{
    write_memories(module, sink)?;
    write_tags(module, sink)?;
    write_globals(module, sink)?;
    write_exports(module, sink)
}

// Writes the sections from the start section on, with `bodies` in the code section.
fn write_back<B: Encode>(module: &Module, bodies: &B, sink: &mut Sink) -> Result<(), EncodeError>
    ensures writes { OnOk result
        (Writes (λ s. IsBackIn s «module».now (B.spells s bodies.now)) sink.old sink.new) }
    ensures fault { IfErr result (IsFault
        (IsTooLong «module».now ⊎ (B.is_long bodies.now ⊎ IsLongContent (B.spells any bodies.now)))) }
{
    write_start(module, sink)?;
    write_elems(module, sink)?;
    write_data_count(module, sink)?;
    write_bodies(module, bodies, sink)?;
    write_datas(module, sink)
}

/// Encodes `module` in the binary format of the WebAssembly Core Specification 3.0 (chapter Binary
/// Format), into memory allocated from `alloc`.
///
/// A type or import section is written if the module's flag is set or the section isn't empty
/// (groups without types count). The number of data segments is stated before the bodies if there
/// is one and the configuration of the module enables bulk memory. Other sections are written if
/// they aren't empty.
///
/// An active segment names its table or memory only if that is not the first, or if its items have
/// a type that the short form can't state. So tools without bulk memory can read as many modules as
/// possible. A body that is not raw begins with the check of each counter of fuel, the last one
/// first.
///
/// Integers have as few bytes as possible, but unsigned ones at least as many as `min_uleb_size` of
/// the configuration, five at most; the indices in the checks are as short as possible. A nullable
/// reference to an abstract heap type that is not shared is that heap type alone.
///
/// # Errors
///
/// Returns `TooLong` if a list has 2^32 items or more, or a section or a body 2^32 bytes or more,
/// and `Memory` if an allocation fails.
pub fn encode(alloc: Global, module: &Module) -> Result<Vec<u8>, EncodeError>
    ensures spelled { IfOk result (λ bytes. IsModule (contents_of «module».now) bytes.items) }
    ensures sections { IfOk result (λ bytes. HasSections (section_ids «module».now) bytes.items) }
    ensures written { IfOk result (λ bytes.
        IsWritten «module».now (AreOwnBodies «module».now) bytes.items) }
    ensures spelling { IfOk result (λ bytes. let spelling = written «module».now.config.min_uleb_size
        in IsWrittenIn spelling «module».now (AreOwnBodiesIn spelling «module».now) bytes.items) }
    ensures fault { IfErr result (IsFault (IsTooLong «module».now)) }
{
    let bodies = Listed {
        writer: Bodies {
            counters: module.fuel_globals(),
        },
        items: module.code(),
    };
    encode_with_bodies(alloc, module, &bodies)
}

/// Encodes `module` as [`encode`] does, except for the code section, whose content is `bodies`. The
/// section is written if the module defines a function.
///
/// # Errors
///
/// Returns `TooLong` as [`encode`] does, or if `bodies` have a list of 2^32 items or more, or 2^32
/// bytes or more, and `Memory` if an allocation fails.
pub fn encode_with_bodies<B: Encode>(
    alloc: Global,
    module: &Module,
    bodies: &B,
) -> Result<Vec<u8>, EncodeError>
    ensures spelled { IfOk result (λ bytes. IsModuleAround (contents_of «module».now)
        (IsSectionIf (is_filled «module».now.code) 10 (B.spells any bodies.now)) bytes.items) }
    ensures sections { IfOk result (λ bytes. HasSections (section_ids «module».now) bytes.items) }
    ensures written { IfOk result (λ bytes.
        IsWritten «module».now (B.spells any bodies.now) bytes.items) }
    ensures spelling { IfOk result (λ bytes. let spelling = written «module».now.config.min_uleb_size
        in IsWrittenIn spelling «module».now (B.spells spelling bodies.now) bytes.items) }
    ensures fault { IfErr result (IsFault
        (IsTooLong «module».now ⊎ (B.is_long bodies.now ⊎ IsLongContent (B.spells any bodies.now)))) }
{
    let mut sink = empty_sink(alloc, module);
    write_preamble(&mut sink)?;
    write_front(module, &mut sink)?;
    write_middle(module, &mut sink)?;
    write_back(module, bodies, &mut sink)?;
    Ok(sink.into_vec())
}
