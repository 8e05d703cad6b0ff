//! The contents of a module after all definitions.

ghost use Rattle.std.specs.Prelude.{◌≡◌, [], None, false, IfOk, IfErr, All};
ghost use Rattle.smith_bytes.specs.Source.{KeepsPieces};
ghost use Rattle.smith_types.specs.Floats.{HasNoFloat};
ghost use Rattle.smith_types.specs.EntitySpaces.{spaces_in};
ghost use Rattle.smith_config.specs.Faults.{Passes};
ghost use Rattle.smith_config.specs.Sanitized.{IsSanitized};
ghost use Rattle.smith_draw_types.specs.KeptGrounds.{AreKeptGrounds};
ghost use Rattle.smith_bytes.specs.Steps.{Returns, is_memory};
ghost use Rattle.wasm_smith.specs.DrawnSteps.{AreExportsDrawn, drawn_next};
ghost use Rattle.smith_draw_definitions.specs.Defined.{drawn_beside};
ghost use Rattle.smith_module_rules.specs.Refusals.{AreShapesValid, MayRefuse};
ghost use Rattle.wasm_smith.specs.Contents.{MayHoldContents, MayRefuseContents};
ghost use Rattle.wasm_smith.specs.DrawnContents.{TellsImported, AreExportsMade, AreContents};
ghost use Rattle.wasm_smith.specs.DrawnContents.{HasGrantedContents, HasNoFloatContents};
ghost use Rattle.wasm_smith.specs.DrawnContents.{imported_in, after_exports_at};
ghost use Rattle.smith_draw_imports.specs.Imported.{spaces_of};

use crate::build::parts_so_far::PartsSoFar;
use crate::build::section_flag::draw_section_flag;
use crate::build::segment_spaces::segment_spaces;
use crate::build::segments::{Segments, draw_segments};
use smith_bytes::{Error, Unstructured};
use smith_config::Config;
use smith_draw_contents::{Exports, arbitrary_bodies, arbitrary_start};
use smith_draw_definitions::Definitions;
use smith_draw_imports::Imported;
use smith_draw_types::KeptGrounds;
use smith_types::{Code, ExportKind, Items, Name, TypeSpace};
use std::alloc::Global;

/// The exports, start function, segments and bodies of a module.
#[derive(Drop)]
pub(crate) struct Contents {
    /// The name of each export, and the kind and the index of its item.
    pub(crate) exports: Items<(Name, ExportKind, u32)>,
    /// The amount that the imports and the exports add to the type size of the module.
    pub(crate) type_size: u32,
    /// Whether a type section is written.
    pub(crate) encodes_types: bool,
    /// The index of the start function, or `None`.
    pub(crate) start: Option<u32>,
    /// The element and data segments.
    pub(crate) segments: Segments,
    /// The body of each defined function.
    pub(crate) code: Items<Code>,
}

impl Contents {
    /// Creates empty contents. Does not allocate.
    pub(crate) fn none(alloc: Global) -> Self
        ensures { result ≡ record {
          exports = [];
          type_size = 0;
          encodes_types = false;
          start = None;
          segments = record { elems = []; data_segments = [] };
          code = [];
        } }
    {
        Contents {
            exports: Items::new(alloc),
            type_size: 0,
            encodes_types: false,
            start: None,
            segments: Segments::none(alloc),
            code: Items::new(alloc),
        }
    }
}

/// Draws, after the exports `made`, whether a type section is written, a start function, segments
/// and bodies, in this order, over all imported and defined entities.
#[tactic(auto, unfolding(crate::specs::DrawnContents::after_exports_at))]
pub(crate) fn draw_after_exports(
    alloc: Global,
    config: &Config,
    types: &TypeSpace,
    imported: &Imported,
    definitions: &Definitions,
    grounds: &KeptGrounds,
    made: Exports,
    u: &mut Unstructured<'_>,
) -> Result<Contents, Error>
    requires may { MayHoldContents config.now types.now
        (spaces_of imported.now) imported.now.type_size }
    requires told { TellsImported (imported_in imported.now)
        (spaces_of imported.now) definitions.now }
    requires grounds { AreKeptGrounds (drawn_beside config.now types.now.types
        (spaces_of imported.now) definitions.now) grounds.now }
    requires made { AreExportsMade config.now types.now.types
        (spaces_of imported.now) imported.now.type_size made }

    // The draw.
    ensures exact { Returns is_memory (λ contents. (contents, u.new)) result (after_exports_at config.now
        types.now.types (imported_in imported.now) (spaces_of imported.now) made u.old) }
    ensures kept { IfOk result (AreContents config.now types.now.types (imported_in imported.now)
        (spaces_of imported.now) imported.now.type_size) }
    ensures exports { IfOk result (λ contents. contents.exports ≡ made.exports) }

    // Floats and references.
    ensures floats { config.now.allow_floats ≡ false → All HasNoFloat types.now.types
        → IfOk result HasNoFloatContents }
    ensures granted { IfOk result (HasGrantedContents config.now
        (drawn_beside config.now types.now.types (spaces_of imported.now) definitions.now)
        (spaces_of imported.now).tables) }

    // Refusals and the source.
    ensures refusal { IfErr result (MayRefuseContents config.now
        (drawn_beside config.now types.now.types (spaces_of imported.now) definitions.now)
        (spaces_of imported.now).tables) }
    ensures left { KeepsPieces u.old u.new }
{
    let encodes_types = draw_section_flag(types.types().len(), u);
    let start = arbitrary_start(config, types.types(), imported.spaces.funcs.as_slice(), u);
    let segments = draw_segments(alloc, config, types, imported, definitions, grounds, u)?;
    let imported_funcs = imported.spaces.funcs.len() - definitions.num_funcs;
    let imported_globals = imported.spaces.globals.len() - definitions.globals.len();
    let spaces = segment_spaces(types, &imported.spaces, imported_funcs, imported_globals);
    let code = arbitrary_bodies(alloc, config, &spaces, grounds, definitions.num_funcs, u)?;
    Ok(Contents {
        exports: made.exports,
        type_size: made.type_size,
        encodes_types,
        start,
        segments,
        code,
    })
}

/// Draws the contents after the exports `made`, as [`draw_after_exports`] does, over all parts of
/// `drawn`.
pub(crate) fn draw_contents(
    alloc: Global,
    config: &Config,
    drawn: &PartsSoFar,
    grounds: &KeptGrounds,
    made: Exports,
    u: &mut Unstructured<'_>,
) -> Result<Contents, Error>
    requires passes { Passes config.now }
    requires sanitized { IsSanitized config.now }
    requires valid { AreShapesValid config.now }
    requires drawn { AreExportsDrawn config.now drawn.now }
    requires grounds { AreKeptGrounds (drawn_next config.now drawn.now) grounds.now }
    requires made { AreExportsMade config.now drawn.now.types.types
        (spaces_in drawn.now.imported.spaces) drawn.now.imported.type_size made }

    // The draw.
    ensures exact { Returns is_memory (λ contents. (contents, u.new)) result
        (after_exports_at config.now drawn.now.types.types
        (imported_in drawn.now.imported) (spaces_in drawn.now.imported.spaces) made u.old) }
    ensures kept { IfOk result
        (AreContents config.now drawn.now.types.types (imported_in drawn.now.imported)
        (spaces_in drawn.now.imported.spaces) drawn.now.imported.type_size) }
    ensures exports { IfOk result (λ contents. contents.exports ≡ made.exports) }

    // Floats and references.
    ensures floats { config.now.allow_floats ≡ false → All HasNoFloat drawn.now.types.types
        → IfOk result HasNoFloatContents }
    ensures granted { IfOk result (HasGrantedContents config.now
        (drawn_next config.now drawn.now) drawn.now.imported.spaces.tables) }

    // Refusals and the source.
    ensures refusal { IfErr result (MayRefuse config.now) }
    ensures left { KeepsPieces u.old u.new }
{
    let imported = &drawn.imported;
    draw_after_exports(
        alloc,
        config,
        &drawn.types,
        imported,
        &drawn.definitions,
        grounds,
        made,
        u,
    )
}
