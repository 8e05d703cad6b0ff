ghost use Rattle.std.specs.Prelude.{◌≡◌, [], IfOk, IfErr, All};
ghost use Rattle.smith_bytes.specs.Source.{KeepsPieces};
ghost use Rattle.smith_types.specs.Floats.{HasNoFloat};
ghost use Rattle.smith_draw_types.specs.KeptGrounds.{AreKeptGrounds};
ghost use Rattle.smith_draw_definitions.specs.Defined.{drawn_beside};
ghost use Rattle.wasm_smith.specs.Contents.{MayHoldContents, MayRefuseContents};
ghost use Rattle.wasm_smith.specs.DrawnContents.{TellsImported, AreSegmentsFit, HaveNoFloatItems};
ghost use Rattle.wasm_smith.specs.DrawnContents.{imported_in, all_segments_at};
ghost use Rattle.smith_config.specs.Granted.{HasGroundedItems, HasGroundedElements};
ghost use Rattle.smith_draw_imports.specs.Imported.{spaces_of};
ghost use Rattle.smith_bytes.specs.Steps.{Returns, is_memory};

use crate::build::segment_spaces::segment_spaces;
use smith_bytes::{Error, Unstructured};
use smith_config::Config;
use smith_draw_contents::{arbitrary_data, arbitrary_elements};
use smith_draw_definitions::Definitions;
use smith_draw_imports::Imported;
use smith_draw_types::KeptGrounds;
use smith_types::{DataSegment, ElementSegment, Items, TypeSpace};
use std::alloc::Global;

/// The segments of a module.
#[derive(Drop)]
pub(crate) struct Segments {
    /// The element segments.
    pub(crate) elems: Items<ElementSegment>,
    /// The data segments.
    pub(crate) data_segments: Items<DataSegment>,
}

impl Segments {
    /// Creates empty lists of segments. Does not allocate.
    pub(crate) fn none(alloc: Global) -> Self
        ensures { result ≡ record { elems = []; data_segments = [] } }
    {
        Segments {
            elems: Items::new(alloc),
            data_segments: Items::new(alloc),
        }
    }
}

/// Draws the element segments, then the data segments, over all imported and defined entities.
#[tactic(auto, unfolding(crate::specs::DrawnContents::all_segments_at))]
pub(crate) fn draw_segments(
    alloc: Global,
    config: &Config,
    types: &TypeSpace,
    imported: &Imported,
    definitions: &Definitions,
    grounds: &KeptGrounds,
    u: &mut Unstructured<'_>,
) -> Result<Segments, Error>
    requires may { MayHoldContents config.now types.now
        (spaces_of imported.now) imported.now.type_size }
    requires told { TellsImported (imported_in imported.now)
        (spaces_of imported.now) definitions.now }
    requires grounds { AreKeptGrounds (drawn_beside config.now types.now.types
        (spaces_of imported.now) definitions.now) grounds.now }

    // The draw.
    ensures exact { Returns is_memory (λ segments. (segments, u.new)) result (all_segments_at config.now
        types.now.types (imported_in imported.now) (spaces_of imported.now) u.old) }
    ensures fit { IfOk result (AreSegmentsFit config.now types.now.types (imported_in imported.now)
        (spaces_of imported.now)) }

    // Floats and references.
    ensures floats { All HasNoFloat types.now.types
        → IfOk result (λ segments. HaveNoFloatItems segments.elems) }
    ensures grounded { All (HasGroundedElements config.now
        (drawn_beside config.now types.now.types (spaces_of imported.now) definitions.now))
        (spaces_of imported.now).tables
        → IfOk result (λ segments. All (HasGroundedItems config.now
        (drawn_beside config.now types.now.types (spaces_of imported.now) definitions.now))
        segments.elems) }

    // Refusals and the source.
    ensures refusal { IfErr result (MayRefuseContents config.now
        (drawn_beside config.now types.now.types (spaces_of imported.now) definitions.now)
        (spaces_of imported.now).tables) }
    ensures left { KeepsPieces u.old u.new }
{
    let imported_funcs = imported.spaces.funcs.len() - definitions.num_funcs;
    let imported_globals = imported.spaces.globals.len() - definitions.globals.len();
    let spaces = segment_spaces(types, &imported.spaces, imported_funcs, imported_globals);
    let elems = arbitrary_elements(alloc, config, &spaces, grounds, u)?;
    let data_segments = arbitrary_data(alloc, config, &spaces, u)?;
    Ok(Segments {
        elems,
        data_segments,
    })
}
