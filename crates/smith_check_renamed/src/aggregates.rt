ghost use Rattle.std.specs.Prelude.{◌≡◌};
ghost use Rattle.smith_check_types.specs.TypeSections.{canonical_index};
ghost use Rattle.smith_check_renamed.specs.RenamedInstructions.{renamed_aggregate};

use smith_check_types::canonical_index;
use smith_instr::AggregateInstr;

// Returns an aggregate instruction by canonical indices.
#[rattlefmt::skip]
pub(crate) fn canonical_aggregate(indices: &[u32], op: AggregateInstr) -> AggregateInstr
    ensures { result ≡ renamed_aggregate (canonical_index indices.now) op }
{
    match op {
        AggregateInstr::StructNew(ty) => AggregateInstr::StructNew(canonical_index(indices, ty)),
        AggregateInstr::StructNewDefault(ty) => AggregateInstr::StructNewDefault(canonical_index(indices, ty)),
        AggregateInstr::StructGet {
            ty,
            field,
            extension,
        } => AggregateInstr::StructGet {
            ty: canonical_index(indices, ty),
            field,
            extension,
        },
        AggregateInstr::StructSet { ty, field } => AggregateInstr::StructSet { ty: canonical_index(indices, ty), field },
        AggregateInstr::ArrayNew(ty) => AggregateInstr::ArrayNew(canonical_index(indices, ty)),
        AggregateInstr::ArrayNewDefault(ty) => AggregateInstr::ArrayNewDefault(canonical_index(indices, ty)),
        AggregateInstr::ArrayNewFixed { ty, size } => AggregateInstr::ArrayNewFixed { ty: canonical_index(indices, ty), size },
        AggregateInstr::ArrayNewData { ty, segment } => AggregateInstr::ArrayNewData { ty: canonical_index(indices, ty), segment },
        AggregateInstr::ArrayNewElem { ty, segment } => AggregateInstr::ArrayNewElem { ty: canonical_index(indices, ty), segment },
        AggregateInstr::ArrayGet { ty, extension } => AggregateInstr::ArrayGet { ty: canonical_index(indices, ty), extension },
        AggregateInstr::ArraySet(ty) => AggregateInstr::ArraySet(canonical_index(indices, ty)),
        AggregateInstr::ArrayFill(ty) => AggregateInstr::ArrayFill(canonical_index(indices, ty)),
        AggregateInstr::ArrayCopy { to, from } => AggregateInstr::ArrayCopy {
            to: canonical_index(indices, to),
            from: canonical_index(indices, from),
        },
        AggregateInstr::ArrayInitData { ty, segment } => AggregateInstr::ArrayInitData { ty: canonical_index(indices, ty), segment },
        AggregateInstr::ArrayInitElem { ty, segment } => AggregateInstr::ArrayInitElem { ty: canonical_index(indices, ty), segment },
        _ => op,
    }
}
