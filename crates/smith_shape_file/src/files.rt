ghost use Rattle.std.specs.Prelude.{◌≡◌, IfOk, IfErr};
ghost use Rattle.smith_shape_file.specs.ShapeFiles.{IsShapeFile, IsShapeFileFault, is_binary_file};

use crate::fault::ShapeFileFault;
use smith_config::Shape;
use smith_shape::{ShapeFault, read_shape};
use smith_shape_text::shape_of_text;
use std::alloc::Global;

/// The first bytes of a module in the binary format.
const MAGIC: &[u8; 4] = b"\0asm";

/// Returns whether `bytes` begin as a module in the binary format.
fn is_binary(bytes: &[u8]) -> bool
    ensures { result ≡ is_binary_file bytes.now }
{
    bytes.starts_with(MAGIC)
}

/// Returns the shape of the module that `bytes` spell, in the binary format if they begin with its
/// magic number, else in the text format.
///
/// # Errors
///
/// Returns the first fault, with its place. No clause states which faults a text has.
pub fn read_shape_file(alloc: Global, bytes: &[u8]) -> Result<Shape, ShapeFileFault>
    ensures ok { IfOk result (IsShapeFile bytes.now) }
    ensures refused { IfErr result (IsShapeFileFault bytes.now) }
{
    if is_binary(bytes) {
        match read_shape(alloc, bytes) {
            Ok(shape) => Ok(shape),
            Err(ShapeFault::Binary(error)) => Err(ShapeFileFault::Binary(error)),
            Err(ShapeFault::Supertypes) => Err(ShapeFileFault::Supertypes),
        }
    } else {
        match shape_of_text(alloc, bytes) {
            Ok(shape) => Ok(shape),
            Err(refusal) => Err(ShapeFileFault::Text(refusal)),
        }
    }
}
