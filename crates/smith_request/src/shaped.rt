ghost use Rattle.std.specs.Prelude.{◌≡◌, IfOk, IfErr, OnOk};
ghost use Rattle.smith_request.specs.Shaped.{IsGiven, IsNoShape, IsShaped, IsUnshaped};
ghost use Rattle.smith_request.specs.Shaped.{IsShapedBinary, IsShapedRefusal, IsShapedText};
ghost use Rattle.smith_request.specs.declared.manner.Form.TheVariants.{Binary, Text};
ghost use Rattle.smith_text.specs.declared.module.Layout.{Layout as TextLayout};

use crate::manner::Form;
use crate::refusal::Refusal;
use crate::request::Request;
use smith_bytes::{Error, Which};
use smith_config::Shape;
use smith_shape_file::read_shape_file;
use std::alloc::Global;

/// The bytes of the shapes of a configuration. Each is a module in the binary or the text format, or
/// empty if there is no shape for its use. The fields are laid out as in C.
#[repr(C)]
#[derive(Clone, Copy)]
pub struct ShapeFiles<'s> {
    /// The imports to choose from.
    pub available_imports: &'s [u8],
    /// The exports of a module.
    pub exports: &'s [u8],
    /// The first types of a module, and all of its imports and exports.
    pub module_shape: &'s [u8],
}

/// Sets `shape` to the one that `bytes` are, unless there are none.
fn set_shape(
    alloc: Global,
    which: Which,
    bytes: &[u8],
    shape: &mut Option<Shape>,
) -> Result<(), Refusal>
    ensures ok { OnOk result (IsGiven bytes.now shape.old shape.new) }
    ensures refused { IfErr result (IsNoShape which bytes.now) }
{
    if bytes.is_empty() {
        return Ok(());
    }
    match read_shape_file(alloc, bytes) {
        Ok(read) => {
            *shape = Some(read);
            Ok(())
        }
        Err(fault) if fault.is_memory() => Err(Refusal::Module(Error::Memory)),
        Err(fault) => Err(Refusal::Shape(which, fault)),
    }
}

impl Request {
    /// Sets the shapes to those that `files` are, unless they are empty.
    fn set_shapes(&mut self, alloc: Global, files: &ShapeFiles<'_>) -> Result<(), Refusal>
        ensures ok { OnOk result (IsShaped files.now self.old self.new) }
        ensures refused { IfErr result (IsUnshaped files.now) }
    {
        let config = &mut self.config;
        set_shape(
            alloc,
            Which::AvailableImports,
            files.available_imports,
            &mut config.available_imports,
        )?;
        set_shape(alloc, Which::Exports, files.exports, &mut config.exports)?;
        set_shape(
            alloc,
            Which::ModuleShape,
            files.module_shape,
            &mut config.module_shape,
        )
    }

    /// Returns the request with the shapes that `files` are. An empty one leaves the shape that the
    /// request has.
    ///
    /// # Errors
    ///
    /// Returns `Shape` with the first use for which the bytes are no module, and their fault, or
    /// `Module` with `Memory`. Whether the configuration permits a shape is checked when a program is
    /// drawn.
    pub fn with_shapes(self, alloc: Global, files: &ShapeFiles<'_>) -> Result<Request, Refusal>
        ensures ok { IfOk result (IsShaped files.now self) }
        ensures refused { IfErr result (IsUnshaped files.now) }
    {
        let mut request = self;
        request.set_shapes(alloc, files).and(Ok(request))
    }

    /// Draws a program from `input` for the request with the shapes that `files` are, and writes it in
    /// the form `form`.
    ///
    /// # Errors
    ///
    /// Those of [`Request::with_shapes`] and of [`Request::write`].
    pub fn write_shaped(
        self,
        alloc: Global,
        files: &ShapeFiles<'_>,
        input: &[u8],
        form: Form,
    ) -> Result<Vec<u8>, Refusal>
        ensures binary { form ≡ Binary
            → IfOk result (λ bytes. IsShapedBinary files.now self input.now bytes.items) }
        ensures text { (layout : TextLayout) → form ≡ Text layout
            → IfOk result (λ bytes. IsShapedText files.now self input.now bytes.items) }
        ensures refused { IfErr result (IsShapedRefusal form files.now self input.now) }
    {
        match self.with_shapes(alloc, files) {
            Ok(request) => request.write(alloc, input, form),
            Err(refusal) => Err(refusal),
        }
    }
}
