ghost use Rattle.std.specs.Prelude.{◌≡◌, false, ℕ, None, List};
ghost use Rattle.smith_config.specs.declared.config.Config.{Config};
ghost use Rattle.smith_binary_program.specs.Valid.{IsValidBinary};
ghost use Rattle.smith_wrong.specs.Wrong.{IsTwin};
ghost use Rattle.smith_request.specs.CanonicalNans.{has_canonical_nans};
ghost use Rattle.smith_request.specs.Output.{IsBinaryOf};
ghost use Rattle.smith_request.specs.Requests.{IsBinary};
ghost use Rattle.smith_request.specs.Shaped.{IsShapedBinary};
ghost use Rattle.smith_request.specs.ValidFiles.{IsValidFile};
ghost use Rattle.smith_request.specs.declared.additions.Additions.{Additions};
ghost use Rattle.smith_request.specs.declared.request.Request.{Request};
ghost use Rattle.smith_request.specs.declared.shaped.ShapeFiles.{ShapeFiles};

/// States that the bytes that [`output`], [`binary`] and [`Request::write_shaped`] write in the binary
/// format are a valid program, and no other one: without their custom sections, which they have only if
/// the configuration has them.
///
/// [`output`]: crate::output
/// [`binary`]: crate::binary
/// [`Request::write_shaped`]: crate::Request::write_shaped
pub fn binaries_are_valid()
    ensures of_a_configuration { (config : Config) (additions : Additions)
        (input bytes left : List ℕ) → IsBinaryOf config additions input bytes left
        → IsValidFile bytes }
    ensures without_customs { (config : Config) (additions : Additions)
        (input bytes left : List ℕ) → config.generate_custom_sections ≡ false
        → IsBinaryOf config additions input bytes left → IsValidBinary bytes }
    ensures of_a_text { (text input bytes : List ℕ) → IsBinary text input bytes
        → IsValidFile bytes }
    ensures of_a_text_without_customs { (text input bytes : List ℕ)
        → (h : IsBinary text input bytes) → h.config.generate_custom_sections ≡ false
        → IsValidBinary bytes }
    ensures of_shapes { (files : ShapeFiles) (request : Request) (input bytes : List ℕ)
        → IsShapedBinary files request input bytes → IsValidFile bytes }
{}

/// States that the file of which an invalid one is made is one that [`output`] writes in the binary format
/// for the same configuration and input, without additions, if the configuration has no custom sections
/// and no canonical NaNs.
///
/// [`output`]: crate::output
pub fn twins_are_binaries()
    ensures { (config : Config) (input left twin : List ℕ) → config.generate_custom_sections ≡ false
        → has_canonical_nans config ≡ false → IsTwin config input left twin
        → IsBinaryOf config (record { fuel = None; is_observed = false }) input twin left }
{}
