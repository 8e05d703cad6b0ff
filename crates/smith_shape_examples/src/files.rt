// Which files are binary, what shape they have, and their faults.

ghost use Rattle.std.specs.Prelude.{◌≡◌, [], ◌∷◌, true, false};
ghost use Rattle.smith_binary_read.specs.declared.error.Reason.TheVariants as reason;
ghost use Rattle.smith_config.specs.declared.shape.Shape.{Shape};
ghost use Rattle.smith_decode.specs.ExampleModules.{after_preamble, two_supertypes};
ghost use Rattle.smith_decode.specs.declared.error.DecodeError.TheVariants as error;
ghost use Rattle.smith_shape.specs.ExampleShapes.{no_shape};
ghost use Rattle.smith_shape_file.specs.ShapeFiles.{IsShapeFile, IsShapeFileFault, is_binary_file};
ghost use Rattle.smith_shape_file.specs.declared.fault.ShapeFileFault.TheVariants as fault;
ghost use Rattle.smith_shape_examples.specs.ExampleFiles.{magic, refused_at, text};

fn binary_files()
    ensures magic { is_binary_file magic ≡ true }
    ensures module { is_binary_file (after_preamble []) ≡ true }
    ensures text { is_binary_file text ≡ false }
    ensures cut { is_binary_file (0x00 ∷ 0x61 ∷ 0x73 ∷ []) ≡ false }
    ensures nothing { is_binary_file [] ≡ false }
{}

fn shapes()
    ensures empty_module { IsShapeFile (after_preamble []) no_shape }
    ensures of_another_module { ¬ IsShapeFile (after_preamble []) (record no_shape { funcs = 0 ∷ [] }) }
    ensures of_no_module { (shape : Shape) → ¬ IsShapeFile magic shape }
    ensures of_several_supertypes { (shape : Shape) → ¬ IsShapeFile (after_preamble two_supertypes) shape }
    ensures of_a_text { (shape : Shape) → IsShapeFile text shape }
{}

fn faults()
    ensures cut_module { IsShapeFileFault magic (fault.Binary (error.Malformed 4 reason.UnexpectedEnd)) }
    ensures at_another_byte { ¬ IsShapeFileFault magic (fault.Binary (error.Malformed 3 reason.UnexpectedEnd)) }
    ensures of_a_module { ¬ IsShapeFileFault (after_preamble []) (fault.Binary (error.Malformed 8 reason.UnexpectedEnd)) }
    ensures several_supertypes { IsShapeFileFault (after_preamble two_supertypes) fault.Supertypes }
    ensures no_supertype { ¬ IsShapeFileFault (after_preamble []) fault.Supertypes }
    ensures in_a_text { IsShapeFileFault text (fault.Text (refused_at 8)) }
    ensures past_its_end { ¬ IsShapeFileFault text (fault.Text (refused_at 9)) }
    ensures binary_in_a_text { ¬ IsShapeFileFault text (fault.Binary (error.Malformed 0 reason.UnknownByte)) }
    ensures text_in_a_binary { ¬ IsShapeFileFault magic (fault.Text (refused_at 4)) }
{}
