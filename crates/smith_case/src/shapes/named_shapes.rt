use crate::fault::Fault;
use crate::shapes::checked_shapes::CHECKED_SHAPES;
use crate::shapes::parts::{or_unknown, with_parts};
use smith_config::Shape;
use smith_types::Items;
use std::alloc::Global;

// A line for each shape: its name, and its parts in the form that `add_part` reads.
const SHAPES: &str = "\
nothing:
a function without parameters and results: group func -> | func 0
a function of a number: group func i32 -> | func 0
a function with two results: group func -> i32,i64 | func 0
a struct of 21 fields: \
    group struct i8,i8,i8,i8,i8,i8,i8,i8,i8,i8,i8,i8,i8,i8,i8,i8,i8,i8,i8,i8,i8
a struct below a struct: group open struct; open below 0 struct
an empty group: group
an array of bytes and a struct that refers to it: group array i8 \
    | group struct (mut (ref null 0))
a struct and a struct of a constant reference to it: group struct | group struct (ref 0)
a struct of a constant reference to extern: group struct (ref extern)
a struct of a constant reference to a function: group struct (ref func)
a struct of a byte: group struct i8
an array of bytes: group array i8
a struct and three functions: group struct; func ->; func -> i32; func i32 ->
memories in groups: items env one memory 1 | items a | names b two,three memory 1 \
    | names env - memory 1
one of each: group func i32 -> i64 | group func f32 -> | func 0 | tag 1 | global f32 \
    | memory 1 10 | table 5 10 (ref null extern) | export foo func 0 | export bar global 0 \
    | export baz memory 0 | export qux table 0 | export quux tag 0
a function and a memory to import: group func i32 -> | import env ping func 0 \
    | import env memory memory 1
two exports of one name: global i32 | export a global 0 | export a global 0
a memory that is imported and exported: import env memory memory 1 | export m memory 0
an exported table: table 0 (ref null func) | export t table 0
a struct below itself: group open below 0 struct
a function of a type that is missing: func 5
a tag with a result: group func -> i32 | tag 0
a table whose limits are crossed: table 2 1 (ref null func)
63 structs, each below the one before: chain 63
64 structs, each below the one before: chain 64
a vector: global v128
an exact reference: group struct | global (ref null (exact 0))
an exported function of an open type: group open func -> | func 0 | export f func 0
a tag to import: group func -> | import env t tag 0
a constant reference to no function: global (ref nofunc) | export g global 0
a constant reference to a struct of such a reference: group struct (ref 0) | global (ref 0) \
    | export g global 0
an empty struct and a struct of a reference to it: group struct | group struct (ref 0)
a constant external reference: global (ref extern) | export g global 0
each kind to import: group func i32 -> i64 | group func f32 -> | import env function func 0 \
    | items env global global i32; table table i64 5 (ref null extern) \
    | names env memory,second memory 1 10 | import env tag tag 1
each kind to import and to export: group func i32 -> i64 | group func f32 -> \
    | group struct i8,(mut (ref null 3)); array (mut i16) | import env function func 0 \
    | items env global global i32; table table i64 5 (ref null extern) \
    | names env memory,second memory 1 10 | import env tag tag 1 | func 0 | tag 1 \
    | global mut f64 | memory 1 10 | table 5 10 (ref null extern) | export function func 0 \
    | export table table 0 | export memory memory 0 | export second memory 1 \
    | export global global 0 | export tag tag 0 | export own-function func 1 \
    | export own-table table 1 | export own-memory memory 2 | export own-global global 1 \
    | export own-tag tag 1
a final struct below itself: group below 0 struct
five imports: group func -> | group func i32,i64 -> f32 | import env foo func 1 \
    | import env bar memory 1 | import env baz memory 1 10 | import b qux tag 0 \
    | import b quux global i32
three globals to import: import env one global i32 | import env two global i32 \
    | import env three global i64
a reference to import that is never null: import env one global (ref i31)
three exports of two constants: global f32 | global f32 | export foo global 1 \
    | export bar global 0 | export baz global 0
tables and globals of null references to functions: table 1 (ref null func) \
    | table 2 (ref null func) | global (ref null func) | global (ref null func) \
    | export a table 0 | export b global 0 | export c table 1 | export d global 1
imports that are exported: group func -> | import env one func 0 | import a two global i64 \
    | export foo func 0 | export bar func 0 | export baz global 0
a constant reference to a number: global (ref i31) | export a global 0
an import of no type: import env f func 0
a memory that is imported and exported as a: import env memory memory 1 | export a memory 0
a memory that is imported and exported as b: import env memory memory 1 | export b memory 0
a memory that is imported and exported as c: import env memory memory 1 | export c memory 0
a function of an i31 that is never null: group func -> (ref i31) | func 0 | export f func 0
a function of an external reference that is never null: group func -> (ref extern) | func 0 \
    | export f func 0
a function from an external to an internal reference: group func (ref extern) -> (ref any) \
    | func 0 | export f func 0
a function of a struct of a struct: group struct | group struct (ref 0) | group func -> (ref 1) \
    | func 2 | export f func 0
a function of a struct of a byte, a struct and a number: group struct \
    | group struct i8,(ref 0),(mut i64) | group func -> (ref 1) | func 2 | export f func 0
a function of a struct of a struct of a struct: group struct | group struct (ref 0) \
    | group struct (ref 1) | group func -> (ref 2) | func 3 | export f func 0
a function of a pair of pairs: group struct | group struct (ref 0),(ref 0) \
    | group struct (ref 1),(ref 1) | group func -> (ref 2) | func 3 | export f func 0
a function of any struct, over a struct of a function: group struct (ref func) \
    | group func -> (ref struct) | func 1 | export f func 0
a function of an external reference, over a struct of a function: group struct (ref func) \
    | group func -> (ref extern) | func 1 | export f func 0
";

// Finds the parts of the shape named `name` among `shapes`.
fn parts_among(shapes: &'static str, name: &str) -> Option<&'static str> {
    for line in shapes.lines() {
        let (other, parts) = line.split_once(':').unwrap_or((line, ""));
        if other == name {
            return Some(parts);
        }
    }
    None
}

// Finds the parts of the shape named `name`.
fn parts_of(name: &str) -> Option<&'static str> {
    parts_among(SHAPES, name).or(parts_among(CHECKED_SHAPES, name))
}

/// Creates the shape named `name`.
///
/// # Errors
///
/// Returns `UnknownShape` if there is none, or `Memory`.
pub fn shape_named(alloc: Global, name: &str) -> Result<Shape, Fault> {
    with_parts(alloc, or_unknown(parts_of(name))?, '|', nothing(alloc))
}

fn nothing(alloc: Global) -> Shape {
    Shape {
        groups: Items::new(alloc),
        imports: Items::new(alloc),
        funcs: Items::new(alloc),
        tags: Items::new(alloc),
        tables: Items::new(alloc),
        memories: Items::new(alloc),
        globals: Items::new(alloc),
        exports: Items::new(alloc),
    }
}
