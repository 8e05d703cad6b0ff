ghost use Rattle.std.specs.Prelude.{◌≡◌};
ghost use Rattle.smith_config.specs.Config.{default_config};

use crate::{MemoryOffsetChoices, Shape};
use smith_types::InstructionKinds;

/// The configuration of a module: the number of items of each kind, the proposals, and further
/// rules.
///
/// `Config::default()` describes modules of moderate size with the finished proposals enabled. A
/// struct update changes a field: `Config { max_types: 3, ..Config::default() }`.
///
/// [`Config::sanitize`] resolves contradictions between fields, and [`Config::check`] finds fields
/// out of range. Calls that generate a whole module do both. Drawing calls do neither: most require
/// a sanitised configuration, and some, such as those that draw groups of types, require one that
/// also passes its check.
///
/// Counts cover whole index spaces: imported items and items defined in the module. A maximum is at
/// most `2^31`, and a minimum at most its maximum.
#[derive(Debug, Drop)]
pub struct Config {
    /// The minimum number of types. Defaults to 0.
    pub min_types: usize,

    /// The maximum number of types. Defaults to 100. With 0 there are no functions and no tags
    /// either, because these need function types; a shape may still add some.
    pub max_types: usize,

    /// The minimum number of imports, including each item of a compact group. Defaults to 0.
    /// Drawing fails if the maximums of the kinds or `max_type_size` do not permit this number.
    pub min_imports: usize,

    /// The maximum number of imports, including each item of a compact group. Defaults to 100.
    pub max_imports: usize,

    /// The minimum number of tags. Defaults to 0. Tags need `exceptions_enabled` and a function
    /// type without results, and drawing fails if there are too few.
    pub min_tags: usize,

    /// The maximum number of tags. Defaults to 100.
    pub max_tags: usize,

    /// The minimum number of functions. Defaults to 0. Functions need a function type, and drawing
    /// fails if there are too few.
    pub min_funcs: usize,

    /// The maximum number of functions. Defaults to 100.
    pub max_funcs: usize,

    /// The minimum number of globals. Defaults to 0.
    pub min_globals: usize,

    /// The maximum number of globals. Defaults to 100.
    pub max_globals: usize,

    /// The minimum number of exports. Defaults to 0. Ignored with `export_everything`.
    pub min_exports: usize,

    /// The maximum number of exports. Defaults to 100. Ignored with `export_everything`.
    pub max_exports: usize,

    /// The minimum number of element segments. Defaults to 0. Without `bulk_memory_enabled`,
    /// element segments need a table.
    pub min_element_segments: usize,

    /// The maximum number of element segments. Defaults to 100.
    pub max_element_segments: usize,

    /// The minimum number of items in each element segment. Defaults to 0. A segment of functions
    /// stays empty if the module has no function for it.
    pub min_elements: usize,

    /// The maximum number of items in all element segments together. Defaults to 100.
    pub max_elements: usize,

    /// The minimum number of data segments. Defaults to 0. Without `bulk_memory_enabled`, data
    /// segments need a memory.
    pub min_data_segments: usize,

    /// The maximum number of data segments. Defaults to 100.
    pub max_data_segments: usize,

    /// The minimum number of memories. Defaults to 0.
    pub min_memories: u32,

    /// The maximum number of memories. Defaults to 1. A number above 1 enables the multi-memory
    /// proposal.
    pub max_memories: usize,

    /// The minimum number of tables. Defaults to 0.
    pub min_tables: u32,

    /// The maximum number of tables. Defaults to 1. Lowered to 1 without `reference_types_enabled`.
    pub max_tables: usize,

    /// The upper bound for the minimum and the maximum of a 32-bit memory, in bytes. At most
    /// `2^32`, the default.
    pub max_memory32_bytes: u64,

    /// The upper bound for the minimum and the maximum of a 64-bit memory, in bytes. At most
    /// `2^64`, the default.
    pub max_memory64_bytes: u128,

    /// Whether each memory has a maximum. Defaults to `false`. A shared memory always has one.
    pub memory_max_size_required: bool,

    /// The upper bound for the minimum and the maximum of a table, in elements. Defaults to
    /// 1,000,000. A 32-bit table always has fewer than `2^32` elements.
    pub max_table_elements: u64,

    /// Whether each table has a maximum. Defaults to `false`.
    pub table_max_size_required: bool,

    /// The maximum type size of a module: the sum of the sizes of its imports and exports. Defaults
    /// to 1000.
    ///
    /// The size of a function is 1 plus the number of its parameters and results, the size of any
    /// other item is 1, and each name adds 1. The names of `available_imports`, the exports of
    /// `exports` and all of `module_shape` are free.
    pub max_type_size: u32,

    /// The number of instructions with operands that a constant expression may draw before it is
    /// completed by the shortest means. Defaults to 50.
    pub const_expr_fuel: u32,

    /// Whether the length of an array in a constant expression is a small number, charged to
    /// `const_expr_fuel`, instead of any i32 expression. Defaults to `false`.
    pub limit_arrays_in_const_exprs: bool,

    /// Whether a module may have a start function. Defaults to `true`.
    pub allow_start_export: bool,

    /// Whether each function, table, memory, global and tag is exported exactly once. Defaults to
    /// `false`. If `true`, `min_exports` and `max_exports` are ignored.
    pub export_everything: bool,

    /// Whether f32 and f64 may occur in types and constants, and instructions on floats in bodies
    /// of a program. Defaults to `true`. A shape may contain floats in any case.
    pub allow_floats: bool,

    /// Whether active segments fit in their tables and memories, so that they never trap, and no
    /// instruction of a generated body traps except `unreachable`. That instruction is then used
    /// only as the whole body if `max_instructions` is 0, in the checks of fuel that
    /// `ensure_termination` adds, or for a value that no other permitted instructions produce
    /// without a budget. Imported functions and raw bytes may still trap. Defaults to `false`. If
    /// `true`, a table may have one element and a memory one page even if `max_table_elements`,
    /// `max_memory32_bytes` or `max_memory64_bytes` is lower.
    pub disallow_traps: bool,

    /// Whether a body may be raw bytes of the input, which need not be valid. Defaults to `false`.
    pub allow_invalid_funcs: bool,

    /// References as value types, tables of other types than `funcref`, element expressions, and a
    /// second table. Defaults to `true`. Required by `gc_enabled`.
    pub reference_types_enabled: bool,

    /// Struct and array types, recursive groups, subtypes, and typed references. Defaults to
    /// `true`; off without `reference_types_enabled`.
    pub gc_enabled: bool,

    /// Exact references. Defaults to `false`; off without `gc_enabled`.
    pub custom_descriptors_enabled: bool,

    /// Functions with several results. Defaults to `true`.
    pub multi_value_enabled: bool,

    /// Passive and declared segments, and segments with an explicit table. Defaults to `true`.
    pub bulk_memory_enabled: bool,

    /// The value type v128. Defaults to `true`. Required by `relaxed_simd_enabled`.
    pub simd_enabled: bool,

    /// Tags and exception references. Defaults to `true`.
    pub exceptions_enabled: bool,

    /// Shared memories. Defaults to `true`. Required by `shared_everything_threads_enabled` and
    /// `acquire_release_atomics_enabled`.
    pub threads_enabled: bool,

    /// Shared types, tables, globals and functions. Defaults to `false`; off without `gc_enabled`
    /// or `threads_enabled`.
    pub shared_everything_threads_enabled: bool,

    /// 64-bit memories and tables. Defaults to `true`.
    pub memory64_enabled: bool,

    /// Memories with an explicit page size of 1 or 65,536 bytes. Defaults to `false`.
    pub custom_page_sizes_enabled: bool,

    /// Addition, subtraction and multiplication in constant expressions. Defaults to `true`.
    pub extended_const_enabled: bool,

    /// Groups of imports with a common module name, or a common module name and type. Defaults to
    /// `true`.
    pub compact_imports_enabled: bool,

    /// Relaxed vector instructions. Defaults to `true`; off without `simd_enabled`. Affects only
    /// the features of a module, and the bodies of a program.
    pub relaxed_simd_enabled: bool,

    /// Saturating conversions from floats to integers. Defaults to `true`. Affects only the
    /// features of a module, and the bodies of a program.
    pub saturating_float_to_int_enabled: bool,

    /// Sign-extension instructions. Defaults to `true`. Affects only the features of a module, and
    /// the bodies of a program.
    pub sign_extension_ops_enabled: bool,

    /// Tail calls. Defaults to `true`. Affects only the features of a module, and the bodies of a
    /// program.
    pub tail_call_enabled: bool,

    /// 128-bit arithmetic. Defaults to `true`. Affects only the features of a module, and the
    /// bodies of a program.
    pub wide_arithmetic_enabled: bool,

    /// Atomic accesses with acquire and release ordering. Defaults to `false`; off without
    /// `threads_enabled`. Affects only the features of the module.
    pub acquire_release_atomics_enabled: bool,

    /// Accesses to several bytes of an array at once. Defaults to `false`; off without
    /// `gc_enabled`. Affects only the features of the module.
    pub multibyte_array_access_enabled: bool,

    /// Non-nullable references, to heap types for which an existing struct type or function gives
    /// such a reference without operands. Defaults to `false`; off without `gc_enabled`.
    /// [`Config::arbitrary`] leaves it `false`.
    pub non_nullable_enabled: bool,

    /// The kinds of instructions that bodies of a program may have; without `allow_floats`, kinds
    /// on floats are excluded. Defaults to all. Ignored for a module, whose bodies have no drawn
    /// instructions.
    pub allowed_instructions: InstructionKinds,

    /// The weights for the position of the offset of a memory access. Ignored for a module, whose
    /// bodies have no drawn instructions.
    pub memory_offset_choices: MemoryOffsetChoices,

    /// The maximum number of statements and values to choose for a body of a program, besides
    /// leaves, such as constants and locals. Defaults to 100. With 0, each body of a program is
    /// `unreachable`. Ignored for a module, whose bodies have no drawn instructions.
    pub max_instructions: usize,

    /// Whether NaN results are made canonical. Defaults to `false`. No draw depends on it: a caller
    /// applies it to a drawn program.
    pub canonicalize_nans: bool,

    /// Whether custom sections are drawn. Defaults to `false`. Only the bytes of a module in the
    /// binary format can depend on it: the custom sections are among the module's sections.
    pub generate_custom_sections: bool,

    /// The minimum length of an encoded unsigned integer, in bytes, up to five. Defaults to 1. Only
    /// the bytes of a module in the binary format can depend on it.
    pub min_uleb_size: u8,

    /// The maximum number of aliases of a component. Defaults to 1000. Ignored: no components are
    /// generated.
    pub max_aliases: usize,

    /// The maximum number of components of a component. Defaults to 10. Ignored: no components are
    /// generated.
    pub max_components: usize,

    /// The maximum number of instances of a component. Defaults to 10. Ignored: no components are
    /// generated.
    pub max_instances: usize,

    /// The maximum number of modules of a component. Defaults to 10. Ignored: no components are
    /// generated.
    pub max_modules: usize,

    /// The maximum nesting depth of components. Defaults to 10. Ignored: no components are
    /// generated.
    pub max_nesting_depth: usize,

    /// The maximum number of values of a component. Defaults to 10. Ignored: no components are
    /// generated.
    pub max_values: usize,

    /// The imports to choose from, instead of drawn imports. Defaults to `None`.
    ///
    /// A module has, in order, the imports of the shape that the input selects and that fit the
    /// maximums and the type size. All types of the shape come first in the module, and its
    /// definitions and exports are ignored. `min_imports` is ignored. [`Config::sanitize`] clears
    /// this field if there is a `module_shape`.
    pub available_imports: Option<Shape>,

    /// The exports of a module, instead of drawn exports. Defaults to `None`.
    ///
    /// For each export the module defines an item of the same type. For a function or a tag it adds
    /// a type with the same parameters and results. All types of the shape must be final function
    /// types without a supertype.
    ///
    /// `min_exports` and `export_everything` are ignored. `max_exports` is ignored too, but must
    /// not exceed `2^31`. [`Config::sanitize`] clears this field if there is a `module_shape`.
    pub exports: Option<Shape>,

    /// The first types of a module and all of its imports and exports, in order. The rest is drawn.
    /// Defaults to `None`.
    ///
    /// Empty groups of imports are omitted, and without compact imports each import is its own
    /// group. For each export the module defines an item of the same type, even if the export
    /// refers to an import. A definition that is not exported has no effect.
    ///
    /// The minimums of imports and exports, `export_everything`, `available_imports` and `exports`
    /// are ignored. The maximums of imports and exports are ignored too, but must not exceed
    /// `2^31`.
    pub module_shape: Option<Shape>,
}

impl Default for Config {
    ghost is_default = { λ config. config ≡ default_config };

    fn default() -> Config {
        Config {
            min_types: 0,
            max_types: 100,
            min_imports: 0,
            max_imports: 100,
            min_tags: 0,
            max_tags: 100,
            min_funcs: 0,
            max_funcs: 100,
            min_globals: 0,
            max_globals: 100,
            min_exports: 0,
            max_exports: 100,
            min_element_segments: 0,
            max_element_segments: 100,
            min_elements: 0,
            max_elements: 100,
            min_data_segments: 0,
            max_data_segments: 100,
            min_memories: 0,
            max_memories: 1,
            min_tables: 0,
            max_tables: 1,
            max_memory32_bytes: 1 << 32,
            max_memory64_bytes: 1 << 64,
            memory_max_size_required: false,
            max_table_elements: 1_000_000,
            table_max_size_required: false,
            max_type_size: 1000,
            const_expr_fuel: 50,
            limit_arrays_in_const_exprs: false,
            allow_start_export: true,
            export_everything: false,
            allow_floats: true,
            disallow_traps: false,
            allow_invalid_funcs: false,
            reference_types_enabled: true,
            gc_enabled: true,
            custom_descriptors_enabled: false,
            multi_value_enabled: true,
            bulk_memory_enabled: true,
            simd_enabled: true,
            exceptions_enabled: true,
            threads_enabled: true,
            shared_everything_threads_enabled: false,
            memory64_enabled: true,
            custom_page_sizes_enabled: false,
            extended_const_enabled: true,
            compact_imports_enabled: true,
            relaxed_simd_enabled: true,
            saturating_float_to_int_enabled: true,
            sign_extension_ops_enabled: true,
            tail_call_enabled: true,
            wide_arithmetic_enabled: true,
            acquire_release_atomics_enabled: false,
            multibyte_array_access_enabled: false,
            non_nullable_enabled: false,
            allowed_instructions: InstructionKinds::all(),
            memory_offset_choices: MemoryOffsetChoices::default(),
            max_instructions: 100,
            canonicalize_nans: false,
            generate_custom_sections: false,
            min_uleb_size: 1,
            max_aliases: 1000,
            max_components: 10,
            max_instances: 10,
            max_modules: 10,
            max_nesting_depth: 10,
            max_values: 10,
            available_imports: None,
            exports: None,
            module_shape: None,
        }
    }
}
