ghost use Rattle.std.specs.Prelude.{◌≡◌, false, IfErr};
ghost use Rattle.wasm_smith.specs.Generated.{is_distinct};

use crate::build::{PartsSoFar, build, check_shapes};
use smith_bytes::{Error, Unstructured};
use smith_config::Config;
use smith_types::{
    Code, ConstInstr, DataSegment, ElementSegment, ExportKind, GlobalType, Imports, Items,
    MemoryType, Name, SubType, TableType, TypeSpace,
};
use std::alloc::Global;
use std::fmt;
use std::marker::Model;
use std::ops::Range;

/// A module: the types, imports, index spaces, definitions, exports, segments and bodies of the
/// standard's section Structure, Modules. In each index space imported items come first.
///
/// # Examples
///
/// Counts the parameters of all functions of a module:
///
/// ```
/// use wasm_smith::{CompositeInnerType, Module};
///
/// fn count_parameters(module: &Module) -> usize {
///     let mut count: usize = 0;
///     for index in module.funcs() {
///         if let Some(ty) = module.types().get(*index as usize) {
///             if let CompositeInnerType::Func(function) = &ty.composite_type.inner {
///                 count = count.saturating_add(function.params.len());
///             }
///         }
///     }
///     count
/// }
/// ```
#[derive(Drop)]
pub struct Module {
    /// The configuration, sanitised, without available imports.
    pub(crate) config: Box<Config>,
    /// The parts that were drawn, and the counters of fuel among the globals.
    pub(crate) drawn: Box<PartsSoFar>,
    /// The indices of the globals that count fuel.
    pub(crate) fuel_globals: Items<u32>,
}

impl Model for Module {
    ghost use Rattle.smith_module_rules.specs.Module.{ModuleParts};
    ghost use Rattle.wasm_smith.specs.Bodies.{HasBodies};

    ghost Value = { ModuleParts };

    ghost view = { λ m. record {
      config = m.config.value;
      types = m.drawn.value.types.types;
      groups = m.drawn.value.types.groups;
      imports = m.drawn.value.imported.groups;
      num_imports = m.drawn.value.imported.count;
      tags = m.drawn.value.imported.spaces.tags;
      funcs = m.drawn.value.imported.spaces.funcs;
      tables = m.drawn.value.imported.spaces.tables;
      defined_tables = m.drawn.value.definitions.tables;
      memories = m.drawn.value.imported.spaces.memories;
      globals = m.drawn.value.imported.spaces.globals;
      defined_globals = m.drawn.value.definitions.globals;
      num_defined_tags = m.drawn.value.definitions.num_tags;
      num_defined_funcs = m.drawn.value.definitions.num_funcs;
      num_defined_memories = m.drawn.value.definitions.num_memories;
      exports = m.drawn.value.contents.exports;
      start = m.drawn.value.contents.start;
      elems = m.drawn.value.contents.segments.elems;
      datas = m.drawn.value.contents.segments.data_segments;
      code = m.drawn.value.contents.code;
      fuel_globals = m.fuel_globals;
      encodes_types = m.drawn.value.contents.encodes_types;
      encodes_imports = m.drawn.value.encodes_imports;
      type_size = m.drawn.value.contents.type_size;
      interesting_values32 = m.drawn.value.interesting_values32;
      interesting_values64 = m.drawn.value.interesting_values64;
    } };

    ghost invariant = { λ m. HasBodies m.drawn.value.definitions.num_funcs
        m.drawn.value.imported.spaces.funcs m.drawn.value.contents.code };
}

/// The rule for imports of a module with the same module name and the same name.
#[derive(Clone, Copy, Debug, PartialEq, Eq)]
pub enum DuplicateImportsBehavior {
    /// Imports keep the names that are drawn.
    Allowed,
    /// Imports have distinct pairs of names: the number of imports so far is appended to a name
    /// until its pair is new.
    Disallowed,
}

impl DuplicateImportsBehavior {
    /// Returns whether no two imports may have the same pair of names.
    fn is_distinct(self) -> bool
        ensures { result ≡ is_distinct self }
    {
        match self {
            DuplicateImportsBehavior::Allowed => false,
            DuplicateImportsBehavior::Disallowed => true,
        }
    }
}

impl Module {
    ghost use Rattle.smith_config.specs.Config.{default_config};
    ghost use Rattle.smith_module_rules.specs.Module.{module_types};
    ghost use Rattle.wasm_smith.specs.Bodies.{HasBodies};
    ghost use Rattle.wasm_smith.specs.Generated.{IsGenerated, is_distinct};

    /// Draws a module as [`Module::new`] does, for the default configuration. Fails only for lack
    /// of memory.
    ///
    /// # Examples
    ///
    /// Draws two modules, the second from the bytes that the first leaves:
    ///
    /// ```
    /// use std::alloc::Global;
    /// use wasm_smith::{Error, Module, Unstructured};
    ///
    /// fn draw_two(alloc: Global, input: &[u8]) -> Result<(Module, Module), Error> {
    ///     let mut u = Unstructured::new(input);
    ///     let first = Module::arbitrary(alloc, &mut u)?;
    ///     let second = Module::arbitrary(alloc, &mut u)?;
    ///     Ok((first, second))
    /// }
    /// ```
    pub fn arbitrary(alloc: Global, u: &mut Unstructured<'_>) -> Result<Module, Error>
        ensures generated { IsGenerated false default_config u.old result u.new }
        ensures memory { IfErr result (λ e. e ≡ Error.Memory) }
    {
        let config = Config::default();
        Module::new(alloc, config, u)
    }

    /// Draws a module from the bytes of `u`. Sanitises and checks `config` first, then checks each
    /// shape that it uses.
    ///
    /// A module shape is used alone: the module begins with its types, and has exactly its imports
    /// and its exports. Without a module shape, available imports fix the first types, and the
    /// imports are those of them that the bytes pick. A shape for exports fixes all exports.
    ///
    /// # Errors
    ///
    /// - `Config` for the first fault of the sanitised `config`, even if memory is short.
    /// - `Shape` for the first fault of the module shape, else of the available imports, then of
    ///   the exports.
    /// - `IncorrectFormat` if a minimum stays unmet, if the exports of everything would exceed the
    ///   maximum type size, or if a shape requires a second memory or table that `config` does not
    ///   enable.
    /// - `EmptyChoose` exactly where the draws come to an initialiser or an item of a segment for
    ///   which there is no constant expression. This requires a shape that holds a reference type
    ///   that is not nullable.
    /// - `Memory` if an allocation fails.
    ///
    /// # Examples
    ///
    /// Draws a module with at most two memories:
    ///
    /// ```
    /// use std::alloc::Global;
    /// use wasm_smith::{Config, Error, Module, Unstructured};
    ///
    /// fn draw(alloc: Global, input: &[u8]) -> Result<Module, Error> {
    ///     let mut config = Config::default();
    ///     config.max_memories = 2;
    ///     Module::new(alloc, config, &mut Unstructured::new(input))
    /// }
    /// ```
    pub fn new(alloc: Global, config: Config, u: &mut Unstructured<'_>) -> Result<Module, Error>
        ensures { IsGenerated false config u.old result u.new }
    {
        Module::new_internal(alloc, config, u, DuplicateImportsBehavior::Allowed)
    }

    /// Draws a module from the bytes of `u` as [`Module::new`] does. Imports that no shape fixes
    /// follow the rule `behavior`.
    ///
    /// # Examples
    ///
    /// Draws a module whose imports have distinct pairs of names:
    ///
    /// ```
    /// use std::alloc::Global;
    /// use wasm_smith::{Config, DuplicateImportsBehavior, Error, Module, Unstructured};
    ///
    /// fn draw_distinct(alloc: Global, input: &[u8]) -> Result<Module, Error> {
    ///     let mut u = Unstructured::new(input);
    ///     let behavior = DuplicateImportsBehavior::Disallowed;
    ///     Module::new_internal(alloc, Config::default(), &mut u, behavior)
    /// }
    /// ```
    pub fn new_internal(
        alloc: Global,
        mut config: Config,
        u: &mut Unstructured<'_>,
        behavior: DuplicateImportsBehavior,
    ) -> Result<Module, Error>
        ensures { IsGenerated (is_distinct behavior) config u.old result u.new }
    {
        config.sanitize();
        if let Err(fault) = config.check() {
            drop(config);
            return Err(Error::Config(fault));
        }
        if let Err(refusal) = check_shapes(alloc, &config) {
            drop(config);
            return Err(refusal);
        }
        build(alloc, config, behavior.is_distinct(), u)
    }

    /// Returns the sanitised configuration that the module was drawn for. Its available imports are
    /// used up, so it has none. A module shape and a shape for exports are unchanged.
    pub fn config(&self) -> &Config
        ensures { result.now ≡ self.now.config }
    {
        self.config.as_ref()
    }

    /// Returns the types, in the order of their indices.
    pub fn types(&self) -> &[SubType]
        ensures { result.now ≡ self.now.types }
    {
        self.drawn.types.types()
    }

    /// Returns the recursive groups, each as the range of the indices of its types.
    pub fn rec_groups(&self) -> &[Range<usize>]
        ensures { result.now ≡ self.now.groups }
    {
        self.drawn.types.rec_groups()
    }

    /// Returns the types and the recursive groups, as a type space.
    pub fn type_space(&self) -> &TypeSpace
        ensures { result.now ≡ module_types self.now }
    {
        &self.drawn.types
    }

    /// Returns the imports, in their groups.
    pub fn imports(&self) -> &[Imports]
        ensures { result.now ≡ self.now.imports }
    {
        self.drawn.imported.groups.as_slice()
    }

    /// Returns the number of imports of all groups together.
    pub fn num_imports(&self) -> usize
        ensures { result ≡ self.now.num_imports }
    {
        self.drawn.imported.count
    }

    /// Returns the index of the type of each tag.
    pub fn tags(&self) -> &[u32]
        ensures { result.now ≡ self.now.tags }
    {
        self.drawn.imported.spaces.tags.as_slice()
    }

    /// Returns the index of the type of each function.
    pub fn funcs(&self) -> &[u32]
        ensures { result.now ≡ self.now.funcs }
    {
        self.drawn.imported.spaces.funcs.as_slice()
    }

    /// Returns the type of each table.
    pub fn tables(&self) -> &[TableType]
        ensures { result.now ≡ self.now.tables }
    {
        self.drawn.imported.spaces.tables.as_slice()
    }

    /// Returns the initialiser of each defined table, or `None`.
    pub fn defined_tables(&self) -> &[Option<Items<ConstInstr>>]
        ensures { result.now ≡ self.now.defined_tables }
    {
        self.drawn.definitions.tables.as_slice()
    }

    /// Returns the type of each memory.
    pub fn memories(&self) -> &[MemoryType]
        ensures { result.now ≡ self.now.memories }
    {
        self.drawn.imported.spaces.memories.as_slice()
    }

    /// Returns the type of each global.
    pub fn globals(&self) -> &[GlobalType]
        ensures { result.now ≡ self.now.globals }
    {
        self.drawn.imported.spaces.globals.as_slice()
    }

    /// Returns the index and the initialiser of each defined global.
    pub fn defined_globals(&self) -> &[(u32, Items<ConstInstr>)]
        ensures { result.now ≡ self.now.defined_globals }
    {
        self.drawn.definitions.globals.as_slice()
    }

    /// Returns the number of defined tags, which come after the imported tags.
    pub fn num_defined_tags(&self) -> usize
        ensures { result ≡ self.now.num_defined_tags }
    {
        self.drawn.definitions.num_tags
    }

    /// Returns the number of defined functions, which come after the imported functions.
    pub fn num_defined_funcs(&self) -> usize
        ensures { result ≡ self.now.num_defined_funcs }
    {
        self.drawn.definitions.num_funcs
    }

    /// Returns the number of defined memories, which come after the imported memories.
    pub fn num_defined_memories(&self) -> usize
        ensures { result ≡ self.now.num_defined_memories }
    {
        self.drawn.definitions.num_memories
    }

    /// Returns the name of each export, and the kind and the index of its item.
    pub fn exports(&self) -> &[(Name, ExportKind, u32)]
        ensures { result.now ≡ self.now.exports }
    {
        self.drawn.contents.exports.as_slice()
    }

    /// Returns the index of the start function, or `None`.
    pub fn start(&self) -> Option<u32>
        ensures { result ≡ self.now.start }
    {
        self.drawn.contents.start
    }

    /// Returns the element segments.
    pub fn elems(&self) -> &[ElementSegment]
        ensures { result.now ≡ self.now.elems }
    {
        self.drawn.contents.segments.elems.as_slice()
    }

    /// Returns the data segments.
    pub fn data(&self) -> &[DataSegment]
        ensures { result.now ≡ self.now.datas }
    {
        self.drawn.contents.segments.data_segments.as_slice()
    }

    /// Returns the body of each defined function.
    pub fn code(&self) -> &[Code]
        ensures items { result.now ≡ self.now.code }
        ensures each { HasBodies self.now.num_defined_funcs self.now.funcs self.now.code }
    {
        self.drawn.contents.code.as_slice()
    }

    /// Returns the indices of the globals that count fuel down, in the order in which they were
    /// added.
    pub fn fuel_globals(&self) -> &[u32]
        ensures { result.now ≡ self.now.fuel_globals }
    {
        self.fuel_globals.as_slice()
    }

    /// Returns whether an encoder writes a type section, even without types.
    pub fn should_encode_types(&self) -> bool
        ensures { result ≡ self.now.encodes_types }
    {
        self.drawn.contents.encodes_types
    }

    /// Returns whether an encoder writes an import section, even without imports.
    pub fn should_encode_imports(&self) -> bool
        ensures { result ≡ self.now.encodes_imports }
    {
        self.drawn.encodes_imports
    }

    /// Returns the type size: the sizes of all imports and exports, plus 1 for each. Imports and
    /// exports that a shape fixes add nothing, except that available imports add their sizes.
    pub fn type_size(&self) -> u32
        ensures { result ≡ self.now.type_size }
    {
        self.drawn.contents.type_size
    }

    /// Returns the numbers of 32 bits that tests of the module should try, in ascending order.
    pub fn interesting_values32(&self) -> &[u32]
        ensures { result.now ≡ self.now.interesting_values32 }
    {
        self.drawn.interesting_values32.as_slice()
    }

    /// Returns the numbers of 64 bits that tests of the module should try, in ascending order.
    pub fn interesting_values64(&self) -> &[u64]
        ensures { result.now ≡ self.now.interesting_values64 }
    {
        self.drawn.interesting_values64.as_slice()
    }
}

/// Prints the configuration, and an ellipsis for all other parts.
impl fmt::Debug for Module {
    fn fmt<W: fmt::Write>(&self, f: &mut fmt::Formatter<W>) -> fmt::Result {
        f.debug_struct("Module")
            .field("config", self.config.as_ref())
            .field("...", &"...")
            .finish()
    }
}
