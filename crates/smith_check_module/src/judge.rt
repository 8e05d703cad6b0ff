ghost use Rattle.std.specs.Prelude.{◌≡◌, ◌↔◌, ◌<◌, ℕ, IsTrue, IfOk, IfErr, MatchOption};
ghost use Rattle.std.specs.Prelude.{if◌then◌else◌};
ghost use Rattle.smith_types.specs.Syntax.FeatureBits.{features_in};
ghost use Rattle.smith_check_module.specs.Judges.{
  AreJudgedValid,
  AreRight,
  IsJudge,
  IsRight,
  RefersToEntities,
  count_in,
};
ghost use Rattle.smith_check_module.specs.SectionFaults.{IsFirstWrong};
ghost use Rattle.smith_check_module.specs.declared.faults.Part.TheVariants as part;

use crate::entities::{is_func, is_global, is_memory, is_table, is_tag};
use crate::exports::is_entity_at;
use crate::faults::Part;
use crate::initials::{is_global_initialised, is_table_initialised};
use crate::scope::Scope;
use crate::segments::{is_data_mode_valid, is_element_valid};
use crate::start::is_start_valid;
use smith_bytes::Error;
use smith_decode::Module;
use smith_types::{EntitySpaces, WasmFeatures};
use std::alloc::Global;

/// What the items of a module are judged by.
#[derive(Clone, Copy)]
pub struct Judge<'a> {
    /// The module.
    pub module: &'a Module,
    /// The context of constant expressions, with no global visible.
    pub scope: Scope<'a>,
    /// The index spaces, by canonical indices of types.
    pub spaces: &'a EntitySpaces,
    /// The index of the first export whose name an earlier one has, or the number of exports if there
    /// is none.
    pub repeated: usize,
}

impl<'a> Judge<'a> {
    // Returns the context of constant expressions with another end of the visible globals.
    fn seeing(&self, visible: usize) -> Scope<'a>
        ensures { result ≡ record self.now.scope { visible = visible } }
    {
        Scope {
            features: self.scope.features,
            indices: self.scope.indices,
            types: self.scope.types,
            funcs: self.scope.funcs,
            globals: self.scope.globals,
            imported_funcs: self.scope.imported_funcs,
            imported_globals: self.scope.imported_globals,
            visible,
        }
    }

    // Returns the end of the globals that are visible without garbage collection, or `end` with it.
    fn visible_to(&self, end: usize) -> usize
        ensures { result ≡ (if (features_in self.now.scope.features).gc then end
            else self.now.scope.imported_globals) }
    {
        if self.scope.features.contains(WasmFeatures::GC) {
            end
        } else {
            self.scope.imported_globals
        }
    }

    // Returns the number of items of a part.
    fn count(&self, part: Part) -> usize
        ensures { result ≡ count_in self.now part }
    {
        match part {
            Part::Tags => self.spaces.tags.len(),
            Part::Functions => self.spaces.funcs.len(),
            Part::Tables => self.spaces.tables.len(),
            Part::Memories => self.spaces.memories.len(),
            Part::Globals => self.spaces.globals.len(),
            Part::TableInitials => self.module.tables.len(),
            Part::GlobalInitials => self.module.globals.len(),
            Part::Exports => self.module.exports.len(),
            Part::Start => 1,
            Part::Elements => self.module.elements.len(),
            Part::Datas => self.module.datas.len(),
        }
    }

    // Returns whether the initialiser of a table is right.
    fn is_table_initial_right(&self, alloc: Global, index: usize) -> Result<bool, Error>
        requires judge { IsJudge self.now }
        requires valid { AreJudgedValid self.now }
        requires inside { index < count_in self.now part.TableInitials }
        ensures decided { IfOk result (λ yes. IsTrue yes ↔ IsRight self.now part.TableInitials index) }
        ensures memory { IfErr result (λ e. e ≡ Error.Memory) }
    {
        let scope = self.seeing(self.scope.imported_globals);
        is_table_initialised(alloc, &scope, &self.module.tables.as_slice()[index])
    }

    // Returns whether the initialiser of a global is right.
    fn is_global_initial_right(&self, alloc: Global, index: usize) -> Result<bool, Error>
        requires judge { IsJudge self.now }
        requires valid { AreJudgedValid self.now }
        requires inside { index < count_in self.now part.GlobalInitials }
        ensures decided { IfOk result (λ yes. IsTrue yes
            ↔ IsRight self.now part.GlobalInitials index) }
        ensures memory { IfErr result (λ e. e ≡ Error.Memory) }
    {
        let end = self.scope.globals.len() - self.module.globals.len() + index;
        let scope = self.seeing(self.visible_to(end));
        is_global_initialised(alloc, &scope, &self.module.globals.as_slice()[index])
    }

    // Returns whether an export is right, if all before it are.
    fn is_export_right(&self, index: usize) -> bool
        requires judge { IsJudge self.now }
        requires inside { index < count_in self.now part.Exports }
        requires before { (other : ℕ) → other < index → IsRight self.now part.Exports other }
        ensures { IsTrue result ↔ IsRight self.now part.Exports index }
    {
        let item = &self.module.exports.as_slice()[index];
        index != self.repeated && is_entity_at(self.spaces, item.kind, item.index)
    }

    // Returns whether an element segment is right.
    fn is_element_right(&self, alloc: Global, index: usize) -> Result<bool, Error>
        requires judge { IsJudge self.now }
        requires valid { AreJudgedValid self.now }
        requires inside { index < count_in self.now part.Elements }
        ensures decided { IfOk result (λ yes. IsTrue yes ↔ IsRight self.now part.Elements index) }
        ensures memory { IfErr result (λ e. e ≡ Error.Memory) }
    {
        let scope = self.seeing(self.visible_to(self.scope.globals.len()));
        is_element_valid(
            alloc,
            &scope,
            self.spaces,
            &self.module.elements.as_slice()[index],
        )
    }

    // Returns whether a data segment is right.
    fn is_data_right(&self, alloc: Global, index: usize) -> Result<bool, Error>
        requires judge { IsJudge self.now }
        requires valid { AreJudgedValid self.now }
        requires inside { index < count_in self.now part.Datas }
        ensures decided { IfOk result (λ yes. IsTrue yes ↔ IsRight self.now part.Datas index) }
        ensures memory { IfErr result (λ e. e ≡ Error.Memory) }
    {
        let scope = self.seeing(self.visible_to(self.scope.globals.len()));
        is_data_mode_valid(
            alloc,
            &scope,
            self.spaces,
            &self.module.datas.as_slice()[index].mode,
        )
    }

    // Returns whether an item is right, if all before it are.
    fn is_right(&self, alloc: Global, part: Part, index: usize) -> Result<bool, Error>
        requires judge { IsJudge self.now }
        requires valid { RefersToEntities part → AreJudgedValid self.now }
        requires inside { index < count_in self.now part }
        requires before { (other : ℕ) → other < index → IsRight self.now part other }
        ensures decided { IfOk result (λ yes. IsTrue yes ↔ IsRight self.now part index) }
        ensures memory { IfErr result (λ e. e ≡ Error.Memory) }
    {
        let features = self.scope.features;
        let types = self.scope.types.types();
        match part {
            Part::Tags => Ok(is_tag(features, types, self.spaces.tags.as_slice()[index])),
            Part::Functions => Ok(is_func(types, self.spaces.funcs.as_slice()[index])),
            Part::Tables => Ok(is_table(
                features,
                types,
                self.spaces.tables.as_slice()[index],
                index,
            )),
            Part::Memories => Ok(is_memory(
                features,
                self.spaces.memories.as_slice()[index],
                index,
            )),
            Part::Globals => Ok(is_global(features, types, self.spaces.globals.as_slice()[index])),
            Part::TableInitials => self.is_table_initial_right(alloc, index),
            Part::GlobalInitials => self.is_global_initial_right(alloc, index),
            Part::Exports => Ok(self.is_export_right(index)),
            Part::Start => Ok(is_start_valid(types, &self.spaces.funcs, self.module.start)),
            Part::Elements => self.is_element_right(alloc, index),
            Part::Datas => self.is_data_right(alloc, index),
        }
    }

    /// Returns the index of the first item of a part that is wrong, if there is one. Requires the
    /// entities to be valid if the items of the part refer to entities.
    pub fn first_wrong(&self, alloc: Global, part: Part) -> Result<Option<usize>, Error>
        requires judge { IsJudge self.now }
        requires valid { RefersToEntities part → AreJudgedValid self.now }
        ensures ok { IfOk result (λ found. MatchOption found (AreRight self.now part)
            (λ index. IsFirstWrong (IsRight self.now part) index)) }
        ensures memory { IfErr result (λ e. e ≡ Error.Memory) }
    {
        for index in 0..self.count(part) {
            let right = self.is_right(alloc, part, index)?;
            if !right {
                return Ok(Some(index));
            }
        }
        Ok(None)
    }
}
