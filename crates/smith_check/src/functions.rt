ghost use Rattle.std.specs.Prelude.{◌≡◌, ℕ, ◌<◌, ◌≤◌, length, IfOk, IfErr, MatchOption};
ghost use Rattle.smith_types.specs.Syntax.FeatureBits.{features_in};
ghost use Rattle.smith_check_types.specs.TypeSections.{canonical_index};
ghost use Rattle.smith_check_operands.specs.Scopes.{bare, IsScope};
ghost use Rattle.smith_check_renamed.specs.RenamedInstructions.{renamed_body};
ghost use Rattle.smith_check_body.specs.Verdicts.{IsVerdict};
ghost use Rattle.smith_decode.specs.Modules.{syntax_of};
ghost use Rattle.smith_explain.specs.Causes.{IsExplanation, IsUnreached};
ghost use Rattle.smith_check.specs.Explanations.{IsExplained};
ghost use Rattle.smith_check.specs.Faults.{IsJudgement};
ghost use Rattle.smith_check.specs.FunctionJudges.{
  AreLocalsRight,
  AreRightBefore,
  HasPartsAt,
  HasTypeAt,
  IsContextOf,
  IsFunctionJudge,
  IsRightAt,
  body_in,
  context_in,
};

use crate::judgement::{Fault, Judgement, Unjudged};
use crate::locals::{are_few, first_wrong_run, locals_of};
use smith_bytes::Error;
use smith_check_body::{Verdict, check_body};
use smith_check_operands::Scope;
use smith_check_operands::lookups::func_at;
use smith_check_renamed::{canonical_body, is_canonical_body};
use smith_check_rules::Slot;
use smith_check_types::{CheckedTypes, canonical_index};
use smith_decode::{Body, Module};
use smith_explain::Explanation;
use smith_instr::Instr;
use smith_types::{EntitySpaces, FuncType, Items, RefType, ValType, WasmFeatures};
use std::alloc::Global;

// Checks `body` by the canonical `indices` of types. It is copied only if they change it.
fn check_canonical(
    alloc: Global,
    indices: &[u32],
    scope: &Scope,
    results: Items<ValType>,
    body: &[Instr],
    rooms: &mut Vec<Vec<Slot>>,
) -> Result<Verdict, Error>
    requires scope { IsScope (bare scope.now) }
    requires results { results ≡ scope.now.results.now }
    ensures ok { IfOk result
        (IsVerdict (bare scope.now) (renamed_body (canonical_index indices.now) body.now)) }
    ensures memory { IfErr result (λ e. e ≡ Error.Memory) }
{
    if is_canonical_body(indices, body) {
        return check_body(alloc, scope, results, body, rooms);
    }
    let instructions = canonical_body(alloc, indices, body)?;
    check_body(alloc, scope, results, instructions.as_slice(), rooms)
}

/// What the functions of a module are judged by.
#[derive(Clone, Copy)]
pub struct FunctionJudge<'a> {
    /// The features that are on.
    pub features: WasmFeatures,
    /// The module.
    pub module: &'a Module,
    /// Its types.
    pub types: &'a CheckedTypes,
    /// The index spaces, by canonical indices of types.
    pub spaces: &'a EntitySpaces,
    /// The number of imported functions.
    pub imported_funcs: usize,
    /// The types of the element segments, by canonical indices.
    pub elems: &'a [RefType],
    /// The functions that `ref.func` may name.
    pub references: &'a [u32],
}

impl<'a> FunctionJudge<'a> {
    // Returns the type of the function at a place in the function section, if there is one.
    fn type_at(&self, place: usize) -> Option<&'a FuncType>
        requires { IsFunctionJudge self.now }
        ensures { MatchOption result (length self.now.«module».now.functions ≤ place)
            (λ function. HasTypeAt self.now place function.now) }
    {
        let functions = self.module.functions.as_slice();
        if place >= functions.len() {
            return None;
        }
        let index = canonical_index(self.types.indices.as_slice(), functions[place]);
        func_at(self.types.space.types(), index)
    }

    // Returns the context of a body of a function of this type, with these parameters and locals.
    fn scope<'b>(&'b self, function: &'b FuncType, locals: &'b [ValType]) -> Scope<'b>
        ensures parts { IsContextOf self.now function.now locals.now (bare result) }
        ensures results { result.results.now ≡ function.now.results }
    {
        Scope {
            features: self.features,
            types: &self.types.space,
            funcs: self.spaces.funcs.as_slice(),
            imported_funcs: self.imported_funcs,
            tables: self.spaces.tables.as_slice(),
            memories: self.spaces.memories.as_slice(),
            globals: self.spaces.globals.as_slice(),
            tags: self.spaces.tags.as_slice(),
            elems: self.elems,
            datas: self.module.datas.len(),
            references: self.references,
            locals,
            params: function.params.len(),
            results: function.results.as_slice(),
        }
    }

    // Checks a body of a function of this type, whose locals are valid.
    fn verdict(
        &self,
        alloc: Global,
        function: &FuncType,
        body: &Body,
        rooms: &mut Vec<Vec<Slot>>,
    ) -> Result<Verdict, Error>
        requires judge { IsFunctionJudge self.now }
        requires typed { (place : ℕ) × HasTypeAt self.now place function.now }
        requires locals { AreLocalsRight self.now body.now }
        ensures decided { IfOk result (IsVerdict (context_in self.now function.now body.now)
            (body_in self.now body.now)) }
        ensures memory { IfErr result (λ e. e ≡ Error.Memory) }
    {
        let indices = self.types.indices.as_slice();
        let params = function.params.as_slice();
        let locals = locals_of(alloc, indices, params, body.locals.as_slice())?;
        let results = Items::from_slice(alloc, function.results.as_slice())?;
        let scope = self.scope(function, locals.as_slice());
        check_canonical(
            alloc,
            indices,
            &scope,
            results,
            body.instructions.as_slice(),
            rooms,
        )
    }

    // Returns what there is to say of the function at a place, whose locals are valid, unless it is
    // valid.
    fn check_body_at(
        &self,
        alloc: Global,
        place: usize,
        function: &FuncType,
        body: &Body,
        rooms: &mut Vec<Vec<Slot>>,
    ) -> Result<Option<Judgement>, Error>
        requires judge { IsFunctionJudge self.now }
        requires before { AreRightBefore self.now place }
        requires parts { HasPartsAt self.now place function.now body.now }
        requires locals { AreLocalsRight self.now body.now }
        ensures decided { IfOk result (λ found. MatchOption found (IsRightAt self.now place)
            (IsJudgement (features_in self.now.features) self.now.«module».now)) }
        ensures memory { IfErr result (λ e. e ≡ Error.Memory) }
    {
        let verdict = self.verdict(alloc, function, body, rooms)?;
        Ok(match verdict {
            Verdict::Typed => None,
            Verdict::Refused { at } => Some(Judgement::Invalid(Fault::Body {
                body: place,
                instruction: at,
            })),
        })
    }

    // Returns what is known of the instruction `at` of a body of a function of this type, whose locals are
    // valid.
    fn explanation(
        &self,
        alloc: Global,
        function: &FuncType,
        body: &Body,
        at: usize,
    ) -> Result<Option<Explanation>, Error>
        requires judge { IsFunctionJudge self.now }
        requires typed { (place : ℕ) × HasTypeAt self.now place function.now }
        requires locals { AreLocalsRight self.now body.now }
        ensures ok { IfOk result (λ found. MatchOption found
            (IsUnreached (context_in self.now function.now body.now) (body_in self.now body.now) at)
            (IsExplanation (context_in self.now function.now body.now) (body_in self.now body.now) at)) }
        ensures memory { IfErr result (λ e. e ≡ Error.Memory) }
    {
        let indices = self.types.indices.as_slice();
        let params = function.params.as_slice();
        let locals = locals_of(alloc, indices, params, body.locals.as_slice())?;
        let instructions = canonical_body(alloc, indices, body.instructions.as_slice())?;
        let results = Items::from_slice(alloc, function.results.as_slice())?;
        let scope = self.scope(function, locals.as_slice());
        smith_explain::explain(alloc, &scope, results, instructions.as_slice(), at)
    }

    /// Returns what is known of the instruction `at` of the body at a place, if there is such a body, and
    /// its locals are valid and not too many.
    pub fn explain(
        &self,
        alloc: Global,
        place: usize,
        at: usize,
    ) -> Result<Option<Explanation>, Error>
        requires { IsFunctionJudge self.now }
        ensures ok { IfOk result (λ found. MatchOption found (Unit {0})
            (IsExplained (features_in self.now.features) (syntax_of self.now.«module».now) place at)) }
        ensures memory { IfErr result (λ e. e ≡ Error.Memory) }
    {
        let bodies = self.module.bodies.as_slice();
        if place >= bodies.len() {
            return Ok(None);
        }
        let function = match self.type_at(place) {
            Some(function) => function,
            None => return Ok(None),
        };
        let body = &bodies[place];
        let runs = body.locals.as_slice();
        if !are_few(function.params.len(), runs) {
            return Ok(None);
        }
        let end = self.types.space.types().len();
        match first_wrong_run(self.features, end, self.types.indices.as_slice(), runs) {
            Some(_) => Ok(None),
            None => self.explanation(alloc, function, body, at),
        }
    }

    // Returns what there is to say of the function at a place, unless it is valid.
    fn check_function(
        &self,
        alloc: Global,
        place: usize,
        rooms: &mut Vec<Vec<Slot>>,
    ) -> Result<Option<Judgement>, Error>
        requires judge { IsFunctionJudge self.now }
        requires inside { place < length self.now.«module».now.bodies }
        requires before { AreRightBefore self.now place }
        ensures decided { IfOk result (λ found. MatchOption found (IsRightAt self.now place)
            (IsJudgement (features_in self.now.features) self.now.«module».now)) }
        ensures memory { IfErr result (λ e. e ≡ Error.Memory) }
    {
        let function = match self.type_at(place) {
            Some(function) => function,
            None => {
                return Ok(Some(Judgement::Invalid(Fault::Body {
                    body: place,
                    instruction: 0,
                })));
            }
        };
        let body = &self.module.bodies.as_slice()[place];
        let runs = body.locals.as_slice();
        if !are_few(function.params.len(), runs) {
            return Ok(Some(Judgement::NotJudged(Unjudged::Locals { body: place })));
        }
        let end = self.types.space.types().len();
        match first_wrong_run(self.features, end, self.types.indices.as_slice(), runs) {
            Some(run) => Ok(Some(Judgement::Invalid(Fault::Local { body: place, run }))),
            None => self.check_body_at(alloc, place, function, body, rooms),
        }
    }

    // Returns what there is to say of a module whose bodies are all valid.
    fn whole(&self) -> Judgement
        requires judge { IsFunctionJudge self.now }
        requires before { AreRightBefore self.now (length self.now.«module».now.bodies) }
        ensures { IsJudgement (features_in self.now.features) self.now.«module».now result }
    {
        let bodies = self.module.bodies.len();
        if bodies < self.module.functions.len() {
            return Judgement::Invalid(Fault::Body {
                body: bodies,
                instruction: 0,
            });
        }
        Judgement::Valid
    }

    /// Returns what there is to say of the module.
    pub fn judgement(&self, alloc: Global) -> Result<Judgement, Error>
        requires { IsFunctionJudge self.now }
        ensures decided { IfOk result
            (IsJudgement (features_in self.now.features) self.now.«module».now) }
        ensures memory { IfErr result (λ e. e ≡ Error.Memory) }
    {
        let mut rooms = Vec::new(alloc);
        for place in 0..self.module.bodies.len() {
            let found = self.check_function(alloc, place, &mut rooms)?;
            match found {
                Some(judgement) => return Ok(judgement),
                None => {}
            }
        }
        Ok(self.whole())
    }
}
