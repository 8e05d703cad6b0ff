ghost use Rattle.std.specs.Prelude.{◌≡◌, ◌++◌, ◌∷◌, [], length, IfOk, IfErr, OnOk, MatchBool};
ghost use Rattle.smith_instr.specs.declared.instr.Instr.TheVariants as instr;
ghost use Rattle.smith_check_operands.specs.Scopes.{bare, IsScope};
ghost use Rattle.smith_check_operands.specs.Closes.{IsPlain};
ghost use Rattle.smith_check_body.specs.Opens.{opening};
ghost use Rattle.smith_check_body.specs.Checks.{IsWell, Goes, Stops, CanFinish};

use crate::blocks::{is_first, may_end, pop_for, shape_of, starting};
use crate::step::{set_by, step};
use smith_bytes::Error;
use smith_check_branches::catches::are_catches;
use smith_check_operands::{Frame, Kind, Operands, Scope, Shape};
use smith_check_rules::Slot;
use smith_instr::{BlockType, Catch, Instr, SetLocals};
use std::alloc::Global;
use std::mem::replace;

/// How far the check of a body has come.
#[derive(Drop)]
pub struct Checker {
    /// The innermost block.
    pub shape: Shape,
    /// What its instructions so far have left.
    pub operands: Operands,
    /// The locals that were set, in order.
    pub log: SetLocals,
    /// How many entries `log` had when the innermost block began.
    pub height: usize,
    /// The blocks around it, the innermost last.
    pub outers: Vec<Frame>,
    /// Room for the types on the stack in blocks to come.
    pub rooms: Vec<Vec<Slot>>,
}

// Returns room for the types on the stack in a block, taken from `rooms` if there is any.
fn take_room(alloc: Global, rooms: &mut Vec<Vec<Slot>>) -> Vec<Slot> {
    match rooms.pop() {
        Some(room) => room,
        None => Vec::new(alloc),
    }
}

impl Checker {
    /// Checks an instruction that opens and closes no block, and returns whether it applies.
    #[inline(always)]
    pub fn plain(&mut self, scope: &Scope, instr: &Instr) -> Result<bool, Error>
        requires well { IsWell (bare scope.now) self.old }
        requires scope { IsScope (bare scope.now) }
        requires plain { IsPlain instr.now }
        ensures ok { IfOk result (λ goes. MatchBool goes
            (Goes (bare scope.now) instr.now self.old self.new)
            (Stops (bare scope.now) instr.now self.old)) }
        ensures memory { IfErr result (λ e. e ≡ Error.Memory) }
    {
        let taken = step(
            &mut self.operands,
            scope,
            &self.shape,
            &self.outers,
            &self.log,
            instr,
        )?;
        if !taken {
            return Ok(false);
        }
        match set_by(instr) {
            Some(local) => {
                self.log.push(local)?;
                Ok(true)
            }
            None => Ok(true),
        }
    }

    /// Goes into a block.
    pub fn enter(&mut self, shape: Shape, operands: Operands) -> Result<(), Error>
        ensures shape { OnOk result (self.new.shape ≡ shape) }
        ensures operands { OnOk result (self.new.operands ≡ operands) }
        ensures log { OnOk result (self.new.log ≡ self.old.log) }
        ensures height { OnOk result (self.new.height ≡ length self.old.log.items) }
        ensures outers { OnOk result (self.new.outers.items
            ≡ self.old.outers.items
            ++ record { shape = self.old.shape; operands = self.old.operands; height = self.old.height }
            ∷ []) }
        ensures memory { IfErr result (λ e. e ≡ Error.Memory) }
    {
        let outer = Frame {
            shape: replace(&mut self.shape, shape),
            operands: replace(&mut self.operands, operands),
            height: self.height,
        };
        self.height = self.log.len();
        self.outers.push(outer)?;
        Ok(())
    }

    /// Checks an instruction that opens a block, and returns whether it applies.
    pub fn open(
        &mut self,
        alloc: Global,
        scope: &Scope,
        kind: Kind,
        ty: &BlockType,
    ) -> Result<bool, Error>
        requires well { IsWell (bare scope.now) self.old }
        requires scope { IsScope (bare scope.now) }
        ensures ok { IfOk result (λ goes. MatchBool goes
            (Goes (bare scope.now) (opening kind ty.now) self.old self.new)
            (Stops (bare scope.now) (opening kind ty.now) self.old)) }
        ensures memory { IfErr result (λ e. e ≡ Error.Memory) }
    {
        let found = shape_of(alloc, scope, kind, *ty)?;
        let shape = match found {
            Some(shape) => shape,
            None => return Ok(false),
        };
        if !pop_for(&mut self.operands, scope, kind, &shape.params) {
            return Ok(false);
        }
        let room = take_room(alloc, &mut self.rooms);
        let operands = starting(room, scope, &shape.params)?;
        self.enter(shape, operands)?;
        Ok(true)
    }

    /// Checks an instruction that opens a block with clauses for exceptions, and returns whether it
    /// applies.
    pub fn open_try(
        &mut self,
        alloc: Global,
        scope: &Scope,
        ty: &BlockType,
        clauses: &[Catch],
    ) -> Result<bool, Error>
        requires well { IsWell (bare scope.now) self.old }
        requires scope { IsScope (bare scope.now) }
        ensures ok { IfOk result (λ goes. MatchBool goes
            (Goes (bare scope.now) (instr.TryTable ty.now clauses.now) self.old self.new)
            (Stops (bare scope.now) (instr.TryTable ty.now clauses.now) self.old)) }
        ensures memory { IfErr result (λ e. e ≡ Error.Memory) }
    {
        if !are_catches(scope, &self.shape, &self.outers, clauses) {
            return Ok(false);
        }
        self.open(alloc, scope, Kind::Block, ty)
    }
}

impl Checker {
    /// Checks the end of a block, and returns whether it applies.
    pub fn close(&mut self, alloc: Global, scope: &Scope) -> Result<bool, Error>
        requires well { IsWell (bare scope.now) self.old }
        ensures ok { IfOk result (λ goes. MatchBool goes
            (Goes (bare scope.now) instr.End self.old self.new)
            (Stops (bare scope.now) instr.End self.old)) }
        ensures memory { IfErr result (λ e. e ≡ Error.Memory) }
    {
        if !self.operands.ends(scope, &self.shape.results) {
            return Ok(false);
        }
        if !may_end(scope, &self.shape) {
            return Ok(false);
        }
        let mut outer = match self.outers.pop() {
            Some(outer) => outer,
            None => return Ok(false),
        };
        outer.operands.push_all(scope, &self.shape.results)?;
        let Frame {
            shape,
            operands,
            height,
        } = outer;
        self.shape = shape;
        let room = replace(&mut self.operands.known, Vec::new(alloc));
        self.operands = operands;
        self.rooms.push(room)?;
        self.log.truncate(self.height);
        self.height = height;
        Ok(true)
    }

    /// Checks the start of the second part of an if, and returns whether it applies.
    #[inline(never)]
    pub fn second(&mut self, alloc: Global, scope: &Scope) -> Result<bool, Error>
        requires well { IsWell (bare scope.now) self.old }
        ensures ok { IfOk result (λ goes. MatchBool goes
            (Goes (bare scope.now) instr.Else self.old self.new)
            (Stops (bare scope.now) instr.Else self.old)) }
        ensures memory { IfErr result (λ e. e ≡ Error.Memory) }
    {
        if self.outers.len() == 0 {
            return Ok(false);
        }
        if !is_first(self.shape.kind) {
            return Ok(false);
        }
        if !self.operands.ends(scope, &self.shape.results) {
            return Ok(false);
        }
        let room = replace(&mut self.operands.known, Vec::new(alloc));
        self.operands = starting(room, scope, &self.shape.params)?;
        self.shape.kind = Kind::Block;
        self.log.truncate(self.height);
        Ok(true)
    }

    /// Checks an instruction, and returns whether it applies.
    #[inline(always)]
    pub fn check(&mut self, alloc: Global, scope: &Scope, instr: &Instr) -> Result<bool, Error>
        requires well { IsWell (bare scope.now) self.old }
        requires scope { IsScope (bare scope.now) }
        ensures ok { IfOk result (λ goes. MatchBool goes
            (Goes (bare scope.now) instr.now self.old self.new)
            (Stops (bare scope.now) instr.now self.old)) }
        ensures memory { IfErr result (λ e. e ≡ Error.Memory) }
    {
        match instr {
            Instr::Block(ty) => self.open(alloc, scope, Kind::Block, ty),
            Instr::Loop(ty) => self.open(alloc, scope, Kind::Loop, ty),
            Instr::If(ty) => self.open(alloc, scope, Kind::If, ty),
            Instr::Else => self.second(alloc, scope),
            Instr::End => self.close(alloc, scope),
            Instr::TryTable(ty, clauses) => self.open_try(alloc, scope, ty, clauses.as_slice()),
            _ => self.plain(scope, instr),
        }
    }

    /// Returns whether the body may end here.
    pub fn is_finished(&self, scope: &Scope) -> bool
        requires { IsWell (bare scope.now) self.now }
        ensures { MatchBool result (CanFinish (bare scope.now) self.now [])
            (CanFinish (bare scope.now) self.now [] → ⊥) }
    {
        if self.outers.len() == 0 {
            return self.operands.ends(scope, &self.shape.results);
        }
        false
    }

    /// Returns the room for the types on the stack in blocks to come.
    pub fn into_rooms(self) -> Vec<Vec<Slot>> {
        let Checker { rooms, .. } = self;
        rooms
    }
}
