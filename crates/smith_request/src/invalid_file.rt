ghost use Rattle.std.specs.Prelude.{◌≡◌, IfOk, IfErr};
ghost use Rattle.std.specs.List.{All, Contains};
ghost use Rattle.smith_wrong.specs.Numbers.{family_number};
ghost use Rattle.smith_request.specs.Invalid.{IsAmong, IsInvalid, IsInvalidOf, IsInvalidRefusal};
ghost use Rattle.smith_request.specs.Invalid.{IsShapedInvalid, IsShapedInvalidRefusal, IsUnbroken, IsUnlisted};

use crate::refusal::Refusal;
use crate::request::Request;
use crate::shaped::ShapeFiles;
use smith_bytes::{Error, Unstructured};
use smith_wrong::{Family, Wrong, WrongRefusal};
use std::alloc::Global;

impl From<WrongRefusal> for Refusal {
    ghost use Rattle.std.specs.Prelude.{◌≡◌};
    ghost use Rattle.smith_request.specs.Invalid.{refusal_of};

    ghost from_gives = { λ reason refusal. refusal ≡ refusal_of reason };

    fn from(reason: WrongRefusal) -> Refusal {
        match reason {
            WrongRefusal::Module(error) => Refusal::Module(error),
            WrongRefusal::Encoding(error) => Refusal::Encoding(error),
            WrongRefusal::Memory => Refusal::Module(Error::Memory),
            WrongRefusal::NoChange => Refusal::NoChange,
        }
    }
}

/// Returns the families with these numbers.
fn listed(alloc: Global, numbers: &[u32]) -> Result<Vec<Family>, Refusal>
    ensures listed { IfOk result (λ families.
        All (λ one. Contains numbers.now (family_number one)) families.items) }
    ensures refused { IfErr result (IsUnlisted numbers.now) }
{
    let mut families = Vec::new(alloc);
    for number in numbers {
        let Some(family) = Family::from_number(*number) else {
            return Err(Refusal::NoFamily);
        };
        if families.push(family).is_err() {
            return Err(Refusal::Module(Error::Memory));
        }
    }
    Ok(families)
}

/// Returns the families with these numbers, or all of them if there are none.
fn families_of(alloc: Global, numbers: &[u32]) -> Result<Vec<Family>, Refusal>
    ensures among { IfOk result (λ families. All (IsAmong numbers.now) families.items) }
    ensures refused { IfErr result (IsUnlisted numbers.now) }
{
    if !numbers.is_empty() {
        return listed(alloc, numbers);
    }
    match Vec::from_slice(alloc, &Family::ALL) {
        Ok(families) => Ok(families),
        Err(_) => Err(Refusal::Module(Error::Memory)),
    }
}

impl Request {
    /// Draws a program from `input` for the configuration, and makes a change of it that breaks a rule, of
    /// one of the families with the numbers `families`, or of any if there are none. The file has no custom
    /// sections, counts no fuel, and has no sinks.
    ///
    /// # Errors
    ///
    /// Returns `NoFamily` if a number is that of no family, `NoChange` if no change that was tried breaks a
    /// rule, and otherwise the refusal of [`Wrong::new`].
    pub fn invalid(self, alloc: Global, families: &[u32], input: &[u8]) -> Result<Wrong, Refusal>
        ensures file { IfOk result (IsInvalidOf self.config families.now input.now) }
        ensures refused { IfErr result (IsUnbroken self.config families.now input.now) }
    {
        let Request {
            config,
            additions: _,
        } = self;
        match families_of(alloc, families) {
            Ok(families) => {
                let mut u = Unstructured::new(input);
                match Wrong::new(alloc, config, families.as_slice(), &mut u) {
                    Ok(wrong) => Ok(wrong),
                    Err(reason) => Err(Refusal::from(reason)),
                }
            }
            Err(refusal) => {
                drop(config);
                Err(refusal)
            }
        }
    }

    /// Draws an invalid file as [`Request::invalid`] does, for the request with the shapes that `files` are.
    ///
    /// # Errors
    ///
    /// Those of [`Request::with_shapes`] and of [`Request::invalid`].
    pub fn invalid_shaped(
        self,
        alloc: Global,
        files: &ShapeFiles<'_>,
        families: &[u32],
        input: &[u8],
    ) -> Result<Wrong, Refusal>
        ensures file { IfOk result (IsShapedInvalid files.now self families.now input.now) }
        ensures refused { IfErr result (IsShapedInvalidRefusal files.now self families.now input.now) }
    {
        match self.with_shapes(alloc, files) {
            Ok(request) => request.invalid(alloc, families, input),
            Err(refusal) => Err(refusal),
        }
    }
}

/// Draws an invalid file as [`Request::invalid`] does, for the configuration in `text`.
///
/// # Errors
///
/// Those of [`Request::read`] and of [`Request::invalid`].
pub fn invalid(alloc: Global, text: &[u8], families: &[u32], input: &[u8]) -> Result<Wrong, Refusal>
    ensures file { IfOk result (IsInvalid text.now families.now input.now) }
    ensures refused { IfErr result (IsInvalidRefusal text.now families.now input.now) }
{
    match Request::read(alloc, text) {
        Ok(request) => request.invalid(alloc, families, input),
        Err(refusal) => Err(refusal),
    }
}
