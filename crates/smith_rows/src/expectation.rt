use smith_text::{FromFmt, TextForm, text};
use std::alloc::Global;
use std::fmt;
use std::test::Fail;
use wasm_smith::{Config, Error, Module, Unstructured};

/// A writer that keeps nothing, and fails where the written text differs from the expected text.
/// All writes after that fail.
#[derive(Drop)]
pub(crate) struct Expectation<'a> {
    rest: &'a [u8],
    failures: usize,
}

impl<'a> Expectation<'a> {
    /// Creates a writer that expects `text`.
    pub(crate) fn new(text: &'a str) -> Self {
        Expectation {
            rest: text.as_bytes(),
            failures: 0,
        }
    }

    /// Returns whether the expected text was written, and nothing else.
    pub(crate) fn is_complete(&self) -> bool {
        self.failures == 0 && self.rest.is_empty()
    }
}

impl fmt::Write for Expectation<'_> {
    fn write_str(&mut self, text: &str) -> fmt::Result {
        match self.rest.strip_prefix(text.as_bytes()) {
            Some(rest) if self.failures == 0 => {
                self.rest = rest;
                Ok(())
            }
            _ => {
                self.failures = self.failures.saturating_add(1);
                Err(fmt::Error)
            }
        }
    }
}

// Fails unless the first write that goes past `start`, the start of the text of `module`, is the
// last one, and ends the text.
fn is_last(module: &Module, start: &str) -> Result<(), Fail> {
    let mut writer = Expectation::new(start);
    let ended = module.write_text(&mut FromFmt::new(&mut writer)).is_err();
    if ended && writer.failures == 1 {
        return Ok(());
    }
    let length = start.len();
    Err(Fail::new(format_args!("the write after {length} bytes isn't the last")))
}

// Fails unless each write of the text of `module` that fails is the last one, and ends the text.
fn failed_writes_are_last(alloc: Global, module: &Module) -> Result<(), Fail> {
    let text = text(alloc, module)?;
    for length in 0..text.len() {
        if let Some(start) = text.as_str().get(..length) {
            is_last(module, start)?;
        }
    }
    Ok(())
}

const INPUT: &[u8] = &[1, 1, 1, 1, 0, 0, 0, 0, 0, 0, 1, 0, 0, 0, 0, 0, 1];

fn module(alloc: Global) -> Result<Module, Error> {
    Module::new(alloc, Config::default(), &mut Unstructured::new(INPUT))
}

#[test]
fn a_failed_write_is_the_last(rt: HostRuntime) -> Result<(), Fail> {
    let module = module(rt.alloc())?;
    let failed = failed_writes_are_last(rt.alloc(), &module);
    drop(module);
    failed
}
