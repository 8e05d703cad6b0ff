use crate::failure::Failure;
use crate::files::read_from;
use crate::paths::Paths;
use crate::words::{AVAILABLE_IMPORTS, EXPORTS, MODULE_SHAPE};
use clap::ArgMatches;
use smith_bytes::{Error, Which};
use smith_config::{Config, Shape};
use smith_shape_file::read_shape_file;
use std::alloc::Global;

/// The shapes of the configuration.
#[derive(Drop)]
pub(crate) struct Shapes {
    available_imports: Option<Shape>,
    exports: Option<Shape>,
    module_shape: Option<Shape>,
}

// No shape.
const NO_SHAPES: Shapes = Shapes {
    available_imports: None,
    exports: None,
    module_shape: None,
};

impl Shapes {
    /// Reads the files that `matches` names for shapes, or else those of the configuration file, `paths`.
    pub(crate) fn read(
        rt: &HostRuntime,
        matches: &ArgMatches<'_>,
        paths: &Paths,
    ) -> Result<Shapes, Failure> {
        let mut shapes = NO_SHAPES;
        shapes.fill(rt, matches, paths).and(Ok(shapes))
    }

    fn fill(
        &mut self,
        rt: &HostRuntime,
        matches: &ArgMatches<'_>,
        paths: &Paths,
    ) -> Result<(), Failure> {
        read_named(
            rt,
            matches.get_str(AVAILABLE_IMPORTS),
            &paths.available_imports,
            &mut self.available_imports,
        )?;
        read_named(
            rt,
            matches.get_str(EXPORTS),
            &paths.exports,
            &mut self.exports,
        )?;
        read_named(
            rt,
            matches.get_str(MODULE_SHAPE),
            &paths.module_shape,
            &mut self.module_shape,
        )
    }

    /// Sets the shapes of `config` to copies of these.
    pub(crate) fn set(&self, alloc: Global, config: &mut Config) -> Result<(), Failure> {
        copy_to(
            alloc,
            &self.available_imports,
            &mut config.available_imports,
        )?;
        copy_to(alloc, &self.exports, &mut config.exports)?;
        copy_to(alloc, &self.module_shape, &mut config.module_shape)
    }
}

// Sets `to` to a copy of `from`, if that is a shape.
fn copy_to(alloc: Global, from: &Option<Shape>, to: &mut Option<Shape>) -> Result<(), Failure> {
    let Some(shape) = from else {
        return Ok(());
    };
    let copy = shape.clone(alloc)?;
    drop(to.replace(copy));
    Ok(())
}

// Reads the file that the word `word` is, or else the file at `path`, if there is one, to `shape`.
fn read_named(
    rt: &HostRuntime,
    word: Option<&str>,
    path: &Option<String>,
    shape: &mut Option<Shape>,
) -> Result<(), Failure> {
    match (word, path) {
        (Some(word), _) => read_path(rt, word, shape),
        (None, Some(path)) => read_path(rt, path.as_str(), shape),
        (None, None) => Ok(()),
    }
}

fn read_path(rt: &HostRuntime, path: &str, shape: &mut Option<Shape>) -> Result<(), Failure> {
    let bytes = read_from(rt, Some(path))?;
    let read = read_shape_file(rt.alloc(), bytes.as_slice());
    drop(bytes);
    match read {
        Ok(read) => {
            drop(shape.replace(read));
            Ok(())
        }
        Err(fault) if fault.is_memory() => Err(Failure::from(Error::Memory)),
        Err(fault) => Err(Failure::Shape(String::from_str(rt.alloc(), path)?, fault)),
    }
}

/// Checks the shapes of `config`, which is sanitised.
pub(crate) fn check_shapes(alloc: Global, config: &Config) -> Result<(), Failure> {
    check_shape(alloc, Which::ModuleShape, &config.module_shape, config)?;
    check_shape(
        alloc,
        Which::AvailableImports,
        &config.available_imports,
        config,
    )?;
    check_shape(alloc, Which::Exports, &config.exports, config)
}

fn check_shape(
    alloc: Global,
    which: Which,
    shape: &Option<Shape>,
    config: &Config,
) -> Result<(), Failure> {
    match shape {
        Some(shape) => Ok(shape.check(alloc, which, config)?),
        None => Ok(()),
    }
}
