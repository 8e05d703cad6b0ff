ghost use Rattle.std.specs.Prelude.{◌≡◌, ◌++◌, string_bytes, IfOk, IfErr, OnOk, OnErr};
ghost use Rattle.std.specs.HashSet.{IsUnchanged};
ghost use Rattle.smith_bytes.specs.Source.{KeepsPieces};
ghost use Rattle.smith_bytes.specs.Kebab.{kebab_at, IsKebab};
ghost use Rattle.smith_bytes.specs.Names.{text_at, url_front, url_path, IsMadeNew, AddsName};

use crate::error::Error;
use crate::kebab::draw_kebab_string;
use crate::text::limited_string;
use crate::unstructured::Unstructured;
use std::alloc::Global;
use std::collections::HashSet;
use std::fmt::Write;

/// Draws a string that is not in `names`, and adds it to `names`.
///
/// The string starts with at most `max_size` drawn bytes. The size of `names`, in decimal digits,
/// is then appended repeatedly until the string is new.
///
/// # Examples
///
/// ```rust
/// let mut names = HashSet::new(rt.alloc());
/// let mut u = Unstructured::new(b"aa\x01\x01");
/// assert_eq!(rt; unique_string(rt.alloc(), 1, &mut names, &mut u)?.as_str(), "a");
/// assert_eq!(rt; unique_string(rt.alloc(), 1, &mut names, &mut u)?.as_str(), "a1");
/// ```
pub fn unique_string(
    alloc: Global,
    max_size: usize,
    names: &mut HashSet<String>,
    u: &mut Unstructured<'_>,
) -> Result<String, Error>
    // The name.
    ensures made { IfOk result (λ name.
        IsMadeNew names.old (text_at max_size u.old).0 (string_bytes name)) }
    ensures added { IfOk result (λ name. AddsName names.old names.new (string_bytes name)) }

    // Refusals.
    ensures kept { OnErr result (IsUnchanged names.old names.new) }
    ensures memory { IfErr result (λ e. e ≡ Error.Memory) }

    // The source.
    ensures rest { OnOk result (u.new ≡ (text_at max_size u.old).1) }
    ensures left { KeepsPieces u.old u.new }
{
    unique(names, limited_string(alloc, max_size, u)?)
}

/// Draws a kebab name that is not in `names`, and adds it to `names`.
///
/// The name starts with at most `max_size` drawn characters. An `a` is appended if the name would
/// otherwise be empty or end in a dash. The name is then made new as in [`unique_string`].
///
/// # Examples
///
/// ```rust
/// let mut names = HashSet::new(rt.alloc());
/// let mut u = Unstructured::new(&[26, 26, 2]);
/// assert_eq!(rt; unique_kebab_string(rt.alloc(), 9, &mut names, &mut u)?.as_str(), "a0");
/// ```
pub fn unique_kebab_string(
    alloc: Global,
    max_size: usize,
    names: &mut HashSet<String>,
    u: &mut Unstructured<'_>,
) -> Result<String, Error>
    // The name.
    ensures made { IfOk result (λ name.
        IsMadeNew names.old (kebab_at max_size u.old).0 (string_bytes name)) }
    ensures shape { IfOk result (λ name. IsKebab (string_bytes name)) }
    ensures added { IfOk result (λ name. AddsName names.old names.new (string_bytes name)) }

    // Refusals.
    ensures kept { OnErr result (IsUnchanged names.old names.new) }
    ensures memory { IfErr result (λ e. e ≡ Error.Memory) }

    // The source.
    ensures rest { OnOk result (u.new ≡ (kebab_at max_size u.old).1) }
    ensures left { KeepsPieces u.old u.new }
{
    unique(names, draw_kebab_string(alloc, max_size, u)?)
}

/// Draws a URL below `https://example.com/`. Its path is a kebab name of at most `max_size` drawn
/// characters, as in [`unique_kebab_string`].
///
/// `names` holds paths: the path is not in `names`, and is added to `names`.
///
/// # Examples
///
/// ```rust
/// let mut names = HashSet::new(rt.alloc());
/// let mut u = Unstructured::new(&[26, 26, 2]);
/// let url = unique_url(rt.alloc(), 9, &mut names, &mut u)?;
/// assert_eq!(rt; url.as_str(), "https://example.com/a0");
/// assert!(rt; names.contains("a0"));
/// ```
pub fn unique_url(
    alloc: Global,
    max_size: usize,
    names: &mut HashSet<String>,
    u: &mut Unstructured<'_>,
) -> Result<String, Error>
    // The URL and its path.
    ensures front { IfOk result (λ url.
        string_bytes url ≡ url_front ++ url_path (string_bytes url)) }
    ensures made { IfOk result (λ url.
        IsMadeNew names.old (kebab_at max_size u.old).0 (url_path (string_bytes url))) }
    ensures shape { IfOk result (λ url. IsKebab (url_path (string_bytes url))) }
    ensures added { IfOk result (λ url.
        AddsName names.old names.new (url_path (string_bytes url))) }

    // Refusals.
    ensures kept { OnErr result (IsUnchanged names.old names.new) }
    ensures memory { IfErr result (λ e. e ≡ Error.Memory) }

    // The source.
    ensures rest { OnOk result (u.new ≡ (kebab_at max_size u.old).1) }
    ensures left { KeepsPieces u.old u.new }
{
    let path = made_new(names, draw_kebab_string(alloc, max_size, u)?)?;
    let url = url_of(alloc, &path)?;
    names.insert(path)?;
    Ok(url)
}

/// Returns the URL with the path `path`.
fn url_of(alloc: Global, path: &str) -> Result<String, Error>
    ensures exact { IfOk result (λ url. string_bytes url ≡ url_front ++ path.now) }
    ensures memory { IfErr result (λ e. e ≡ Error.Memory) }
{
    Ok(format!(in alloc; "https://example.com/{path}")?)
}

/// Makes `text` new in `names` as [`made_new`] does, and adds the result to `names`.
fn unique(names: &mut HashSet<String>, text: String) -> Result<String, Error>
    ensures made { IfOk result (λ name.
        IsMadeNew names.old (string_bytes text) (string_bytes name)) }
    ensures added { IfOk result (λ name. AddsName names.old names.new (string_bytes name)) }
    ensures kept { OnErr result (IsUnchanged names.old names.new) }
    ensures memory { IfErr result (λ e. e ≡ Error.Memory) }
{
    let name = made_new(names, text)?;
    names.insert(name.clone()?)?;
    Ok(name)
}

/// Appends the size of `names` to `text` repeatedly until `text` is not in `names`.
fn made_new(names: &HashSet<String>, text: String) -> Result<String, Error>
    ensures made { IfOk result (λ name.
        IsMadeNew names.now (string_bytes text) (string_bytes name)) }
    ensures memory { IfErr result (λ e. e ≡ Error.Memory) }
{
    let mut name = text;
    while names.contains(&name) {
        write!(name, "{}", names.len())?;
    }
    Ok(name)
}
