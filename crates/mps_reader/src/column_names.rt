//! The names of a problem's columns.

ghost use Rattle.std.specs.Prelude.{◌≡◌, ◌++◌, ◌∷◌, [], IfOk, OnOk, All, map, string_bytes};
ghost use Rattle.std.specs.Str.{IsAscii};
ghost use Rattle.mps_reader.specs.Tables.{table};

use crate::kinds::Column;
use indexmap::IndexMap;
use problem::Names;
use std::alloc::{AllocError, Global};
use std::hash::BuildHasher;

/// A text of these bytes, which are ASCII, so that none is replaced. The one error is want of memory.
fn ascii_text(alloc: Global, bytes: &[u8]) -> Result<String, AllocError>
    requires { IsAscii bytes.now }
    ensures { IfOk result (λ s. string_bytes s ≡ bytes.now) }
{
    String::from_utf8_lossy(alloc, bytes)
}

/// Puts a name, which is ASCII, behind the others. The one error is want of memory.
fn push_name(alloc: Global, names: &mut Vec<String>, name: &[u8]) -> Result<(), AllocError>
    requires { IsAscii name.now }
    ensures { OnOk result (map string_bytes names.new.items ≡ map string_bytes names.old.items ++ name.now ∷ []) }
{
    names.push(ascii_text(alloc, name)?)?;
    Ok(())
}

/// The names in the table, in its order. The names are ASCII. The one error is want of memory.
pub fn column_names<'a, B: BuildHasher + Drop>(
    alloc: Global,
    columns: &IndexMap<&'a [u8], Column, B>,
) -> Result<Names, AllocError>
    requires { All (λ e. IsAscii e.0.now) columns.now.entries }
    ensures { IfOk result (λ n. n ≡ map (λ c. c.0) (table columns.now.entries)) }
{
    let mut names = Vec::new(alloc);
    for (name, _column) in columns.iter() {
        push_name(alloc, &mut names, *name)?;
    }
    Ok(Names::make(names))
}
