//! Tables of names, in the order in which they came.

ghost use Rattle.std.specs.Prelude.{◌≡◌, ◌++◌, ◌∷◌, [], IfOk, OnErr, not, true, is_some};
ghost use Rattle.mps_reader.specs.Words.{value_under};
ghost use Rattle.mps_reader.specs.Tables.{table};

use indexmap::IndexMap;
use std::alloc::AllocError;
use std::hash::BuildHasher;

/// Whether a name stands in the table.
pub fn has<'a, V: Drop, B: BuildHasher + Drop>(
    names: &IndexMap<&'a [u8], V, B>,
    name: &'a [u8],
) -> bool
    ensures { result ≡ is_some (value_under (table names.now.entries) name.now) }
{
    names.contains_key(name)
}

/// Puts a name behind the others, or says that it is there already. The one error is want of memory.
pub fn add<'a, V: Drop, B: BuildHasher + Drop>(
    names: &mut IndexMap<&'a [u8], V, B>,
    name: &'a [u8],
    value: V,
) -> Result<bool, AllocError>
    ensures new { IfOk result (λ is_new. is_new ≡ not (is_some (value_under (table names.old.entries) name.now))) }
    ensures added { IfOk result (λ is_new. is_new ≡ true → table names.new.entries ≡ table names.old.entries ++ (name.now, value) ∷ []) }
    ensures err { OnErr result (table names.new.entries ≡ table names.old.entries) }
{
    match names.insert(name, value) {
        Ok(None) => Ok(true),
        Ok(Some(_)) => Ok(false),
        Err(_) => Err(AllocError),
    }
}
