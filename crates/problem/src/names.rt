// Names of columns.
ghost use Rattle.std.specs.Prelude.{◌≡◌, ◌<◌, IfOk, length, map, string_bytes, slice_get, Some};

use std::alloc::{AllocError, Global};
use std::marker::Model;

/// Names, seen as a list of texts.
#[derive(Debug, Drop)]
pub struct Names {
    items: Vec<String>,
}

impl Model for Names {
    ghost use Rattle.std.specs.Prelude.{List, ℕ, map, string_bytes};

    ghost Value = { List (List ℕ) };

    ghost view = { λ n. map string_bytes n.items.items };
}

impl Names {
    /// The list of these names.
    pub fn make(items: Vec<String>) -> Names
        ensures { result ≡ map string_bytes items.items }
    {
        Names { items }
    }

    /// How many names there are.
    pub fn len(&self) -> usize
        ensures { result ≡ length self.now }
    {
        self.items.len()
    }

    /// The bytes of a name that is there.
    pub fn name(&self, index: usize) -> &[u8]
        requires { index < length self.now }
        ensures { slice_get self.now index ≡ Some result.now }
    {
        self.items[index].as_bytes()
    }

    /// Equal names. The one error is want of memory.
    pub fn copy(&self, alloc: Global) -> Result<Names, AllocError>
        ensures { IfOk result (λ n. n ≡ self.now) }
    {
        let items = copied(alloc, &self.items)?;
        Ok(Names { items })
    }
}

/// Equal texts.
fn copied(alloc: Global, texts: &[String]) -> Result<Vec<String>, AllocError>
    ensures { IfOk result (λ v. map string_bytes v.items ≡ map string_bytes texts.now) }
{
    let mut copies = Vec::new(alloc);
    for text in texts {
        copies.push(text.clone()?)?;
    }
    Ok(copies)
}
