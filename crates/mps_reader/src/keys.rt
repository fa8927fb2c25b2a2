//! Keys of a hash that several tables share.

ghost use Rattle.std.specs.Prelude.{◌≡◌};

use std::hash::BuildHasher;

/// Keys of a hash that are lent, so that several tables or readers share them. Its hashers are theirs.
pub struct Lent<'a, B: BuildHasher> {
    keys: &'a B,
}

impl<'a, B: BuildHasher> Lent<'a, B> {
    /// These keys: the hashers that it builds are those that they build.
    pub fn of(keys: &'a B) -> Lent<'a, B>
        ensures { result.keys.now ≡ keys.now }
    {
        Lent { keys }
    }
}

impl<'a, B: BuildHasher> Drop for Lent<'a, B> {
    fn drop(self) {
        let Lent { keys: _ } = self;
    }
}

impl<'a, B: BuildHasher> BuildHasher for Lent<'a, B> {
    type Hasher = B::Hasher;

    ghost build_hasher = { λ l. B.build_hasher l.keys.now };

    fn build_hasher(&self) -> B::Hasher {
        self.keys.build_hasher()
    }
}
