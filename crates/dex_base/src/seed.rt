//! What hashes begin with.
ghost use Rattle.std.specs.Prelude.{◌≡◌};
ghost use Rattle.std.specs.Hash.FoldHasher.{initial};
ghost use Rattle.dex_base.specs.Begun.{hasher_of, fed_with};

use std::hash::{BuildHasher, FoldHasher, Hasher};

/// What each hash of a set or a map begins with, before the first unit of the key. Keys that were made to have one hash with a known
/// seed don't have one with a seed that is drawn. The hasher isn't a cryptographic one.
///
/// No result depends on it: the sets and maps that use it keep the order of insertion.
///
/// ```
/// use dex_base::Seed;
/// use std::hash::BuildHasher;
///
/// assert!(rt; Seed::new(7).hash_one(1u8) == Seed::new(7).hash_one(1u8));
/// ```
#[derive(Clone, Copy)]
pub struct Seed {
    begun: FoldHasher,
}

impl Seed {
    /// The seed of a number.
    pub fn new(number: u64) -> Seed
        ensures { hasher_of result ≡ fed_with number }
    {
        let mut begun = FoldHasher::default();
        begun.write_u64(number);
        Seed { begun }
    }

    /// The seed of who draws none: always the same.
    pub fn fixed() -> Seed
        ensures { hasher_of result ≡ initial }
    {
        Seed {
            begun: FoldHasher::default(),
        }
    }
}

impl BuildHasher for Seed {
    type Hasher = FoldHasher;

    ghost build_hasher = { hasher_of };

    fn build_hasher(&self) -> FoldHasher {
        self.begun
    }
}
