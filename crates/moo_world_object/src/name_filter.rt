//! A filter of names by their first letter and their hash.
ghost use Rattle.std.specs.Prelude.{◌≡◌, ℕ, true};
ghost use Rattle.moo_world_object.specs.Filter.{passes, Widens};

/// A filter of names. Each word is for the names with some first letters, and each bit of it for those with some hashes.
/// A name passes if its bit is set.
#[derive(Clone, Copy, Debug, PartialEq, Eq)]
pub(crate) struct NameFilter {
    words: [u32; 8],
}

impl NameFilter {
    /// Makes a filter that no name passes.
    pub(crate) fn empty() -> NameFilter {
        NameFilter { words: [0; 8] }
    }

    /// Makes a filter that all names pass.
    pub(crate) fn full() -> NameFilter
        ensures { (first : ℕ) (hash : ℕ) → passes result.words first hash ≡ true }
    {
        NameFilter {
            words: [u32::MAX; 8],
        }
    }

    /// Is true if a name with this first letter and this hash passes.
    #[inline(always)]
    pub(crate) fn passes(&self, first: u8, hash: usize) -> bool
        ensures { result ≡ passes self.now.words first hash }
    {
        self.words[usize::from(first % 8)] >> (hash / 256 % 32) & 1 == 1
    }

    /// Lets the names with this first letter and this hash pass.
    pub(crate) fn add(&mut self, first: u8, hash: usize)
        ensures widens { Widens self.old.words self.new.words }
        ensures added { passes self.new.words first hash ≡ true }
    {
        let place = usize::from(first % 8);
        self.words[place] = self.words[place] | 1 << (hash / 256 % 32);
    }

    /// Lets all names with this first letter pass.
    pub(crate) fn add_letter(&mut self, first: u8)
        ensures widens { Widens self.old.words self.new.words }
        ensures added { (hash : ℕ) → passes self.new.words first hash ≡ true }
    {
        self.words[usize::from(first % 8)] = u32::MAX;
    }
}
