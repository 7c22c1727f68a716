//! An index of the verbs of an object by the first letter and the hash of a name.
ghost use Rattle.std.specs.Prelude.{◌≡◌, ◌<◌, ◌≤◌, ◌++◌, ◌∷◌, ℕ, List, [], false, length, IsTrue, OnOk, IfOk, min, max};
ghost use Rattle.moo_world_object.specs.Patterns.{base, ends_in_star};
ghost use Rattle.moo_world_object.specs.declared.verb.Verb.{Verb};
ghost use Rattle.moo_syntax_ast.specs.NameHash.{class_of, hash_of};
ghost use Rattle.moo_world_object.specs.Index.{bucket_of, Holds, IsInBucket, IsListed, Grows, CoversPattern, Covers, AreIndexed};
ghost use Rattle.moo_world_object.specs.Filter.{passes};

use crate::name_filter::NameFilter;
use crate::pattern::{ends_in_star, is_blank, is_star, least_length};
use crate::verb::Verb;
use moo_syntax_ast::{class_of, first_letter, hash_of};
use std::alloc::{AllocError, Global};

/// The number of verbs above which an object has no index, so that a change of a verb takes a bounded time.
const MOST_INDEXED: usize = 1024;

/// The number of bytes of a verb's names above which the verb is listed for all names, so that a change of a verb takes
/// a bounded time.
const LONGEST_INDEXED: usize = 128;

/// A range of places of verbs, from the first to the last. It is empty if the last is less than the first.
#[derive(Clone, Copy, Debug, PartialEq, Eq)]
pub(crate) struct Bucket {
    first: u16,
    last: u16,
}

/// An index by the first letter and the hash of a name. A name that doesn't pass the filter matches no verb. Two buckets
/// hold the verbs with long names or with an open pattern, which is one that ends in a star: the first is for names of
/// class 0, as those of commands that begin with `@`, and the second for all others. Each bucket after them is for the
/// names with some hashes. A name matches no verb outside its two buckets. If there are no buckets, a name that passes
/// may match any verb.
#[derive(Drop)]
pub(crate) struct VerbIndex {
    buckets: Vec<Bucket>,
    mask: u16,
    filter: NameFilter,
}

impl VerbIndex {
    /// Makes the index of no verbs.
    pub(crate) fn new(alloc: Global) -> VerbIndex
        ensures { AreIndexed result [] }
    {
        VerbIndex {
            buckets: Vec::new(alloc),
            mask: 0,
            filter: NameFilter::empty(),
        }
    }

    /// Makes the index of these verbs. Out of memory it lists each verb for all names.
    pub(crate) fn from_verbs(alloc: Global, verbs: &[Verb]) -> VerbIndex
        ensures { AreIndexed result verbs.now }
    {
        match indexed(alloc, verbs) {
            Ok(index) => index,
            Err(_) => VerbIndex::full(alloc),
        }
    }

    // Makes an index that lists each verb for all names.
    fn full(alloc: Global) -> VerbIndex
        ensures { (verbs : List Verb) → AreIndexed result verbs }
    {
        VerbIndex {
            buckets: Vec::new(alloc),
            mask: 0,
            filter: NameFilter::full(),
        }
    }

    /// Adds the last of these verbs to the index of the others. Makes the index anew if it has too few buckets, and lists
    /// each verb for all names after it ran out of memory.
    pub(crate) fn add_last(&mut self, alloc: Global, verbs: &[Verb])
        requires { 0 < length verbs.now }
        ensures { (front : List Verb) (v : Verb) → verbs.now ≡ front ++ v ∷ [] → AreIndexed self.old front → AreIndexed self.new verbs.now }
    {
        if !self.has_room(verbs.len()) {
            *self = VerbIndex::from_verbs(alloc, verbs);
            return;
        }
        let place = verbs.len() - 1;
        let names = verbs[place].names.as_bytes();
        match self.add_names(alloc, names, place as u16) {
            Ok(()) => {}
            Err(_) => *self = VerbIndex::full(alloc),
        }
    }

    // Is true if there are as many buckets as an index of `many` verbs has.
    fn has_room(&self, many: usize) -> bool
        ensures { IsTrue result → many ≤ 1024 }
    {
        !self.buckets.is_empty() && many <= MOST_INDEXED && mask_for(many) == self.mask
    }

    /// Is true if a name with this first letter and this hash may match a verb.
    #[inline(always)]
    pub(crate) fn passes(&self, first: u8, hash: usize) -> bool
        ensures { result ≡ passes self.now.filter.words first hash }
    {
        self.filter.passes(first, hash)
    }

    /// Returns the first and the last place at which a name with this hash may match one of `many` verbs.
    #[inline(always)]
    pub(crate) fn range(&self, hash: usize, many: usize) -> (usize, usize)
        ensures { (i : ℕ) → i < many → IsInBucket self.now hash i → (result.0 ≤ i) × (i ≤ result.1) }
    {
        let own = self.range_at(bucket_of(self.mask, hash), many);
        let open = self.range_at(hash % 2, many);
        (own.0.min(open.0), own.1.max(open.1))
    }

    // Returns the range of a bucket, or that of `many` verbs if there is no such bucket.
    #[inline]
    fn range_at(&self, j: usize, many: usize) -> (usize, usize)
        ensures { (i : ℕ) → i < many → Holds self.now j i → (result.0 ≤ i) × (i ≤ result.1) }
    {
        match self.buckets.get(j) {
            Some(bucket) => (usize::from(bucket.first), usize::from(bucket.last)),
            None => (0, many),
        }
    }

    // Lists a place for all names that a verb with these names has.
    fn add_names(&mut self, alloc: Global, names: &[u8], place: u16) -> Result<(), AllocError>
        ensures grows { Grows self.old self.new }
        ensures covers { OnOk result (Covers self.new names.now place) }
    {
        if names.len() > LONGEST_INDEXED {
            self.add_to_all(place);
            return Ok(());
        }
        for pattern in names.split(|byte| is_blank(*byte)) {
            self.add_pattern(alloc, pattern, place)?;
        }
        Ok(())
    }

    // Lists a place for all names that a pattern matches.
    fn add_pattern(&mut self, alloc: Global, pattern: &[u8], place: u16) -> Result<(), AllocError>
        ensures grows { Grows self.old self.new }
        ensures covers { OnOk result (CoversPattern self.new pattern.now place) }
    {
        if ends_in_star(pattern) {
            self.add_open(pattern, place);
            return Ok(());
        }
        self.add_prefixes(alloc, pattern, place)?;
        Ok(())
    }

    // Lists a place for all names with the first letter of an open pattern, or for all names if it begins with a star.
    fn add_open(&mut self, pattern: &[u8], place: u16)
        ensures grows { Grows self.old self.new }
        ensures covers { CoversPattern self.new pattern.now place }
    {
        let first = first_letter(pattern);
        if is_star(first) {
            self.add_to_all(place);
            return;
        }
        self.filter.add_letter(first);
        self.add(class_of(first), place);
    }

    // Lists a place for all names.
    fn add_to_all(&mut self, place: u16)
        ensures grows { Grows self.old self.new }
        ensures all { (name : List ℕ) → IsListed self.new name place }
    {
        self.filter = NameFilter::full();
        self.add(0, place);
        self.add(1, place);
    }

    // Lists a place for the names that match a pattern that doesn't end in a star. Such a name is a prefix of the base.
    fn add_prefixes(&mut self, alloc: Global, pattern: &[u8], place: u16) -> Result<(), AllocError>
        ensures grows { Grows self.old self.new }
        ensures covers { OnOk result (ends_in_star pattern.now ≡ false → CoversPattern self.new pattern.now place) }
    {
        let base = base_of(alloc, pattern)?;
        for end in least_length(pattern)..base.len() + 1 {
            self.add_name(&base[..end], place);
        }
        Ok(())
    }

    // Lists a place for a name.
    fn add_name(&mut self, name: &[u8], place: u16)
        ensures grows { Grows self.old self.new }
        ensures listed { IsListed self.new name.now place }
    {
        let hash = hash_of(name);
        self.filter.add(first_letter(name), hash);
        self.add(bucket_of(self.mask, hash), place);
    }

    // Adds a place to a bucket, if there is one at `j`.
    fn add(&mut self, j: usize, place: u16)
        ensures grows { Grows self.old self.new }
        ensures holds { Holds self.new j place }
        ensures filter { self.new.filter ≡ self.old.filter }
    {
        if j >= self.buckets.len() {
            return;
        }
        self.buckets[j] = widened(self.buckets[j], place);
    }
}

// Returns the number of the bucket of names with this hash. It comes after the two buckets of open patterns.
#[inline]
fn bucket_of(mask: u16, hash: usize) -> usize
    ensures { result ≡ bucket_of mask hash }
{
    (hash / 2 & usize::from(mask)) * 2 + hash % 2 + 2
}

// Returns the index of verbs. It lists each verb for all names if there are too many.
fn indexed(alloc: Global, verbs: &[Verb]) -> Result<VerbIndex, AllocError>
    ensures { IfOk result (λ index. AreIndexed index verbs.now) }
{
    if verbs.is_empty() {
        return Ok(VerbIndex::new(alloc));
    }
    if verbs.len() > MOST_INDEXED {
        return Ok(VerbIndex::full(alloc));
    }
    let mut index = empty_index(alloc, mask_for(verbs.len()))?;
    for i in 0..verbs.len() {
        let names = verbs[i].names.as_bytes();
        index.add_names(alloc, names, i as u16)?;
    }
    Ok(index)
}

// Returns an index of no verbs, with as many buckets as the mask needs.
fn empty_index(alloc: Global, mask: u16) -> Result<VerbIndex, AllocError>
    requires { mask < 4096 }
{
    let empty = Bucket {
        first: u16::MAX,
        last: 0,
    };
    Ok(VerbIndex {
        buckets: vec![in alloc; empty; usize::from(mask) * 2 + 4]?,
        mask,
        filter: NameFilter::empty(),
    })
}

// Returns the mask for a number of verbs. Each class has at least four buckets for each verb.
fn mask_for(many: usize) -> u16
    ensures { result < 4096 }
{
    match many {
        0..=2 => 7,
        3..=8 => 31,
        9..=32 => 127,
        33..=128 => 511,
        129..=512 => 2047,
        _ => 4095,
    }
}

// Returns a pattern without its stars.
fn base_of(alloc: Global, pattern: &[u8]) -> Result<Vec<u8>, AllocError>
    ensures { IfOk result (λ letters. letters.items ≡ base pattern.now) }
{
    let mut letters = Vec::with_capacity(alloc, pattern.len())?;
    for byte in pattern {
        if !is_star(*byte) {
            letters.push(*byte)?;
        }
    }
    Ok(letters)
}

// Returns the bucket with a place added.
fn widened(bucket: Bucket, place: u16) -> Bucket
    ensures first { result.first ≡ min bucket.first place }
    ensures last { result.last ≡ max bucket.last place }
{
    Bucket {
        first: bucket.first.min(place),
        last: bucket.last.max(place),
    }
}
