// The texts that a crash may leave under main, now and at earlier moments.
ghost use Rattle.std.specs.Prelude.{◌≡◌, ◌≤◌, ◌<◌, ◌+◌, ℕ, length, drop, [], ◌∷◌, IfSome, IfNone, IfOk, IfErr, OnOk, OnErr, IsOk, Contains, slice_get, Some, true};
ghost use Rattle.moo_disk.specs.Disk.{Gains, NoText};
ghost use Rattle.moo_disk.specs.Texts.{Brings, Enters, IsEachOnce, SameTexts, first_at, texts_from};
ghost use Rattle.std.specs.Option.{option_map};

use std::alloc::{AllocError, AllocFailed, Global};
use std::mem;

/// Holds each text once, in the order in which they entered.
#[derive(Drop)]
pub struct CrashSet {
    /// The text that entered first.
    base: Vec<u8>,
    /// The texts that entered after it. The ones that a crash can no longer leave come first.
    later: Vec<Vec<u8>>,
    /// The index in `later` of the first text that a crash may still leave.
    first: usize,
    /// The values of `first` before each time that only one text was left.
    starts: Vec<usize>,
    ghost in_range: { first ≤ length later.items },
    ghost rising: { (t : ℕ) → first_at starts.items first t ≤ first },
    ghost each_once: { IsEachOnce (texts_from base.items later.items first) },
}

impl CrashSet {
    ghost use Rattle.moo_disk.specs.CrashSet.{crash_view, room_of, texts_of};

    /// Returns a set of one text.
    pub fn new(alloc: Global, text: Vec<u8>) -> CrashSet
        ensures { texts_of result ≡ text.items ∷ [] }
    {
        CrashSet {
            base: text,
            later: Vec::new(alloc),
            first: 0,
            starts: Vec::new(alloc),
        }
    }

    /// Returns the number of texts.
    pub fn count(&self) -> usize
        ensures { result ≡ length (texts_of self.now) }
    {
        self.later.len() - self.first + 1
    }

    /// Returns the text at index `place`.
    pub fn get(&self, place: usize) -> &[u8]
        requires { place < length (texts_of self.now) }
        ensures { slice_get (texts_of self.now) place ≡ Some result.now }
    {
        if place == 0 {
            return &self.base;
        }
        &self.later[self.first + place - 1]
    }

    // Returns the texts after the first one.
    fn after_first(&self) -> &[Vec<u8>]
        ensures { result.now ≡ drop self.now.first self.now.later.items }
    {
        &self.later[self.first..]
    }

    // Returns the index of a text, if the set has it.
    fn place_of(&self, text: &[u8]) -> Option<usize>
        ensures found { IfSome result (λ place. slice_get (texts_of self.now) place
            ≡ Some text.now) }
        ensures absent { IfNone result (¬ Contains (texts_of self.now) text.now) }
    {
        if self.base.as_slice() == text {
            return Some(0);
        }
        for (i, one) in self.after_first().iter().enumerate() {
            if one.as_slice() == text {
                return Some(i + 1);
            }
        }
        None
    }

    /// Reserves memory for `texts` more texts. Fails if memory runs out.
    pub fn reserve(&mut self, texts: usize) -> Result<(), AllocError>
        ensures room { OnOk result (texts ≤ room_of self.new) }
        ensures same { texts_of self.new ≡ texts_of self.old }
        ensures gains { Gains NoText (crash_view self.old) (crash_view self.new) }
    {
        self.later.reserve(texts)
    }

    /// Adds a text to the set, and returns its index. If memory runs out, the text comes back in the error.
    pub fn enter(&mut self, text: Vec<u8>) -> Result<usize, AllocFailed<Vec<u8>>>
        ensures place { IfOk result (λ place. slice_get (texts_of self.new) place
            ≡ Some text.items) }
        ensures entered { OnOk result (Enters text.items (texts_of self.old) (texts_of self.new)) }
        ensures gains { Gains (λ c. c ≡ text.items) (crash_view self.old) (crash_view self.new) }
        ensures same { OnErr result (texts_of self.new ≡ texts_of self.old) }
        ensures value { IfErr result (λ failed. failed.value ≡ text) }
        ensures succeeds { 0 < room_of self.old → IsOk result }
        ensures room { room_of self.old ≤ room_of self.new + 1 }
    {
        if let Some(place) = self.place_of(&text) {
            return Ok(place);
        }
        self.later.push(text)?;
        Ok(self.later.len() - self.first)
    }

    /// Adds the text of a file to the set, and returns its index. If the text isn't stable, a crash may also leave
    /// the file empty. If memory runs out, the text comes back in the error.
    pub fn bring(
        &mut self,
        alloc: Global,
        text: Vec<u8>,
        stable: bool,
    ) -> Result<usize, AllocFailed<Vec<u8>>>
        ensures place { IfOk result (λ place. slice_get (texts_of self.new) place
            ≡ Some text.items) }
        ensures brought { OnOk result (Brings stable text.items (texts_of self.old)
            (texts_of self.new)) }
        ensures gains { Gains (λ c. stable ≡ true → c ≡ text.items)
            (crash_view self.old) (crash_view self.new) }
        ensures same { OnErr result (texts_of self.new ≡ texts_of self.old) }
        ensures value { IfErr result (λ failed. failed.value ≡ text) }
    {
        if stable {
            return self.enter(text);
        }
        if self.reserve(2).is_err() {
            return Err(AllocFailed { value: text });
        }
        if self.enter(Vec::new(alloc)).is_err() {
            return Err(AllocFailed { value: text });
        }
        self.enter(text)
    }

    /// Removes all texts but the one at index `place`. Fails if memory runs out.
    pub fn settle(&mut self, place: usize) -> Result<(), AllocError>
        requires { place < length (texts_of self.old) }
        ensures alone { OnOk result (option_map (λ text. text ∷ []) (slice_get (texts_of self.old) place)
            ≡ Some (texts_of self.new)) }
        ensures gains { Gains NoText (crash_view self.old) (crash_view self.new) }
        ensures same { OnErr result (texts_of self.new ≡ texts_of self.old) }
    {
        self.starts.push(self.first)?;
        bring_to_front(&mut self.base, &mut self.later, self.first, place);
        self.first = self.later.len();
        Ok(())
    }

    /// Returns the text at index `place`.
    pub fn into_text(self, place: usize) -> Vec<u8>
        requires { place < length (texts_of self) }
        ensures { slice_get (texts_of self) place ≡ Some result.items }
    {
        let CrashSet {
            base,
            mut later,
            first,
            starts: _,
        } = self;
        if place == 0 {
            return base;
        }
        later.swap_remove(first + place - 1)
    }
}

// Swaps the text at index `place` with the first one.
fn bring_to_front(base: &mut Vec<u8>, later: &mut Vec<Vec<u8>>, first: usize, place: usize)
    requires { place < length (texts_from base.old.items later.old.items first) }
    ensures front { slice_get (texts_from base.old.items later.old.items first) place
        ≡ Some base.new.items }
    ensures len { length later.new.items ≡ length later.old.items }
    ensures same { (k : ℕ) → k ≤ first
        → SameTexts (texts_from base.old.items later.old.items k) (texts_from base.new.items later.new.items k) }
{
    if place == 0 {
        return;
    }
    mem::swap(base, &mut later[first + place - 1]);
}
