//! A cache of the names in texts: equal names share one string.
ghost use Rattle.std.specs.Prelude.{◌≡◌, ◌<◌, IfOk};
ghost use Rattle.moo_value.specs.Size.{IsString};

use moo_value::MooStr;
use std::alloc::{AllocError, Global};

const ROWS: usize = 256;

/// Marks a row that has no name.
const NONE: u16 = u16::MAX;

/// A cache of names, one for each row. Texts that are read with the same cache share the strings of their names.
#[derive(Drop)]
pub struct NameInterner {
    names: Vec<MooStr>,
    /// The index in `names` of the name in each row.
    rows: [u16; ROWS],
}

impl NameInterner {
    /// Returns an empty cache.
    pub fn new(alloc: Global) -> NameInterner {
        NameInterner {
            names: Vec::new(alloc),
            rows: [NONE; ROWS],
        }
    }

    /// Returns the string of a name: the cached one if the cache still holds it, or a new one.
    pub(crate) fn string(&mut self, alloc: Global, name: &[u8]) -> Result<MooStr, AllocError>
        requires { IsString name.now }
        ensures { IfOk result (λ s. s ≡ name.now) }
    {
        let row = row(name);
        let number = usize::from(self.rows[row]);
        match self.names.get(number) {
            Some(known) if known.as_bytes() == name => known.try_clone(),
            Some(_) => self.replaced(alloc, number, name),
            None => self.added(alloc, row, name),
        }
    }

    // Returns a new string for a name, which replaces another name in the cache.
    #[inline(never)]
    fn replaced(&mut self, alloc: Global, number: usize, name: &[u8]) -> Result<MooStr, AllocError>
        requires { IsString name.now }
        ensures { IfOk result (λ s. s ≡ name.now) }
    {
        let string = MooStr::from_slice(alloc, name)?;
        if let Some(place) = self.names.get_mut(number) {
            *place = string.try_clone()?;
        }
        Ok(string)
    }

    // Returns a new string for a name, which takes an empty row of the cache.
    #[inline(never)]
    fn added(&mut self, alloc: Global, row: usize, name: &[u8]) -> Result<MooStr, AllocError>
        requires row { row < 256 }
        requires string { IsString name.now }
        ensures { IfOk result (λ s. s ≡ name.now) }
    {
        let string = MooStr::from_slice(alloc, name)?;
        if let Ok(number) = u16::try_from(self.names.len()) {
            self.names.push(string.try_clone()?)?;
            self.rows[row] = number;
        }
        Ok(string)
    }
}

// Returns the row of a name, a hash of its length and three of its bytes. Names of one letter have different rows.
fn row(name: &[u8]) -> usize
    ensures { result < 256 }
{
    match (name.first(), name.get(name.len() / 2), name.last()) {
        (Some(first), Some(middle), Some(last)) => {
            let letters = 5 * usize::from(*first) + 11 * usize::from(*middle);
            (name.len() + letters + 29 * usize::from(*last)) % ROWS
        }
        _ => 0,
    }
}
