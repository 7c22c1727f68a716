//! An Earley recogniser, which follows all derivations together: for each place of a text it holds the rules that may
//! apply there, how much of each is read, and where it began.
ghost use Rattle.std.specs.Prelude.{◌≡◌, ◌-◌, ◌+◌, ◌≤◌, length, IfOk, OnOk};

use std::alloc::{AllocError, Global};

/// An Earley item: a rule, how much of it is read, and the place where it began.
#[derive(Clone, Copy, PartialEq, Eq)]
pub struct Item {
    rule: &'static str,
    inside: bool,
    next: usize,
    start: usize,
}

/// The tokens read so far, as the sets of items at each place.
#[derive(Drop)]
pub struct Recogniser {
    rules: Vec<&'static str>,
    places: Vec<Vec<Item>>,
}

/// The greatest number of items at a place.
const MOST_ITEMS: usize = 2000;

impl Item {
    /// Returns the next symbol of the rule, or `None` at the rule's end.
    fn symbol(&self) -> Option<u8> {
        let symbol = *self.rule.as_bytes().get(self.next)?;
        if self.inside {
            Some(symbol.to_ascii_lowercase())
        } else {
            Some(symbol)
        }
    }

    /// Returns the symbol that the rule is a rule of.
    fn name(&self) -> Option<u8> {
        let name = *self.rule.as_bytes().get(0)?;
        if self.inside {
            Some(name.to_ascii_lowercase())
        } else {
            Some(name)
        }
    }

    fn moved(&self) -> Item {
        Item {
            rule: self.rule,
            inside: self.inside,
            next: self.next.wrapping_add(1),
            start: self.start,
        }
    }
}

fn add(items: &mut Vec<Item>, item: Item) -> Result<(), AllocError> {
    if items.iter().any(|other| *other == item) {
        return Ok(());
    }
    items.push(item)?;
    Ok(())
}

impl Recogniser {
    /// Makes a recogniser of these rules at the beginning of a program.
    pub fn new(alloc: Global, lists: &[&[&'static str]]) -> Result<Recogniser, AllocError>
        ensures { IfOk result (λ r. length r.places.items ≡ 1) }
    {
        let mut rules = Vec::new(alloc);
        for list in lists {
            rules.extend_from_slice(list)?;
        }
        let mut recogniser = Recogniser {
            rules,
            places: Vec::new(alloc),
        };
        let mut first = Vec::new(alloc);
        recogniser.predict(b'P', &mut first)?;
        recogniser.close(&mut first)?;
        recogniser.places.push(first)?;
        Ok(recogniser)
    }

    /// Reads a token and adds the place after it.
    pub fn read(&mut self, alloc: Global, token: u8) -> Result<(), AllocError>
        ensures { OnOk result (length self.new.places.items ≡ length self.old.places.items + 1) }
    {
        let mut items = Vec::new(alloc);
        if let Some(last) = self.places.last() {
            for item in last {
                if item.symbol() == Some(token) {
                    items.push(item.moved())?;
                }
            }
        }
        self.close(&mut items)?;
        self.places.push(items)?;
        Ok(())
    }

    /// Takes back the last token and the place after it.
    pub fn back(&mut self)
        ensures { length self.new.places.items ≡ length self.old.places.items - 1 }
    {
        self.places.pop();
    }

    /// Returns how many of the tokens begin some program.
    pub fn viable(&self) -> usize
        ensures { result ≤ length self.now.places.items - 1 }
    {
        let places = self
            .places
            .iter()
            .take_while(|items| !items.is_empty())
            .count();
        places.saturating_sub(1)
    }

    /// Is true if the tokens are a program.
    pub fn accepts(&self) -> bool {
        match self.places.last() {
            Some(items) => items.iter().any(|item| item.symbol() == None
                && item.name() == Some(b'P')
                && item.start == 0),
            None => false,
        }
    }

    /// Adds the items that those of the last place lead to.
    fn close(&self, items: &mut Vec<Item>) -> Result<(), AllocError> {
        for at in 0..MOST_ITEMS {
            let Some(item) = items.get(at).copied() else {
                return Ok(());
            };
            match item.symbol() {
                Some(symbol) if symbol.is_ascii_alphabetic() => self.predict(symbol, items)?,
                Some(_) => {}
                None => self.complete(item, items)?,
            }
        }
        Ok(())
    }

    /// Adds the rules of the symbol.
    fn predict(&self, symbol: u8, items: &mut Vec<Item>) -> Result<(), AllocError> {
        for rule in &self.rules {
            let name = *rule.as_bytes().get(0).unwrap_or(&0);
            let inside = symbol.is_ascii_lowercase();
            if name == symbol || inside && name == symbol.to_ascii_uppercase() {
                add(
                    items,
                    Item {
                        rule: *rule,
                        inside,
                        next: 2,
                        start: self.places.len(),
                    },
                )?;
            }
        }
        Ok(())
    }

    /// Adds the items that waited for the symbol of this complete rule.
    fn complete(&self, item: Item, items: &mut Vec<Item>) -> Result<(), AllocError> {
        if let Some(waiting) = self.places.get(item.start) {
            for other in waiting {
                if other.symbol() == item.name() {
                    add(items, other.moved())?;
                }
            }
        }
        Ok(())
    }
}
