//! The ticks of a task.
ghost use Rattle.std.specs.Prelude.{◌≡◌, ◌-◌, ◌<◌, ◌≤◌, ℕ, pos, IsTrue, IsFalse};
ghost use Rattle.moo_eval_semantics.specs.Tasks.{most_ticks};

use std::marker::Model;

/// How many ticks a task begins with.
pub const MOST_TICKS: u32 = 100_000;

/// Counts the ticks that a task has left.
#[derive(Drop)]
pub struct Ticks {
    left: u32,
}

impl Model for Ticks {
    ghost use Rattle.std.specs.Prelude.{ℕ, ◌≤◌};
    ghost use Rattle.moo_eval_semantics.specs.Tasks.{most_ticks};

    ghost Value = { ℕ };

    ghost view = { λ t. t.left };

    ghost invariant = { λ t. t.left ≤ most_ticks };
}

impl Ticks {
    /// Returns the ticks of a task that begins.
    pub fn full() -> Ticks
        ensures { result ≡ most_ticks }
    {
        Ticks { left: MOST_TICKS }
    }

    /// Takes one tick if one is left, and returns whether it did.
    pub fn take(&mut self) -> bool
        ensures taken { IsTrue result → (0 < self.old) × (self.new ≡ self.old - 1) }
        ensures spent { IsFalse result → (self.old ≡ 0) × (self.new ≡ self.old) }
    {
        if self.left == 0 {
            return false;
        }
        self.left -= 1;
        true
    }

    /// Takes ticks until so many are left.
    pub fn leave(&mut self, left: u32)
        requires { left ≤ self.old }
        ensures { self.new ≡ left }
    {
        self.left = left;
    }

    /// Returns how many ticks are left, as an integer of the language.
    pub fn left(&self) -> i32
        ensures { result ≡ pos self.now }
    {
        self.left as i32
    }
}
