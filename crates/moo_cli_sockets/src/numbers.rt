//! Lists of the numbers of connections.
ghost use Rattle.std.specs.Prelude.{ℕ, ◌<◌, Contains};
ghost use Rattle.std.specs.List.{AllPairs};

/// Sorts numbers, the lowest first, and drops repetitions.
pub fn sort_numbers(numbers: &mut Vec<u16>)
    ensures rising { AllPairs (λ a b. a < b) numbers.new.items }
    ensures kept { (c : ℕ) → Contains numbers.old.items c → Contains numbers.new.items c }
{
    numbers.sort_unstable();
    numbers.dedup();
}
