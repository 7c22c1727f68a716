//! Takes ticks.
ghost use Rattle.std.specs.Prelude.{◌≡◌, ◌-◌, ◌<◌, ◌≤◌, IfSome, IfNone};

/// Takes a tick. `None` if none is left.
#[inline(always)]
pub(crate) fn take(left: &mut u32) -> Option<()>
    ensures taken { IfSome result (λ _. (0 < left.old) × (left.new ≡ left.old - 1)) }
    ensures ticks { left.new ≤ left.old }
{
    if *left == 0 {
        return None;
    }
    *left -= 1;
    Some(())
}

/// Takes three ticks. `None` if fewer are left; then none is taken.
#[inline(always)]
pub(crate) fn take_three(left: &mut u32) -> Option<()>
    ensures taken { IfSome result (λ _. (2 < left.old) × (left.new ≡ left.old - 3)) }
    ensures kept { IfNone result (left.new ≡ left.old) }
    ensures ticks { left.new ≤ left.old }
{
    if *left < 3 {
        return None;
    }
    *left -= 3;
    Some(())
}
