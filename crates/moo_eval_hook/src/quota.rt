//! Quotas of owners.
ghost use Rattle.std.specs.Prelude.{◌≡◌, ◌+ℤ◌, Some, IfOk};
ghost use Rattle.std.specs.Int.{int_wrap, w32};
ghost use Rattle.moo_value.specs.View.{tree};
ghost use Rattle.moo_eval_semantics.specs.Quota.{integer_in, quota, is_used_up, with_quota};

use moo_value::Value;
use moo_world::{World, WorldFault};
use std::alloc::{AllocError, Global};

/// The property that holds a quota.
const QUOTA: &[u8] = b"ownership_quota";

/// Returns the quota of an owner: the integer in its property, if it has one. Err is out of memory.
pub(crate) fn quota(alloc: Global, world: &World, owner: i32) -> Result<Option<i32>, AllocError>
    ensures { IfOk result (λ left. left ≡ quota world.now owner) }
{
    match world.get(alloc, owner, QUOTA) {
        Ok(value) => Ok(integer_in(&value)),
        Err(WorldFault::Raise(_)) => Ok(None),
        Err(WorldFault::Memory) => Err(AllocError),
    }
}

fn integer_in(value: &Value) -> Option<i32>
    ensures { result ≡ integer_in (Some (tree value.now)) }
{
    match value {
        Value::Int(number) => Some(*number),
        _ => None,
    }
}

/// Returns whether a quota allows no further object.
pub(crate) fn is_used_up(quota: Option<i32>) -> bool
    ensures { result ≡ is_used_up quota }
{
    match quota {
        Some(left) => left <= 0,
        None => false,
    }
}

/// Sets an owner's quota to `quota` plus `change`, modulo 2^32. Changes nothing if `quota` is `None`, or if the owner
/// has no such property any more.
pub(crate) fn change_quota(world: &mut World, owner: i32, quota: Option<i32>, change: i32)
    ensures { world.new ≡ with_quota world.old owner quota change }
{
    let Some(left) = quota else {
        return;
    };
    let value = Value::Int(sum(left, change));
    // If the owner no longer has the property, nothing is set.
    let _set = world.set(owner, QUOTA, value);
}

fn sum(a: i32, b: i32) -> i32
    ensures { result ≡ int_wrap w32 (a +ℤ b) }
{
    a.wrapping_add(b)
}
