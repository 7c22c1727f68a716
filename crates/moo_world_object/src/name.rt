//! Names, which are compared without regard to case.
ghost use Rattle.std.specs.Prelude.{◌≡◌, ◌↔◌, ◌<◌, ◌≤◌, ◌+◌, IfOk, IsTrue, filter, length, not, position, slice_set};
ghost use Rattle.std.specs.Char.{to_ascii_lowercase};
ghost use Rattle.std.specs.List.{list_any};
ghost use Rattle.moo_value.specs.Compare.{folded};
ghost use Rattle.moo_world_object.specs.Names.{same_name};

use moo_value::MooStr;
use std::alloc::{AllocError, Global};

/// Is true if the two names are the same, in any case.
#[tactic(auto, using(crate::proofs::Names::tested))]
#[inline]
pub fn same_name(one: &[u8], other: &[u8]) -> bool
    ensures folds { IsTrue result ↔ (folded one.now ≡ folded other.now) }
    ensures value { result ≡ same_name (folded one.now) (folded other.now) }
{
    if one.len() != other.len() {
        return false;
    }
    begin_alike(one, other)
}

/// Is true if two names of one hash are the same, in any case. Most are, also in case, so it compares the bytes first.
#[inline(always)]
pub(crate) fn same_hashed_name(one: &[u8], other: &[u8]) -> bool
    ensures { result ≡ same_name (folded one.now) (folded other.now) }
{
    if has_same_bytes(one, other) {
        return true;
    }
    same_name(one, other)
}

// Is true if two names have the same bytes. Most names with a hash have from 13 to 32 bytes, of which it compares the
// first and the last 8 or 16: these meet or overlap, and their number is a constant, so no loop is needed.
#[inline(always)]
fn has_same_bytes(one: &[u8], other: &[u8]) -> bool
    ensures { IsTrue result → one.now ≡ other.now }
{
    let many = one.len();
    if many != other.len() {
        return false;
    }
    if many < 8 || many > 32 {
        return one == other;
    }
    if many <= 16 {
        return has_same_ends(one, other, 8);
    }
    has_same_ends(one, other, 16)
}

// Is true if the first and the last `count` bytes of two names of the same length are the same, which are all bytes.
#[inline(always)]
fn has_same_ends(one: &[u8], other: &[u8], count: usize) -> bool
    requires same { length one.now ≡ length other.now }
    requires low { count ≤ length one.now }
    requires high { length one.now ≤ count + count }
    ensures { IsTrue result → one.now ≡ other.now }
{
    let rest = one.len() - count;
    if is_same_part(&one[..count], &other[..count]) {
        return is_same_part(&one[rest..], &other[rest..]);
    }
    false
}

// Is true if two parts have the same bytes.
#[inline(always)]
fn is_same_part(one: &[u8], other: &[u8]) -> bool
    ensures { IsTrue result → one.now ≡ other.now }
{
    if one.len() != other.len() {
        return false;
    }
    one.starts_with(other)
}

// Is true if two names of the same length are the same, in any case.
#[inline]
fn begin_alike(one: &[u8], other: &[u8]) -> bool
    requires { length one.now ≡ length other.now }
    ensures { IsTrue result ↔ (folded one.now ≡ folded other.now) }
{
    for i in 0..one.len() {
        if !is_same_letter(one[i], other[i]) {
            return false;
        }
    }
    true
}

// Compares two letters without regard to case. Most are the same, so it compares the bytes first.
#[inline]
fn is_same_letter(one: u8, other: u8) -> bool
    ensures { IsTrue result ↔ (to_ascii_lowercase one ≡ to_ascii_lowercase other) }
{
    one == other || one.to_ascii_lowercase() == other.to_ascii_lowercase()
}

/// Returns a name in lower case.
pub fn folded_name(alloc: Global, name: &MooStr) -> Result<MooStr, AllocError>
    ensures { IfOk result (λ s. s ≡ folded name.now) }
{
    let mut bytes = Vec::with_capacity(alloc, name.as_bytes().len())?;
    for byte in name.as_bytes() {
        bytes.push(byte.to_ascii_lowercase())?;
    }
    // A string in lower case is a string too, so that only the allocation can fail.
    MooStr::try_from_vec(alloc, bytes).map_err(|_| AllocError)
}

pub(crate) fn position_of_name(defined: &[MooStr], name: &[u8]) -> Option<usize>
    ensures { result ≡ position (λ n. same_name (folded name.now) (folded n)) defined.now }
{
    defined
        .iter()
        .position(|other| same_name(name, other.as_bytes()))
}

pub(crate) fn put_name(names: &mut Vec<MooStr>, index: usize, name: MooStr)
    requires { index < length names.old.items }
    ensures { names.new.items ≡ slice_set names.old.items index name }
{
    names[index] = name;
}

pub(crate) fn defines_name(defined: &[MooStr], name: &[u8]) -> bool
    ensures { result ≡ list_any (λ n. same_name (folded name.now) (folded n)) defined.now }
{
    defined
        .iter()
        .any(|other| same_name(name, other.as_bytes()))
}

pub(crate) fn forget_name(names: &mut Vec<MooStr>, name: &[u8])
    ensures { names.new.items ≡ filter (λ n. not (same_name (folded name.now) (folded n))) names.old.items }
{
    names.retain(|other| !same_name(name, other.as_bytes()));
}
