//! Permissions as letters: one for each that is granted, in a fixed order.
ghost use Rattle.std.specs.Prelude.{◌≡◌, IfOk};
ghost use Rattle.std.specs.Char.{to_ascii_lowercase};
ghost use Rattle.moo_world_text.specs.Permissions.{marked, prop_perms_text, verb_perms_text, is_letter, has_letter, is_one_of, has_only, prop_perms_of, verb_perms_of};

use moo_value::MooStr;
use moo_world_object::{PropPerms, VerbPerms};
use std::alloc::{AllocError, Global};

/// Returns the letters of a property's permissions, out of `rwc`.
pub fn prop_perms_text(alloc: Global, perms: PropPerms) -> Result<MooStr, AllocError>
    ensures { IfOk result (λ s. s ≡ prop_perms_text perms) }
{
    let marks = [
        (perms.read, b'r'),
        (perms.write, b'w'),
        (perms.change_owner, b'c'),
    ];
    let letters = marked(alloc, &marks)?;
    MooStr::try_from_vec(alloc, letters).map_err(|_| AllocError)
}

/// Returns the letters of a verb's permissions, out of `rwxd`.
pub fn verb_perms_text(alloc: Global, perms: VerbPerms) -> Result<MooStr, AllocError>
    ensures { IfOk result (λ s. s ≡ verb_perms_text perms) }
{
    let marks = [
        (perms.read, b'r'),
        (perms.write, b'w'),
        (perms.execute, b'x'),
        (perms.debug, b'd'),
    ];
    let letters = marked(alloc, &marks)?;
    MooStr::try_from_vec(alloc, letters).map_err(|_| AllocError)
}

fn marked(alloc: Global, marks: &[(bool, u8)]) -> Result<Vec<u8>, AllocError>
    ensures { IfOk result (λ v. v.items ≡ marked marks.now) }
{
    marks
        .iter()
        .filter(|mark| mark.0)
        .map(|mark| mark.1)
        .collect(alloc)
}

/// Parses the permissions of a property: letters out of `rwc`, in any case and order. Returns `None` if the text has
/// any other byte.
pub fn prop_perms_from_text(text: &[u8]) -> Option<PropPerms>
    ensures { result ≡ prop_perms_of text.now }
{
    if !has_only(text, b"rwc") {
        return None;
    }
    Some(PropPerms {
        read: has_letter(text, b'r'),
        write: has_letter(text, b'w'),
        change_owner: has_letter(text, b'c'),
    })
}

/// Parses the permissions of a verb: letters out of `rwxd`, in any case and order. Returns `None` if the text has any
/// other byte.
pub fn verb_perms_from_text(text: &[u8]) -> Option<VerbPerms>
    ensures { result ≡ verb_perms_of text.now }
{
    if !has_only(text, b"rwxd") {
        return None;
    }
    Some(VerbPerms {
        read: has_letter(text, b'r'),
        write: has_letter(text, b'w'),
        execute: has_letter(text, b'x'),
        debug: has_letter(text, b'd'),
    })
}

fn has_only(text: &[u8], letters: &[u8]) -> bool
    ensures { result ≡ has_only letters.now text.now }
{
    text.iter().all(|byte| is_one_of(*byte, letters))
}

fn is_one_of(byte: u8, letters: &[u8]) -> bool
    ensures { result ≡ is_one_of letters.now byte }
{
    letters.iter().any(|letter| is_letter(*letter, byte))
}

fn has_letter(text: &[u8], letter: u8) -> bool
    ensures { result ≡ has_letter letter text.now }
{
    text.iter().any(|byte| is_letter(letter, *byte))
}

fn is_letter(letter: u8, byte: u8) -> bool
    ensures { result ≡ is_letter letter byte }
{
    byte.to_ascii_lowercase() == letter
}
