//! The target of a request: a path, or a host and a path.
ghost use Rattle.std.specs.Prelude.{◌≡◌, ◌≤◌, Option, None, Some, cond, drop, length, take};
ghost use Rattle.std.specs.Option.{option_map};
ghost use Rattle.moo_cli_web_request.specs.Requests.{authority_length, ends_authority, is_absolute, path_of};

use crate::allowed::is_same;

/// The scheme of an absolute target.
const SCHEME: &[u8] = b"http://";

/// Returns the authority of an absolute target.
pub(crate) fn authority_of(target: &[u8]) -> Option<&[u8]>
    ensures { option_map (λ authority. authority.now) result
        ≡ cond (is_absolute target.now) (Some (take (authority_length (drop 7 target.now)) (drop 7 target.now))) None }
{
    if !is_absolute(target) {
        return None;
    }
    let rest = &target[SCHEME.len()..];
    Some(&rest[..authority_length(rest)])
}

/// Returns the path of a target, with its query.
pub(crate) fn path_of(target: &[u8]) -> &[u8]
    ensures { result.now ≡ path_of target.now }
{
    if !is_absolute(target) {
        return target;
    }
    let rest = &target[SCHEME.len()..];
    match &rest[authority_length(rest)..] {
        [] => b"/",
        path => path,
    }
}

// Returns whether a target begins with its scheme. The case of letters doesn't matter.
fn is_absolute(target: &[u8]) -> bool
    ensures { result ≡ is_absolute target.now }
{
    target.len() >= SCHEME.len() && is_same(&target[..SCHEME.len()], SCHEME)
}

// Returns the number of bytes of the authority at the front.
fn authority_length(bytes: &[u8]) -> usize
    ensures length { result ≡ authority_length bytes.now }
    ensures within { result ≤ length bytes.now }
{
    for (i, byte) in bytes.iter().enumerate() {
        if ends_authority(*byte) {
            return i;
        }
    }
    bytes.len()
}

// Returns whether a byte ends the authority of an absolute target.
fn ends_authority(byte: u8) -> bool
    ensures { result ≡ ends_authority byte }
{
    byte == b'/' || byte == b'?'
}
