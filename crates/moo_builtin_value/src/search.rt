//! Searches one string in another with letters folded, without a copy of either.
ghost use Rattle.std.specs.Prelude.{◌↔◌, ◌+◌, ◌≤◌, length, IsTrue, IsFalse};
ghost use Rattle.memchr.specs.Find.{FindsNeedle, OccursAt};
ghost use Rattle.moo_value.specs.Compare.{folded};

// The most bytes of a text that is searched place by place. In a longer one that takes too long at worst.
const SHORT: usize = 128;

/// Is true if a text is so short that it is searched place by place.
pub fn is_short(text: &[u8]) -> bool {
    text.len() <= SHORT
}

/// Returns the first place from `from` on at which `wanted` occurs in a text, with letters folded.
#[tactic(auto, using(crate::proofs::Occurring::too_long, crate::proofs::Occurring::found_here))]
pub fn folded_find(text: &[u8], wanted: &[u8], from: usize) -> Option<usize>
    ensures { FindsNeedle (folded text.now) (folded wanted.now) from result }
{
    if wanted.len() > text.len() {
        return None;
    }
    let last = text.len() - wanted.len();
    let mut at = from;
    while at <= last {
        if occurs(text, wanted, at) {
            return Some(at);
        }
        at += 1;
    }
    None
}

// Is true if `wanted` occurs at a place of a text, with letters folded.
#[inline(always)]
fn occurs(text: &[u8], wanted: &[u8], at: usize) -> bool
    requires { at + length wanted.now ≤ length text.now }
    ensures { IsTrue result ↔ OccursAt (folded text.now) (folded wanted.now) at }
{
    may_occur(text, wanted, at) && text[at..at + wanted.len()].eq_ignore_ascii_case(wanted)
}

// Is true if the byte at a place of a text is the first one of `wanted`, with letters folded, or if `wanted` is empty.
#[inline(always)]
fn may_occur(text: &[u8], wanted: &[u8], at: usize) -> bool
    requires { at + length wanted.now ≤ length text.now }
    ensures { IsFalse result → ¬ OccursAt (folded text.now) (folded wanted.now) at }
{
    match wanted {
        [first, ..] => text[at].eq_ignore_ascii_case(first),
        [] => true,
    }
}
