//! The prepositions of commands, by the words that spell them (docs/reference/commands.md, "Prepositions").
ghost use Rattle.std.specs.Prelude.{◌≡◌, ◌≤◌, length, map, IfSome};
ghost use Rattle.moo_command.specs.Inner.{form_of, form_table, form_among, begins_with};

use moo_value::MooStr;
use moo_world_object::{Preposition, same_name};

/// A spelling of a preposition.
#[derive(Clone, Copy)]
struct Form {
    preposition: Preposition,
    words: &'static [&'static [u8]],
}

// No form comes after one with fewer words.
const FORMS: [Form; 28] = [
    Form {
        preposition: Preposition::InFrontOf,
        words: &[b"in", b"front", b"of"],
    },
    Form {
        preposition: Preposition::OnTopOf,
        words: &[b"on", b"top", b"of"],
    },
    Form {
        preposition: Preposition::OutOf,
        words: &[b"out", b"of"],
    },
    Form {
        preposition: Preposition::OutOf,
        words: &[b"from", b"inside"],
    },
    Form {
        preposition: Preposition::Off,
        words: &[b"off", b"of"],
    },
    Form {
        preposition: Preposition::With,
        words: &[b"with"],
    },
    Form {
        preposition: Preposition::With,
        words: &[b"using"],
    },
    Form {
        preposition: Preposition::At,
        words: &[b"at"],
    },
    Form {
        preposition: Preposition::At,
        words: &[b"to"],
    },
    Form {
        preposition: Preposition::Inside,
        words: &[b"in"],
    },
    Form {
        preposition: Preposition::Inside,
        words: &[b"inside"],
    },
    Form {
        preposition: Preposition::Inside,
        words: &[b"into"],
    },
    Form {
        preposition: Preposition::OnTopOf,
        words: &[b"on"],
    },
    Form {
        preposition: Preposition::OnTopOf,
        words: &[b"onto"],
    },
    Form {
        preposition: Preposition::OnTopOf,
        words: &[b"upon"],
    },
    Form {
        preposition: Preposition::OutOf,
        words: &[b"from"],
    },
    Form {
        preposition: Preposition::Over,
        words: &[b"over"],
    },
    Form {
        preposition: Preposition::Through,
        words: &[b"through"],
    },
    Form {
        preposition: Preposition::Under,
        words: &[b"under"],
    },
    Form {
        preposition: Preposition::Under,
        words: &[b"underneath"],
    },
    Form {
        preposition: Preposition::Under,
        words: &[b"beneath"],
    },
    Form {
        preposition: Preposition::Behind,
        words: &[b"behind"],
    },
    Form {
        preposition: Preposition::Beside,
        words: &[b"beside"],
    },
    Form {
        preposition: Preposition::About,
        words: &[b"for"],
    },
    Form {
        preposition: Preposition::About,
        words: &[b"about"],
    },
    Form {
        preposition: Preposition::Is,
        words: &[b"is"],
    },
    Form {
        preposition: Preposition::As,
        words: &[b"as"],
    },
    Form {
        preposition: Preposition::Off,
        words: &[b"off"],
    },
];

/// Returns the preposition at the start of these words, and its number of words. Takes the longest form with which
/// they begin, with letters folded.
#[tactic(auto, unfolding(crate::specs::Inner::form_table))]
pub(crate) fn preposition_at(words: &[MooStr]) -> Option<(Preposition, usize)>
    ensures value { result ≡ form_among form_table words.now }
    ensures fits { IfSome result (λ found. found.1 ≤ length words.now) }
{
    form_among(&FORMS, words)
}

/// Returns the first of these forms with which the words begin.
fn form_among(forms: &[Form], words: &[MooStr]) -> Option<(Preposition, usize)>
    ensures value { result ≡ form_among (map form_of forms.now) words.now }
    ensures fits { IfSome result (λ found. found.1 ≤ length words.now) }
{
    for form in forms {
        if begins_with(words, form.words) {
            return Some((form.preposition, form.words.len()));
        }
    }
    None
}

/// Returns whether words begin with those of a form, with letters folded.
fn begins_with(words: &[MooStr], form: &[&[u8]]) -> bool
    ensures { result ≡ begins_with (map (λ w. w.now) form.now) words.now }
{
    let mut left = words;
    for own in form {
        let Some((word, others)) = left.split_first() else {
            return false;
        };
        if !same_name(own, word.as_bytes()) {
            return false;
        }
        left = others;
    }
    true
}
