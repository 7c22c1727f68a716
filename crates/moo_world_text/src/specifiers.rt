//! The texts of object and preposition specifiers.
ghost use Rattle.std.specs.Prelude.{◌≡◌, ◌||◌};
ghost use Rattle.std.specs.List.{find};
ghost use Rattle.moo_world_text.specs.Specifiers.{same_text, object_specifier_text, object_specifier_of, is_slash, preposition_text, has_form, is_text_of, preposition_of, preposition_specifier_text, preposition_specifier_of};

use moo_world_object::{ObjectSpecifier, Preposition, PrepositionSpecifier, same_name};

const SPECIFIERS: [ObjectSpecifier; 3] = [
    ObjectSpecifier::None,
    ObjectSpecifier::Any,
    ObjectSpecifier::This,
];

const PREPOSITIONS: [Preposition; 15] = [
    Preposition::With,
    Preposition::At,
    Preposition::InFrontOf,
    Preposition::Inside,
    Preposition::OnTopOf,
    Preposition::OutOf,
    Preposition::Over,
    Preposition::Through,
    Preposition::Under,
    Preposition::Behind,
    Preposition::Beside,
    Preposition::About,
    Preposition::Is,
    Preposition::As,
    Preposition::Off,
];

/// Returns `none`, `any` or `this`.
pub fn object_specifier_text(specifier: ObjectSpecifier) -> &'static [u8]
    ensures { result.now ≡ object_specifier_text specifier }
{
    match specifier {
        ObjectSpecifier::None => b"none",
        ObjectSpecifier::Any => b"any",
        ObjectSpecifier::This => b"this",
    }
}

/// Parses an object specifier, in any case. Returns `None` if the text is none of them.
pub fn object_specifier_from_text(text: &[u8]) -> Option<ObjectSpecifier>
    ensures { result ≡ object_specifier_of text.now }
{
    specifier_among(&SPECIFIERS, text)
}

fn specifier_among(specifiers: &[ObjectSpecifier], text: &[u8]) -> Option<ObjectSpecifier>
    ensures { result ≡ find (λ specifier. same_text text.now (object_specifier_text specifier)) specifiers.now }
{
    specifiers
        .iter()
        .copied()
        .find(|specifier| is_text_of_specifier(text, *specifier))
}

fn is_text_of_specifier(text: &[u8], specifier: ObjectSpecifier) -> bool
    ensures { result ≡ same_text text.now (object_specifier_text specifier) }
{
    same_name(text, object_specifier_text(specifier))
}

/// Returns the forms of a preposition, with slashes between them.
pub fn preposition_text(preposition: Preposition) -> &'static [u8]
    ensures { result.now ≡ preposition_text preposition }
{
    match preposition {
        Preposition::With => b"with/using",
        Preposition::At => b"at/to",
        Preposition::InFrontOf => b"in front of",
        Preposition::Inside => b"in/inside/into",
        Preposition::OnTopOf => b"on top of/on/onto/upon",
        Preposition::OutOf => b"out of/from inside/from",
        Preposition::Over => b"over",
        Preposition::Through => b"through",
        Preposition::Under => b"under/underneath/beneath",
        Preposition::Behind => b"behind",
        Preposition::Beside => b"beside",
        Preposition::About => b"for/about",
        Preposition::Is => b"is",
        Preposition::As => b"as",
        Preposition::Off => b"off/off of",
    }
}

/// Parses a preposition: one of its forms, or all of them with slashes between, in any case. Returns `None` if the text
/// is none of these.
pub fn preposition_from_text(text: &[u8]) -> Option<Preposition>
    ensures { result ≡ preposition_of text.now }
{
    preposition_among(&PREPOSITIONS, text)
}

fn preposition_among(prepositions: &[Preposition], text: &[u8]) -> Option<Preposition>
    ensures { result ≡ find (λ preposition. is_text_of text.now preposition) prepositions.now }
{
    prepositions
        .iter()
        .copied()
        .find(|preposition| is_text_of(text, *preposition))
}

fn is_text_of(text: &[u8], preposition: Preposition) -> bool
    ensures { result ≡ is_text_of text.now preposition }
{
    let forms = preposition_text(preposition);
    same_name(text, forms) || has_form(text, forms)
}

fn has_form(text: &[u8], forms: &[u8]) -> bool
    ensures { result ≡ has_form text.now forms.now }
{
    forms
        .split(|byte| is_slash(*byte))
        .any(|form| is_same(text, form))
}

fn is_same(text: &[u8], form: &[u8]) -> bool
    ensures { result ≡ same_text text.now form.now }
{
    same_name(text, form)
}

fn is_slash(byte: u8) -> bool
    ensures { result ≡ is_slash byte }
{
    byte == b'/'
}

/// Returns `none`, `any`, or the forms of the preposition.
pub fn preposition_specifier_text(specifier: PrepositionSpecifier) -> &'static [u8]
    ensures { result.now ≡ preposition_specifier_text specifier }
{
    match specifier {
        PrepositionSpecifier::None => b"none",
        PrepositionSpecifier::Any => b"any",
        PrepositionSpecifier::One(preposition) => preposition_text(preposition),
    }
}

/// Parses a preposition specifier: `none`, `any`, or a preposition in one form or all of them. Returns `None` if the
/// text is none of these.
pub fn preposition_specifier_from_text(text: &[u8]) -> Option<PrepositionSpecifier>
    ensures { result ≡ preposition_specifier_of text.now }
{
    if is_same(text, b"none") {
        return Some(PrepositionSpecifier::None);
    }
    if is_same(text, b"any") {
        return Some(PrepositionSpecifier::Any);
    }
    let preposition = preposition_from_text(text)?;
    Some(PrepositionSpecifier::One(preposition))
}
