//! The argument specifiers of a verb, which select the commands that it answers.
ghost use Rattle.std.specs.Prelude.{◌≡◌, ◌≤◌, IfSome, IfNone, ◌<ℤ◌, negsuc, pos, ◌⊎◌};

/// The direct or indirect object that a command needs for a verb.
#[derive(Clone, Copy, Debug, PartialEq, Eq)]
pub enum ObjectSpecifier {
    None,
    Any,
    This,
}

/// The preposition that a command needs for a verb.
#[derive(Clone, Copy, Debug, PartialEq, Eq)]
pub enum PrepositionSpecifier {
    None,
    Any,
    One(Preposition),
}

/// A preposition of a command. Each has several spellings.
#[derive(Clone, Copy, Debug, PartialEq, Eq)]
pub enum Preposition {
    /// with, using
    With,
    /// at, to
    At,
    /// in front of
    InFrontOf,
    /// in, inside, into
    Inside,
    /// on top of, on, onto, upon
    OnTopOf,
    /// out of, from inside, from
    OutOf,
    /// over
    Over,
    /// through
    Through,
    /// under, underneath, beneath
    Under,
    /// behind
    Behind,
    /// beside
    Beside,
    /// for, about
    About,
    /// is
    Is,
    /// as
    As,
    /// off, off of
    Off,
}

/// The argument specifiers of a verb.
#[derive(Clone, Copy, Debug, PartialEq, Eq)]
pub struct VerbArgs {
    pub direct: ObjectSpecifier,
    pub preposition: PrepositionSpecifier,
    pub indirect: ObjectSpecifier,
}

ghost use Rattle.moo_world_object.specs.Numbers.{object_specifier_number, preposition_number, preposition_specifier_number};

const PREPOSITIONS: [Preposition; 15] = [
    Preposition::With,
    Preposition::At,
    Preposition::InFrontOf,
    Preposition::Inside,
    Preposition::OnTopOf,
    Preposition::OutOf,
    Preposition::Over,
    Preposition::Through,
    Preposition::Under,
    Preposition::Behind,
    Preposition::Beside,
    Preposition::About,
    Preposition::Is,
    Preposition::As,
    Preposition::Off,
];

impl ObjectSpecifier {
    /// Returns the number: 0 none, 1 any, 2 this.
    pub fn number(self) -> u8
        ensures { result ≡ object_specifier_number self }
    {
        self as u8
    }

    /// Returns the specifier that has this number, or `None` if it is above 2.
    pub fn from_number(number: u8) -> Option<ObjectSpecifier>
        ensures found { IfSome result (λ specifier. object_specifier_number specifier ≡ number) }
        ensures none { IfNone result (3 ≤ number) }
    {
        match number {
            0 => Some(ObjectSpecifier::None),
            1 => Some(ObjectSpecifier::Any),
            2 => Some(ObjectSpecifier::This),
            _ => None,
        }
    }
}

impl Preposition {
    /// Returns the number, from 0 to 14.
    pub fn number(self) -> u8
        ensures { result ≡ preposition_number self }
    {
        self as u8
    }

    /// Returns the preposition that has this number, or `None` if it is above 14.
    pub fn from_number(number: u8) -> Option<Preposition>
        ensures found { IfSome result (λ preposition. preposition_number preposition ≡ number) }
        ensures none { IfNone result (15 ≤ number) }
    {
        PREPOSITIONS.get(number as usize).copied()
    }
}

impl PrepositionSpecifier {
    /// Returns the number: -2 any, -1 none, else the preposition's.
    pub fn number(self) -> i32
        ensures { result ≡ preposition_specifier_number self }
    {
        match self {
            PrepositionSpecifier::Any => -2,
            PrepositionSpecifier::None => -1,
            PrepositionSpecifier::One(preposition) => preposition.number() as i32,
        }
    }

    /// Returns the specifier that has this number, or `None` if it is below -2 or above 14.
    pub fn from_number(number: i32) -> Option<PrepositionSpecifier>
        ensures found { IfSome result (λ specifier. preposition_specifier_number specifier ≡ number) }
        ensures none { IfNone result ((number <ℤ negsuc 1) ⊎ (pos 14 <ℤ number)) }
    {
        match number {
            -2 => Some(PrepositionSpecifier::Any),
            -1 => Some(PrepositionSpecifier::None),
            0..=14 => Preposition::from_number(number as u8).map(PrepositionSpecifier::One),
            _ => None,
        }
    }
}
