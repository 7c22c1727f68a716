//! Operators and punctuation.
ghost use Rattle.std.specs.Prelude.{◌≡◌, ◌<◌, ◌≤◌, length, IfSome};
ghost use Rattle.moo_syntax_token.specs.Signs.{sign_of_two, sign_of_one, sign_at};

/// An operator or a punctuation mark.
#[derive(Clone, Copy, PartialEq, Eq, Debug)]
pub enum Sign {
    LeftParen,
    RightParen,
    LeftBrace,
    RightBrace,
    LeftBracket,
    RightBracket,
    Comma,
    Dot,
    DotDot,
    Colon,
    Semicolon,
    Question,
    Pipe,
    OrOr,
    AndAnd,
    Assign,
    Equal,
    Arrow,
    Backquote,
    Quote,
    Bang,
    NotEqual,
    Less,
    LessEqual,
    Greater,
    GreaterEqual,
    Dollar,
    At,
    Plus,
    Minus,
    Star,
    Slash,
    Percent,
    Caret,
}

impl Sign {
    ghost use Rattle.moo_syntax_token.specs.Spelling.{sign_text};

    /// Returns the sign's spelling.
    pub fn text(self) -> &'static str
        ensures { result.now ≡ sign_text self }
    {
        match self {
            Sign::LeftParen => "(",
            Sign::RightParen => ")",
            Sign::LeftBrace => "{",
            Sign::RightBrace => "}",
            Sign::LeftBracket => "[",
            Sign::RightBracket => "]",
            Sign::Comma => ",",
            Sign::Dot => ".",
            Sign::DotDot => "..",
            Sign::Colon => ":",
            Sign::Semicolon => ";",
            Sign::Question => "?",
            Sign::Pipe => "|",
            Sign::OrOr => "||",
            Sign::AndAnd => "&&",
            Sign::Assign => "=",
            Sign::Equal => "==",
            Sign::Arrow => "=>",
            Sign::Backquote => "`",
            Sign::Quote => "'",
            Sign::Bang => "!",
            Sign::NotEqual => "!=",
            Sign::Less => "<",
            Sign::LessEqual => "<=",
            Sign::Greater => ">",
            Sign::GreaterEqual => ">=",
            Sign::Dollar => "$",
            Sign::At => "@",
            Sign::Plus => "+",
            Sign::Minus => "-",
            Sign::Star => "*",
            Sign::Slash => "/",
            Sign::Percent => "%",
            Sign::Caret => "^",
        }
    }
}

fn sign_of_two(a: u8, b: u8) -> Option<Sign>
    ensures { result ≡ sign_of_two a b }
{
    match (a, b) {
        (b'.', b'.') => Some(Sign::DotDot),
        (b'=', b'=') => Some(Sign::Equal),
        (b'=', b'>') => Some(Sign::Arrow),
        (b'!', b'=') => Some(Sign::NotEqual),
        (b'<', b'=') => Some(Sign::LessEqual),
        (b'>', b'=') => Some(Sign::GreaterEqual),
        (b'|', b'|') => Some(Sign::OrOr),
        (b'&', b'&') => Some(Sign::AndAnd),
        _ => None,
    }
}

fn sign_of_one(a: u8) -> Option<Sign>
    ensures { result ≡ sign_of_one a }
{
    match a {
        b'(' => Some(Sign::LeftParen),
        b')' => Some(Sign::RightParen),
        b'{' => Some(Sign::LeftBrace),
        b'}' => Some(Sign::RightBrace),
        b'[' => Some(Sign::LeftBracket),
        b']' => Some(Sign::RightBracket),
        b',' => Some(Sign::Comma),
        b'.' => Some(Sign::Dot),
        b':' => Some(Sign::Colon),
        b';' => Some(Sign::Semicolon),
        b'?' => Some(Sign::Question),
        b'|' => Some(Sign::Pipe),
        b'=' => Some(Sign::Assign),
        b'`' => Some(Sign::Backquote),
        b'\'' => Some(Sign::Quote),
        b'!' => Some(Sign::Bang),
        b'<' => Some(Sign::Less),
        b'>' => Some(Sign::Greater),
        b'$' => Some(Sign::Dollar),
        b'@' => Some(Sign::At),
        b'+' => Some(Sign::Plus),
        b'-' => Some(Sign::Minus),
        b'*' => Some(Sign::Star),
        b'/' => Some(Sign::Slash),
        b'%' => Some(Sign::Percent),
        b'^' => Some(Sign::Caret),
        _ => None,
    }
}

/// Returns the longest sign that the bytes begin with, and its length, or `None` if they begin with no sign.
#[tactic(auto, unfolding(crate::specs::Signs::sign_at))]
pub fn sign_at(bytes: &[u8]) -> Option<(Sign, usize)>
    ensures is { result ≡ sign_at bytes.now }
    ensures fits { IfSome result (λ s. (0 < s.1) × (s.1 ≤ length bytes.now)) }
{
    match bytes {
        [] => None,
        [a] => sign_of_one(*a).map(|sign| (sign, 1)),
        [a, b, ..] => match sign_of_two(*a, *b) {
            Some(sign) => Some((sign, 2)),
            None => sign_of_one(*a).map(|sign| (sign, 1)),
        },
    }
}
