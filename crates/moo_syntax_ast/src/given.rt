//! The names of the variables that every frame has.
ghost use Rattle.std.specs.Prelude.{◌≡◌};
ghost use Rattle.moo_syntax_ast.specs.Given.{given_name, given_slot, given_of, is_given, likely};

/// A variable that every frame has ('Naming Values Within a Verb' of the LambdaMOO Programmer's Manual).
#[derive(Clone, Copy)]
pub enum Given {
    Num,
    Int,
    Obj,
    Str,
    Err,
    List,
    Float,
    Player,
    This,
    Caller,
    Dobj,
    Iobj,
    Verb,
    Argstr,
    Dobjstr,
    Prepstr,
    Iobjstr,
    Args,
}

impl Given {
    /// The number of these variables.
    pub const COUNT: usize = 18;

    /// Returns the variable's slot, from 0 on.
    pub fn slot(self) -> usize
        ensures { result ≡ given_slot self }
    {
        self as usize
    }

    /// Returns the variable that has this name, in any case, or `None` if none has it.
    pub fn from_name(name: &[u8]) -> Option<Given>
        ensures { result ≡ given_of name.now }
    {
        let letter = name.first()?.to_ascii_lowercase();
        let given = likely(name.len(), letter)?;
        if given.is(name) { Some(given) } else { None }
    }

    // Is true if this is the variable's name, in any case.
    fn is(self, name: &[u8]) -> bool
        ensures { result ≡ is_given name.now self }
    {
        self.name().as_bytes().eq_ignore_ascii_case(name)
    }

    /// Returns the variable's spelling.
    pub fn name(self) -> &'static str
        ensures { result.now ≡ given_name self }
    {
        match self {
            Given::Num => "NUM",
            Given::Int => "INT",
            Given::Obj => "OBJ",
            Given::Str => "STR",
            Given::Err => "ERR",
            Given::List => "LIST",
            Given::Float => "FLOAT",
            Given::Player => "player",
            Given::This => "this",
            Given::Caller => "caller",
            Given::Dobj => "dobj",
            Given::Iobj => "iobj",
            Given::Verb => "verb",
            Given::Argstr => "argstr",
            Given::Dobjstr => "dobjstr",
            Given::Prepstr => "prepstr",
            Given::Iobjstr => "iobjstr",
            Given::Args => "args",
        }
    }
}

// Returns the only variable whose name has this length and begins with this lower-case letter.
fn likely(length: usize, letter: u8) -> Option<Given>
    ensures { result ≡ likely length letter }
{
    match (length, letter) {
        (3, b'n') => Some(Given::Num),
        (3, b'i') => Some(Given::Int),
        (3, b'o') => Some(Given::Obj),
        (3, b's') => Some(Given::Str),
        (3, b'e') => Some(Given::Err),
        (4, b'l') => Some(Given::List),
        (5, b'f') => Some(Given::Float),
        (6, b'p') => Some(Given::Player),
        (4, b't') => Some(Given::This),
        (6, b'c') => Some(Given::Caller),
        (4, b'd') => Some(Given::Dobj),
        (4, b'i') => Some(Given::Iobj),
        (4, b'v') => Some(Given::Verb),
        (6, b'a') => Some(Given::Argstr),
        (7, b'd') => Some(Given::Dobjstr),
        (7, b'p') => Some(Given::Prepstr),
        (7, b'i') => Some(Given::Iobjstr),
        (4, b'a') => Some(Given::Args),
        _ => None,
    }
}
