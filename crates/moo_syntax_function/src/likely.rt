//! A first guess at the function that a name calls, from its length and a letter or two.

use crate::function::Function;

/// Returns the only function whose name can be this one, in lower case: no other name of that length has these letters.
/// The function's name may still differ from it.
pub(crate) fn likely(name: &[u8]) -> Option<Function> {
    match name.len() {
        3 => of_three(name[1]),
        4 => of_four(name[0]),
        5 => of_five(name[4]),
        6 => of_six(name[5]),
        7 => of_seven(name[0]),
        8 => of_eight(name[2]),
        9 => of_nine(name[3], name[5]),
        10 => of_ten(name[8]),
        11 => of_eleven(name[0]),
        12 => of_twelve(name[0]),
        13 => of_thirteen(name[0], name[9]),
        14 => of_fourteen(name[2]),
        15 => of_fifteen(name[0]),
        17 => of_seventeen(name[10]),
        _ => None,
    }
}

fn of_three(second: u8) -> Option<Function> {
    match second {
        b'i' => Some(Function::Min),
        b'a' => Some(Function::Max),
        b'b' => Some(Function::Abs),
        _ => None,
    }
}

fn of_four(first: u8) -> Option<Function> {
    match first {
        b't' => Some(Function::Time),
        b'm' => Some(Function::Move),
        b'p' => Some(Function::Pass),
        b'e' => Some(Function::Eval),
        _ => None,
    }
}

fn of_five(last: u8) -> Option<Function> {
    match last {
        b'r' => Some(Function::Tostr),
        b't' => Some(Function::Toint),
        b'm' => Some(Function::Tonum),
        b'j' => Some(Function::Toobj),
        b'l' => Some(Function::Equal),
        b'x' => Some(Function::Index),
        b'd' => Some(Function::Valid),
        b's' => Some(Function::Verbs),
        b'e' => Some(Function::Raise),
        _ => None,
    }
}

fn of_six(last: u8) -> Option<Function> {
    match last {
        b'f' => Some(Function::Typeof),
        b'h' => Some(Function::Length),
        b'p' => Some(Function::Strcmp),
        b'x' => Some(Function::Rindex),
        b'b' => Some(Function::Strsub),
        b'd' => Some(Function::SetAdd),
        b't' => Some(Function::Parent),
        b'e' => Some(Function::Create),
        b'y' => Some(Function::Notify),
        _ => None,
    }
}

fn of_seven(first: u8) -> Option<Function> {
    match first {
        b'l' => Some(Function::ListSet),
        b'p' => Some(Function::Players),
        b'r' => Some(Function::Recycle),
        b'c' => Some(Function::Callers),
        _ => None,
    }
}

fn of_eight(third: u8) -> Option<Function> {
    match third {
        b'i' => Some(Function::Children),
        b'd' => Some(Function::AddVerb),
        b'p' => Some(Function::Chparent),
        b'u' => Some(Function::Shutdown),
        _ => None,
    }
}

fn of_nine(fourth: u8, sixth: u8) -> Option<Function> {
    match (fourth, sixth) {
        (b'i', _) => Some(Function::Toliteral),
        (b'r', _) => Some(Function::SetRemove),
        (b'm', _) => Some(Function::IsMember),
        (b'p', _) => Some(Function::IsPlayer),
        (b'b', b'i') => Some(Function::VerbInfo),
        (b'b', b'a') => Some(Function::VerbArgs),
        (b'b', b'c') => Some(Function::VerbCode),
        _ => None,
    }
}

fn of_ten(ninth: u8) -> Option<Function> {
    match ninth {
        b'n' => Some(Function::ListAppend),
        b'r' => Some(Function::ListInsert),
        b't' => Some(Function::ListDelete),
        b'c' => Some(Function::MaxObject),
        b'e' => Some(Function::Properties),
        b'f' => Some(Function::TicksLeft),
        b'o' => Some(Function::ServerLog),
        _ => None,
    }
}

fn of_eleven(first: u8) -> Option<Function> {
    match first {
        b'd' => Some(Function::DeleteVerb),
        b'b' => Some(Function::BootPlayer),
        _ => None,
    }
}

fn of_twelve(first: u8) -> Option<Function> {
    match first {
        b'a' => Some(Function::AddProperty),
        b'c' => Some(Function::CallerPerms),
        b'i' => Some(Function::IdleSeconds),
        _ => None,
    }
}

fn of_thirteen(first: u8, tenth: u8) -> Option<Function> {
    match (first, tenth) {
        (b'p', _) => Some(Function::PropertyInfo),
        (b's', b'i') => Some(Function::SetVerbInfo),
        (b's', b'a') => Some(Function::SetVerbArgs),
        (b's', b'c') => Some(Function::SetVerbCode),
        (b'd', _) => Some(Function::DumpDatabase),
        _ => None,
    }
}

fn of_fourteen(third: u8) -> Option<Function> {
    match third {
        b'e' => Some(Function::ClearProperty),
        b'r' => Some(Function::ServerVersion),
        b't' => Some(Function::SetTaskPerms),
        _ => None,
    }
}

fn of_fifteen(first: u8) -> Option<Function> {
    match first {
        b's' => Some(Function::SetPlayerFlag),
        b'd' => Some(Function::DeleteProperty),
        _ => None,
    }
}

fn of_seventeen(eleventh: u8) -> Option<Function> {
    match eleventh {
        b't' => Some(Function::SetPropertyInfo),
        b'r' => Some(Function::IsClearProperty),
        b'p' => Some(Function::ConnectedPlayers),
        b's' => Some(Function::ConnectedSeconds),
        _ => None,
    }
}
