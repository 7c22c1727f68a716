//! The built-in functions: their names, their arguments, and the lists by which a name is looked up.
ghost use Rattle.std.specs.Prelude.{◌≡◌};
ghost use Rattle.moo_syntax_function.specs.Table.{function_name, row};
ghost use Rattle.moo_syntax_function.specs.Check.{seen};
ghost use Rattle.moo_syntax_function.specs.Names.{of_length};

use crate::table::{Kind, Row, takes, takes_more, takes_perhaps};

/// A built-in function ('Built-in Functions' in the LambdaMOO Programmer's Manual).
#[derive(Clone, Copy, PartialEq, Eq, Debug)]
pub enum Function {
    Typeof,
    Length,
    Tostr,
    Toliteral,
    Toint,
    Tonum,
    Toobj,
    Equal,
    Strcmp,
    Min,
    Max,
    Abs,
    Index,
    Rindex,
    Strsub,
    ListAppend,
    ListInsert,
    ListSet,
    ListDelete,
    SetAdd,
    SetRemove,
    IsMember,
    Valid,
    Parent,
    Children,
    MaxObject,
    Players,
    IsPlayer,
    SetPlayerFlag,
    Properties,
    Verbs,
    PropertyInfo,
    SetPropertyInfo,
    AddProperty,
    DeleteProperty,
    IsClearProperty,
    ClearProperty,
    VerbInfo,
    VerbArgs,
    VerbCode,
    SetVerbInfo,
    SetVerbArgs,
    SetVerbCode,
    AddVerb,
    DeleteVerb,
    Chparent,
    Time,
    ServerVersion,
    Create,
    Recycle,
    Move,
    Pass,
    Eval,
    Raise,
    Callers,
    CallerPerms,
    SetTaskPerms,
    TicksLeft,
    Notify,
    BootPlayer,
    ConnectedPlayers,
    IdleSeconds,
    ConnectedSeconds,
    DumpDatabase,
    Shutdown,
    ServerLog,
}

impl Function {
    /// Returns the function's name, in lower case.
    pub fn name(self) -> &'static str
        ensures { result.now ≡ function_name self }
    {
        self.row().name
    }

    /// Returns the function's row of the table.
    #[inline(always)]
    pub fn row(self) -> Row
        ensures { seen result ≡ row self }
    {
        match self {
            Function::Typeof => takes("typeof", &[Kind::Any]),
            Function::Length => takes("length", &[Kind::TextOrList]),
            Function::Tostr => takes_more("tostr", &[], Kind::Any),
            Function::Toliteral => takes("toliteral", &[Kind::Any]),
            Function::Toint => takes("toint", &[Kind::Any]),
            Function::Tonum => takes("tonum", &[Kind::Any]),
            Function::Toobj => takes("toobj", &[Kind::Any]),
            Function::Equal => takes("equal", &[Kind::Any, Kind::Any]),
            Function::Strcmp => takes("strcmp", &[Kind::Text, Kind::Text]),
            Function::Min => takes_more("min", &[Kind::Integer], Kind::Integer),
            Function::Max => takes_more("max", &[Kind::Integer], Kind::Integer),
            Function::Abs => takes("abs", &[Kind::Integer]),
            Function::Index => takes_perhaps("index", &[Kind::Text, Kind::Text], &[Kind::Any]),
            Function::Rindex => takes_perhaps("rindex", &[Kind::Text, Kind::Text], &[Kind::Any]),
            Function::Strsub => takes_perhaps(
                "strsub",
                &[Kind::Text, Kind::Text, Kind::Text],
                &[Kind::Any],
            ),
            Function::ListAppend => takes_perhaps(
                "listappend",
                &[Kind::List, Kind::Any],
                &[Kind::Integer],
            ),
            Function::ListInsert => takes_perhaps(
                "listinsert",
                &[Kind::List, Kind::Any],
                &[Kind::Integer],
            ),
            Function::ListSet => takes("listset", &[Kind::List, Kind::Any, Kind::Integer]),
            Function::ListDelete => takes("listdelete", &[Kind::List, Kind::Integer]),
            Function::SetAdd => takes("setadd", &[Kind::List, Kind::Any]),
            Function::SetRemove => takes("setremove", &[Kind::List, Kind::Any]),
            Function::IsMember => takes("is_member", &[Kind::Any, Kind::List]),
            Function::Valid => takes("valid", &[Kind::AnyObject]),
            Function::Parent => takes("parent", &[Kind::ValidObject]),
            Function::Children => takes("children", &[Kind::ValidObject]),
            Function::MaxObject => takes("max_object", &[]),
            Function::Players => takes("players", &[]),
            Function::IsPlayer => takes("is_player", &[Kind::ValidObject]),
            Function::SetPlayerFlag => takes("set_player_flag", &[Kind::ValidObject, Kind::Any]),
            Function::Properties => takes("properties", &[Kind::ValidObject]),
            Function::Verbs => takes("verbs", &[Kind::ValidObject]),
            Function::PropertyInfo => takes("property_info", &[Kind::ValidObject, Kind::Text]),
            Function::SetPropertyInfo => takes(
                "set_property_info",
                &[Kind::ValidObject, Kind::Text, Kind::PropertyChange],
            ),
            Function::AddProperty => takes(
                "add_property",
                &[Kind::ValidObject, Kind::Text, Kind::Any, Kind::PropertyInfo],
            ),
            Function::DeleteProperty => takes("delete_property", &[Kind::ValidObject, Kind::Text]),
            Function::IsClearProperty => takes(
                "is_clear_property",
                &[Kind::ValidObject, Kind::Text],
            ),
            Function::ClearProperty => takes("clear_property", &[Kind::ValidObject, Kind::Text]),
            Function::VerbInfo => takes("verb_info", &[Kind::ValidObject, Kind::Verb]),
            Function::VerbArgs => takes("verb_args", &[Kind::ValidObject, Kind::Verb]),
            Function::VerbCode => takes_perhaps(
                "verb_code",
                &[Kind::ValidObject, Kind::Verb],
                &[Kind::Any, Kind::Any],
            ),
            Function::SetVerbInfo => takes(
                "set_verb_info",
                &[Kind::ValidObject, Kind::Verb, Kind::VerbInfo],
            ),
            Function::SetVerbArgs => takes(
                "set_verb_args",
                &[Kind::ValidObject, Kind::Verb, Kind::VerbArguments],
            ),
            Function::SetVerbCode => takes(
                "set_verb_code",
                &[Kind::ValidObject, Kind::Verb, Kind::Lines],
            ),
            Function::AddVerb => takes(
                "add_verb",
                &[Kind::ValidObject, Kind::VerbInfo, Kind::VerbArguments],
            ),
            Function::DeleteVerb => takes("delete_verb", &[Kind::ValidObject, Kind::Verb]),
            Function::Chparent => takes("chparent", &[Kind::ValidObject, Kind::AnyObject]),
            Function::Time => takes("time", &[]),
            Function::ServerVersion => takes("server_version", &[]),
            Function::Create => takes_perhaps("create", &[Kind::AnyObject], &[Kind::AnyObject]),
            Function::Recycle => takes("recycle", &[Kind::ValidObject]),
            Function::Move => takes("move", &[Kind::ValidObject, Kind::AnyObject]),
            Function::Pass => takes_more("pass", &[], Kind::Any),
            Function::Eval => takes("eval", &[Kind::Text]),
            Function::Raise => takes_perhaps("raise", &[Kind::Error], &[Kind::Text, Kind::Any]),
            Function::Callers => takes("callers", &[]),
            Function::CallerPerms => takes("caller_perms", &[]),
            Function::SetTaskPerms => takes("set_task_perms", &[Kind::AnyObject]),
            Function::TicksLeft => takes("ticks_left", &[]),
            Function::Notify => takes("notify", &[Kind::AnyObject, Kind::Text]),
            Function::BootPlayer => takes("boot_player", &[Kind::AnyObject]),
            Function::ConnectedPlayers => takes_perhaps("connected_players", &[], &[Kind::Any]),
            Function::IdleSeconds => takes("idle_seconds", &[Kind::AnyObject]),
            Function::ConnectedSeconds => takes("connected_seconds", &[Kind::AnyObject]),
            Function::DumpDatabase => takes("dump_database", &[]),
            Function::Shutdown => takes_perhaps("shutdown", &[], &[Kind::Text]),
            Function::ServerLog => takes("server_log", &[Kind::Text]),
        }
    }
}

/// Returns the functions whose names have this length.
pub(crate) fn of_length(length: usize) -> &'static [Function]
    ensures { result.now ≡ of_length length }
{
    match length {
        3 => &[Function::Min, Function::Max, Function::Abs],
        4 => &[
            Function::Time,
            Function::Move,
            Function::Pass,
            Function::Eval,
        ],
        5 => &[
            Function::Tostr,
            Function::Toint,
            Function::Tonum,
            Function::Toobj,
            Function::Equal,
            Function::Index,
            Function::Valid,
            Function::Verbs,
            Function::Raise,
        ],
        6 => &[
            Function::Typeof,
            Function::Length,
            Function::Strcmp,
            Function::Rindex,
            Function::Strsub,
            Function::SetAdd,
            Function::Parent,
            Function::Create,
            Function::Notify,
        ],
        7 => &[
            Function::ListSet,
            Function::Players,
            Function::Recycle,
            Function::Callers,
        ],
        8 => &[
            Function::Children,
            Function::AddVerb,
            Function::Chparent,
            Function::Shutdown,
        ],
        9 => &[
            Function::Toliteral,
            Function::SetRemove,
            Function::IsMember,
            Function::IsPlayer,
            Function::VerbInfo,
            Function::VerbArgs,
            Function::VerbCode,
        ],
        10 => &[
            Function::ListAppend,
            Function::ListInsert,
            Function::ListDelete,
            Function::MaxObject,
            Function::Properties,
            Function::TicksLeft,
            Function::ServerLog,
        ],
        11 => &[Function::DeleteVerb, Function::BootPlayer],
        12 => &[
            Function::AddProperty,
            Function::CallerPerms,
            Function::IdleSeconds,
        ],
        13 => &[
            Function::PropertyInfo,
            Function::SetVerbInfo,
            Function::SetVerbArgs,
            Function::SetVerbCode,
            Function::DumpDatabase,
        ],
        14 => &[
            Function::ClearProperty,
            Function::ServerVersion,
            Function::SetTaskPerms,
        ],
        15 => &[Function::SetPlayerFlag, Function::DeleteProperty],
        17 => &[
            Function::SetPropertyInfo,
            Function::IsClearProperty,
            Function::ConnectedPlayers,
            Function::ConnectedSeconds,
        ],
        _ => &[],
    }
}
