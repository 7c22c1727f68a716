//! The laws of sessions.
ghost use Rattle.moo_server_law.specs.Sessions.{OneResultByChoice, OneResultOfSingleFaults, ChosenMayBeTold, NoHookIsLeft};
ghost use Rattle.moo_server_law.specs.Stream.{LinesOfTheRun, LinesOfTheWholeStream};

/// For one input an event has at most one result, whichever faults are reported of texts that are no programs.
#[tactic(none)]
pub fn at_most_one_result()
    ensures { OneResultByChoice }
{
    moo_command::laws::one_command();
    moo_eval::laws::at_most_one_result();
}

/// If faults are reported of some texts alone, none of which has two, what comes of an event is the one result that
/// the program may come to, with nothing chosen.
#[tactic(none)]
pub fn one_result_of_single_faults()
    ensures { OneResultOfSingleFaults }
{
    moo_command::laws::one_command();
    moo_eval::laws::one_result_of_single_faults();
}

/// If one of its faults, chosen once for all, is reported of each text that is no program, what comes of an event is
/// among what the program may come to.
#[tactic(none)]
pub fn chosen_faults_may_be_told()
    ensures { ChosenMayBeTold }
{
    moo_eval::laws::chosen_faults_may_be_told();
}

/// No hook waits after an event before which none waited, nor after a start.
#[tactic(none)]
pub fn no_hook_is_left()
    ensures { NoHookIsLeft }
{}

/// However the bytes of a connection were cut into pieces, and whatever happened in between, the lines that they ended are
/// those of all its bytes.
#[tactic(none)]
pub fn lines_of_the_whole_stream()
    ensures { LinesOfTheWholeStream }
{}

/// Of a server's run: however the bytes of a connection are cut into events, whatever other events come in between, and
/// whatever checkpoints begin and end, the lines that each piece ends are those by which the lines of all its bytes grow.
#[tactic(none)]
pub fn lines_of_the_run()
    ensures { LinesOfTheRun }
{}
