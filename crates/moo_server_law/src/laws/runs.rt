//! One run of a server.
ghost use Rattle.moo_server_law.specs.Cutting.{CuttingChangesOnlyMarks};
ghost use Rattle.moo_server_law.specs.Runs.{ChosenRunMayBe, OneRunByChoice, OneRunOfSingleFaults};

/// Whichever faults are reported of texts that are no programs, the saved world, the moment, the events and their
/// reports make one run: what goes out, which worlds are marked, and the state after it.
#[tactic(none)]
pub fn one_run()
    ensures { OneRunByChoice }
{
    crate::laws::sessions::at_most_one_result();
}

/// A run in which faults are reported of some texts alone, none of which has two, is the one run that a server may come
/// to from that start by those events and reports, with nothing chosen.
#[tactic(none)]
pub fn one_run_of_single_faults()
    ensures { OneRunOfSingleFaults }
{
    crate::laws::sessions::one_result_of_single_faults();
}

/// If one of its faults, chosen once for all, is reported of each text that is no program, a run is among those that a
/// server may come to.
#[tactic(none)]
pub fn a_chosen_run_may_be()
    ensures { ChosenRunMayBe }
{
    crate::laws::sessions::chosen_faults_may_be_told();
}

/// Proves that how a connection's bytes are cut into events changes nothing but marks. Any number of events in a row with bytes
/// of one connection do what one event with all these bytes does, unless a checkpoint begins after one of them but the last.
#[tactic(none)]
pub fn cutting_changes_only_marks()
    ensures { CuttingChangesOnlyMarks }
{}
