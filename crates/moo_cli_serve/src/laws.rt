//! Laws on what is found after a server over a disk was stopped, and on who is hung up as idle.
ghost use Rattle.std.specs.Prelude.{◌≡◌, ◌≢◌, ◌-◌, ◌<◌, ℕ, List, false, true};
ghost use Rattle.moo_dbtext_read.specs.Saved.{SpellsSavedWithin};
ghost use Rattle.moo_cli_serve.specs.Found.{FindsAgain, IsStopped, ended_at, served_to};
ghost use Rattle.moo_cli_serve.specs.Hearing.{IsHeardLast};
ghost use Rattle.moo_cli_serve.specs.Service.{Begun, Makes, Serves, Stops, Turns};
ghost use Rattle.moo_cli_serve.specs.Silence.{is_heard, is_silent};
ghost use Rattle.moo_cli_serve.specs.declared.fault.ServeFault.{ServeFault};
ghost use Rattle.moo_cli_serve.specs.declared.limits.Limits.{Limits};
ghost use Rattle.moo_cli_serve.specs.declared.serving.Serving.{Serving};

use moo_disk::Disk;
use moo_server_core::StartApplication;

/// Shows which world a start finds on a disk that was left at any moment of what `serve_disk` did: the world after a prefix of
/// the events. It holds of a server that served to its end, and of one that ended before for a fault. The disk has to be honest
/// at first, and every text that a crash may leave then has to spell the world that the server read.
pub fn a_served_world_is_found_again<S: StartApplication, D: Disk, F: Disk>()
    ensures served { (first : D) (limits : Limits) (rounds : ℕ) (serves : Serves S.layer D.kind first limits rounds) (text : List ℕ)
        (stopped : IsStopped S.layer D.kind first serves.course text)
        → D.kind.honest first → ((c : List ℕ) → (D.kind.view first).may_leave c → SpellsSavedWithin c serves.begun.from.saved)
        → (found : F) → F.kind.honest found → (F.kind.view found).main_text ≡ text
        → FindsAgain S.layer D.kind F.kind (served_to S.layer D.kind serves stopped) found }
    ensures ended { (first : D) (limits : Limits) (rounds : ℕ) (fault : ServeFault) (stops : Stops S.layer D.kind first limits rounds fault) (text : List ℕ)
        (stopped : IsStopped S.layer D.kind first stops.course text)
        → D.kind.honest first → ((c : List ℕ) → (D.kind.view first).may_leave c → SpellsSavedWithin c stops.begun.from.saved)
        → (found : F) → F.kind.honest found → (F.kind.view found).main_text ≡ text
        → FindsAgain S.layer D.kind F.kind (ended_at S.layer D.kind stops stopped) found }
{
    moo_server_core::laws::starting_again_reads_a_prefix::<S, D, D, F>();
    moo_server_core::laws::starting_again_reads_a_prefix_since_the_start::<S, D, D, F>();
}

/// Shows that a connection that counts as silent after a round isn't the console, that there is a limit for silence, and
/// that the connection has sent nothing for more seconds than that: neither in this round, nor in a round of a later
/// second than the one in which it was last heard.
pub fn who_is_silent_has_sent_nothing<S: StartApplication, D: Disk>()
    ensures { (first : D) (limits : Limits) (start : Serving S D) → Begun S.layer D.kind first limits start
        → (rounds : ℕ) (mid end : Serving S D) (makes : Makes S.layer D.kind rounds start mid) (turns : Turns S.layer D.kind mid end) (c : ℕ)
        → is_silent end.timeouts.silence turns.rounds.second c ≡ true
        → (c ≢ 65535) × (limits.idle_seconds ≢ 0) × (is_heard turns.rounds.first c ≡ false)
        × ((second : ℕ) → IsHeardLast S.layer D.kind c second rounds start mid makes → limits.idle_seconds < turns.rounds.second - second) }
{}
