//! Whole tasks, with what they asked for.
ghost use Rattle.std.specs.Prelude.{◌≡◌, IfOk};
ghost use Rattle.moo_builtin.specs.Telling.{Faults};
ghost use Rattle.moo_eval_semantics.specs.Task.{TaskEnds};
ghost use Rattle.moo_eval.specs.Ends.{IfEnded};
ghost use Rattle.moo_session_connection.specs.Connections.{around};
ghost use Rattle.moo_session_task.specs.Sending.{all_notified};
ghost use Rattle.moo_session_task.specs.Tasks.{RunsTask, value_of, account_of};
ghost use Rattle.moo_session_task.specs.Seen.{seen_answer, EndIs};

use crate::{Session, WorldState};
use moo_eval::{Ended, run_task};
use moo_eval_frame::{Frame, Notice, Surroundings, TaskEnv};
use moo_value::Value;
use std::alloc::{AllocError, Global};

/// Runs a task that begins with this frame at this moment, in seconds, and applies what it asked for. Sends its player
/// the lines of its end if it has no value, else returns the value. Fails only if memory runs out.
pub fn run(
    alloc: Global,
    live: &mut WorldState,
    moment: u32,
    start: Frame,
) -> Result<Option<Value>, AllocError>
    ensures { IfOk result (λ v. RunsTask Faults moment start live.old (seen_answer v) live.new) }
{
    let player = start.player;
    let (ended, notices) = run_alone(alloc, live, moment, start);
    live.session.apply_notices(&notices)?;
    report_end(&mut live.session, player, ended)
}

// Runs the task over the connections as they are, and returns what it asked for.
fn run_alone(
    alloc: Global,
    live: &mut WorldState,
    moment: u32,
    start: Frame,
) -> (Ended, Vec<Notice>)
    ensures ends { IfEnded result.0 (λ end. TaskEnds Faults (around moment live.old.session.connections) start live.old.world end live.new.world result.1.items) }
    ensures kept { live.new.session ≡ live.old.session }
{
    let mut env = TaskEnv {
        surroundings: Surroundings {
            moment,
            connections: live.session.connections().row(),
        },
        notices: Vec::new(alloc),
    };
    let ended = run_task(alloc, &mut live.world, start, &mut env);
    (ended, env.notices)
}

// Sends the player of a task the lines of its end if it has no value. Returns the value.
fn report_end(session: &mut Session, player: i32, ended: Ended) -> Result<Option<Value>, AllocError>
    ensures { IfOk result (λ v. EndIs ended (λ end. (value_of end ≡ seen_answer v) × (session.new ≡ all_notified player (account_of end) session.old))) }
{
    match ended {
        Ended::Value(value) => Ok(Some(value)),
        Ended::Uncaught(lines) | Ended::OutOfTicks(lines) => {
            session.notify_all(player, &lines)?;
            Ok(None)
        }
        Ended::Memory => Err(AllocError),
    }
}
