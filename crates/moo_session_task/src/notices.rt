//! Applies the effects that a task requested.
ghost use Rattle.std.specs.Prelude.{◌≡◌, OnOk};
ghost use Rattle.moo_session_task.specs.Notices.{applied, all_applied};

use crate::session::Session;
use moo_eval_frame::Notice;
use std::alloc::AllocError;

impl Session {
    /// Applies what a task asked for, in its order. Fails only if memory runs out.
    pub fn apply_notices(&mut self, notices: &[Notice]) -> Result<(), AllocError>
        ensures { OnOk result (self.new ≡ all_applied notices.now self.old) }
    {
        for notice in notices {
            self.apply_notice(notice)?;
        }
        Ok(())
    }

    fn apply_notice(&mut self, notice: &Notice) -> Result<(), AllocError>
        ensures { OnOk result (self.new ≡ applied notice.now self.old) }
    {
        match notice {
            Notice::Notify(who, line) => self.notify(*who, line.as_bytes()),
            Notice::BootPlayer(who) => self.disconnect(*who, b"*** Disconnected ***"),
            Notice::SetPlayerFlag(_, true) => Ok(()),
            Notice::SetPlayerFlag(o, false) => self.disconnect(*o, b"*** Disconnected ***"),
            Notice::Recycle(o) => self.disconnect(*o, b"*** Recycled ***"),
            Notice::DumpDatabase => {
                self.ask();
                Ok(())
            }
            Notice::Shutdown(why) => self.shut_down(why),
            Notice::ServerLog(line) => self.log(line.try_clone()?),
        }
    }
}
