//! The world with its connections and what waits to be taken: the layer of sessions that a server is over.

use crate::connected::player_here;
use crate::happening::{apply, discard_leftovers, is_dropped, move_out};
use moo_dbtext::write_world_and_connected;
use moo_dbtext_read::Saved;
use moo_server_core::{Application, Input, Requests, StartApplication};
use moo_session::WorldState;
use moo_session_connection::{Outbox, pending_numbers};
use moo_value::MooStr;
use std::alloc::{AllocError, Global};

/// Holds a world, its connections, and what waits to be taken from them.
#[derive(Drop)]
pub struct MooApplication {
    alloc: Global,
    live: WorldState,
    outbox: Outbox,
}

impl Application for MooApplication {
    ghost use Rattle.moo_session_task.specs.declared.world_state.WorldState.{WorldState as live};
    ghost use Rattle.moo_server.specs.Live.{live_layer};

    ghost State = { live };

    ghost layer = { live_layer };

    fn apply(&mut self, moment: u32, happening: Input) -> Result<Requests, AllocError> {
        if is_dropped(&self.live, happening) {
            discard_leftovers(&mut self.live);
            return Ok(Requests {
                checkpoint: false,
                shutdown: false,
            });
        }
        let was_closing = self.live.session.is_closing();
        discard_leftovers(&mut self.live);
        apply(self.alloc, &mut self.live, moment, happening)?;
        move_out(&mut self.live, was_closing, &mut self.outbox)
    }

    fn keep(&mut self) {
        self.outbox.commit();
    }

    fn forget(&mut self) {
        self.outbox.rollback();
    }

    fn is_open(&self, c: u16) -> bool {
        self.live.session.connections().is_open(c)
    }

    fn is_leaving(&self, c: u16) -> bool {
        self.live.session.connections().is_leaving(c)
    }

    fn player_on(&self, c: u16) -> Option<i32> {
        player_here(self.live.session.connections(), c)
    }

    fn interval(&self) -> u32 {
        moo_session::interval(&self.live.world)
    }

    fn pending(&self) -> Result<Vec<u16>, AllocError> {
        let numbers = pending_numbers(&self.outbox, self.live.session.connections())?;
        Ok(numbers)
    }

    fn take_output(&mut self, c: u16) -> Vec<u8> {
        self.outbox.take(c)
    }

    fn take_log(&mut self) -> Vec<MooStr> {
        self.outbox.take_log()
    }

    #[tactic(auto, using(crate::proofs::Worlds::few_enough))]
    fn text(&self) -> Result<Vec<u8>, AllocError> {
        let connected = self.live.session.connections().players()?;
        write_world_and_connected(self.alloc, &self.live.world, &connected)
    }
}

impl StartApplication for MooApplication {
    fn start(
        alloc: Global,
        saved: Saved,
        moment: u32,
    ) -> Result<(MooApplication, Requests), AllocError> {
        let Saved { world, connected } = saved;
        let mut live = moo_session::start(alloc, world, &connected, moment)?;
        let mut outbox = Outbox::new(alloc);
        let asked = move_out(&mut live, false, &mut outbox)?;
        let started = MooApplication {
            alloc,
            live,
            outbox,
        };
        Ok((started, asked))
    }

    ghost use Rattle.std.specs.Prelude.{refl};

    ghost text_is = { λ s. refl };

    ghost spells_is = { λ c s. (λ spells. spells, λ spells. spells) };
}
