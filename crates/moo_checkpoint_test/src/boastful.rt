//! A disk that isn't honest.
use crate::databases::recovered_as;
use moo_checkpoint::recover;
use moo_disk::{Disk, DiskFault};
use std::test::Fail;

/// A disk that reports more bytes than were asked for, and promises nothing.
#[derive(Drop)]
struct Boastful;

impl Disk for Boastful {
    ghost use Rattle.std.specs.Prelude.{[], None, false};
    ghost use Rattle.moo_disk.specs.Disk.{DiskView};

    ghost kind = { record {
      view = λ _. record { main_text = []; spare = None; stable = false; may_leave = λ _. ⊥; clock = 0; left_since = λ _ _. ⊥ };
      honest = λ _. ⊥;
      has_spare = λ _. Unit {0};
      failures = λ _. 0;
      made = λ _ _ _. Unit {0};
    } };

    fn create_spare(&mut self) -> Result<(), DiskFault> {
        Ok(())
    }

    fn append(&mut self, _bytes: &[u8]) -> Result<(), DiskFault> {
        Ok(())
    }

    fn sync_spare(&mut self) -> Result<(), DiskFault> {
        Ok(())
    }

    fn rename(&mut self) -> Result<(), DiskFault> {
        Ok(())
    }

    fn sync_names(&mut self) -> Result<(), DiskFault> {
        Ok(())
    }

    fn read_main(&mut self, _at: u64, buffer: &mut [u8]) -> Result<usize, DiskFault> {
        Ok(buffer.len() + 1)
    }

    ghost main_may_be_left = { λ d h. absurd h };

    ghost counts_now = { λ d t c h le now. absurd h };

    ghost only_now = { λ d c h left. absurd h };
}

#[test]
fn more_bytes_than_were_asked_for_are_a_device_that_fails(rt: HostRuntime) -> Result<(), Fail> {
    let alloc = rt.alloc();
    let told = recovered_as(alloc, recover(alloc, &mut Boastful))?;
    assert!(rt; told.as_slice() == b"refused: Device".as_slice());
    Ok(())
}
