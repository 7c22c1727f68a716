//! The list of players.

ghost use Rattle.std.specs.Prelude.{◌≡◌, ◌≤◌, length, nat_lt, filter, not, OnOk, OnErr, Some, true, false};
ghost use Rattle.std.specs.Option.{option_map};
ghost use Rattle.std.specs.List.{list_any};
ghost use Rattle.std.specs.Ordering.{int_eq};
ghost use Rattle.moo_world_table.specs.World.{most};
ghost use Rattle.moo_world_table.specs.Players.{players_with, as_player};

use crate::MOST;
use moo_world_object::Object;
use std::alloc::AllocError;

/// Returns whether there would be too many players.
pub fn too_many(players: &[i32], player: i32, on: bool) -> bool
    requires { length players.now ≤ most }
    ensures { result ≡ nat_lt most (length (players_with players.now player on)) }
{
    if !on {
        return false;
    }
    if contains(players, player) {
        return false;
    }
    players.len() >= MOST
}

/// Returns whether a number is in the list of players.
pub fn contains(players: &[i32], player: i32) -> bool
    ensures { result ≡ list_any (int_eq player) players.now }
{
    players.iter().any(|other| player == *other)
}

/// Appends a number to the list of players, if it is not in it yet, or removes every entry of it. If memory runs out,
/// nothing changes.
pub fn list_player(players: &mut Vec<i32>, player: i32, on: bool) -> Result<(), AllocError>
    ensures ok { OnOk result (players.new.items ≡ players_with players.old.items player on) }
    ensures err { OnErr result (players.new.items ≡ players.old.items) }
    ensures adds { OnErr result (on ≡ true) }
{
    if !on {
        take_player_out(players, player);
        return Ok(());
    }
    if !contains(players, player) {
        players.push(player)?;
    }
    Ok(())
}

/// Removes every entry of a number from the list of players.
pub fn take_player_out(players: &mut Vec<i32>, player: i32)
    ensures { players.new.items ≡ filter (λ other. not (int_eq player other)) players.old.items }
{
    players.retain(|other| player != *other);
}

/// Sets or clears an object's player flag.
pub fn mark_in(slot: &mut Option<Object>, on: bool)
    ensures { slot.new ≡ option_map (as_player on) slot.old }
{
    if let Some(object) = slot {
        object.set_flags(object.flags().with_player(on));
    }
}
