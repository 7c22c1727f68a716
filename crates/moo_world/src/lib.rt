//! The object world: objects in a tree of parents and a tree of places, with properties and verbs, and the players.
#![tactic(auto)]

mod by_right;
mod clearing;
mod creating;
mod defining;
mod deleting;
mod fault;
mod info;
pub mod laws;
mod lending;
mod looking;
mod named;
mod numbers;
mod parents;
mod places;
mod players;
mod programs;
mod properties;
mod property_info;
mod recycling;
mod restoring;
mod rights;
mod setting;
mod verbs;
mod written;

pub use fault::WorldFault;
pub use looking::VerbAt;
pub use moo_world_object::{
    BuiltInProperty, Flags, Need, Object, ObjectSpecifier, Preposition, PrepositionSpecifier,
    PropCell, PropPerms, Row, Verb, VerbArgs, VerbPerms,
};
pub use moo_world_table::MOST;
pub use moo_world_tree::{Below, Forest, Node, Step};
pub use rights::{Action, Rights};
use std::marker::Model;

/// Holds the objects by their numbers, which count from 0, and the players.
#[derive(Drop)]
pub struct World {
    objects: Vec<Option<Object>>,
    inheritance: Forest,
    containment: Forest,
    players: Vec<i32>,
    // How many programs the verbs have.
    programs: usize,
}

impl Model for World {
    ghost use Rattle.moo_world_table.specs.World.{World as Contents, IsCounted};
    ghost use Rattle.std.specs.Coded.{codes};
    ghost use Rattle.moo_value.specs.TreeCode.{tree_code};
    ghost use Rattle.moo_syntax_ast.specs.Code.{block_code};

    ghost Value = { Contents };

    ghost coded = { Prim.hlevel (codes, tree_code, block_code (Prim.hlevel codes)) };

    ghost view = { λ w. record {
      objects = w.objects.items;
      inheritance = w.inheritance;
      containment = w.containment;
      players = w.players.items;
    } };

    ghost invariant = { λ w. IsCounted (record {
      objects = w.objects.items;
      inheritance = w.inheritance;
      containment = w.containment;
      players = w.players.items;
    }) w.programs };
}
