//! The world that records describe.

ghost use Rattle.std.specs.Prelude.{◌≡◌, ◌<◌, None, length, IfOk, IfErr, OnOk, FitsSigned};
ghost use Rattle.std.specs.Int.{w32};
ghost use Rattle.std.specs.List.{All};
ghost use Rattle.moo_world_tree.specs.Forest.{IsForest};
ghost use Rattle.moo_dbtext_restore.specs.First.{IsFirst};
ghost use Rattle.moo_dbtext_restore.specs.Faults.{IsWellPlaced, HasItsCells};
ghost use Rattle.moo_dbtext_restore.specs.Links.{IsSound, IsTreeOf};
ghost use Rattle.moo_dbtext_restore.specs.Names.{with_objects};
ghost use Rattle.moo_dbtext_restore.specs.Records.{parent_links};
ghost use Rattle.moo_dbtext_restore.specs.Restoring.{records_from, AreWithinLimits, IsFaultOf};
ghost use Rattle.moo_dbtext_restore.specs.Says.{Says};
ghost use Rattle.moo_dbtext_restore.specs.Tours.{IsTour};

use crate::counts::first_miscounted;
use crate::fault::RestoreFault;
use crate::first::least_of;
use crate::joining::first_misjoined;
use crate::link::Link;
use crate::names::first_misnamed;
use crate::nodes::{forest_of, nodes_of};
use crate::objects::make_objects;
use crate::records::{parent_links, place_links};
use crate::tour::{Visit, tour_of};
use moo_dbtext_object::ObjectRecord;
use moo_syntax_program::Program;
use moo_world::World;
use moo_world_tree::Forest;
use std::alloc::{AllocError, Global};

/// Returns the world that these records describe, in which `check_objects` found no fault. Takes the objects by number
/// (`None` for a recycled one), the programs by object and verb, and the players. The world shares strings, lists and
/// programs with them. Fails only if memory runs out.
pub fn restore_checked(
    alloc: Global,
    objects: &[Option<ObjectRecord>],
    programs: &[Vec<Option<Program>>],
    players: Vec<i32>,
) -> Result<World, AllocError>
    requires limits { AreWithinLimits (records_from objects.now programs.now players.items) }
    requires placed { IsFirst (IsWellPlaced (with_objects objects.now)) (length objects.now) None }
    requires counted { IsFirst (HasItsCells (with_objects objects.now)) (length objects.now) None }
    ensures { IfOk result (λ w. Says (records_from objects.now programs.now players.items) w) }
{
    let parents = parent_links(alloc, objects)?;
    let tour = tour_of(alloc, &parents)?;
    made_world(alloc, objects, programs, players, &parents, &tour)
}

// Returns the world of records without fault, given their links of parents and a tour of these.
fn made_world(
    alloc: Global,
    objects: &[Option<ObjectRecord>],
    programs: &[Vec<Option<Program>>],
    players: Vec<i32>,
    parents: &[Option<Link>],
    tour: &[Visit],
) -> Result<World, AllocError>
    requires limits { AreWithinLimits (records_from objects.now programs.now players.items) }
    requires placed { IsFirst (IsWellPlaced (with_objects objects.now)) (length objects.now) None }
    requires counted { IsFirst (HasItsCells (with_objects objects.now)) (length objects.now) None }
    requires links { parents.now ≡ parent_links (with_objects objects.now) }
    requires tour { IsTour (parent_links (with_objects objects.now)) tour.now }
    ensures { IfOk result (λ w. Says (records_from objects.now programs.now players.items) w) }
{
    let made = make_objects(alloc, objects, programs, tour)?;
    let inheritance = forest_in(alloc, parents)?;
    let places = place_links(alloc, objects)?;
    let containment = forest_in(alloc, &places)?;
    players_fit(&players);
    Ok(World::from_parts(made, inheritance, containment, players))
}

/// Checks the records of objects, and returns their first fault.
pub fn check_objects(alloc: Global, objects: &[Option<ObjectRecord>]) -> Result<(), RestoreFault>
    // Without a fault, no object is at fault.
    ensures placed { OnOk result (IsFirst (IsWellPlaced (with_objects objects.now)) (length objects.now) None) }
    ensures counted { OnOk result (IsFirst (HasItsCells (with_objects objects.now)) (length objects.now) None) }
    ensures fault { IfErr result (IsFaultOf (with_objects objects.now)) }
{
    let parents = parent_links(alloc, objects)?;
    let tour = tour_of(alloc, &parents)?;
    check(alloc, objects, &tour)
}

// Returns the first fault of the records of objects.
pub(crate) fn check(
    alloc: Global,
    objects: &[Option<ObjectRecord>],
    tour: &[Visit],
) -> Result<(), RestoreFault>
    requires { IsTour (parent_links (with_objects objects.now)) tour.now }
    ensures placed { OnOk result (IsFirst (IsWellPlaced (with_objects objects.now)) (length objects.now) None) }
    ensures counted { OnOk result (IsFirst (HasItsCells (with_objects objects.now)) (length objects.now) None) }
    ensures fault { IfErr result (IsFaultOf (with_objects objects.now)) }
{
    if let Some(x) = first_in_hierarchy(alloc, objects, tour)? {
        return Err(RestoreFault::Hierarchy(x));
    }
    match first_miscounted(objects, tour) {
        Some(x) => Err(RestoreFault::PropertyCount(x)),
        None => Ok(()),
    }
}

fn first_in_hierarchy(
    alloc: Global,
    objects: &[Option<ObjectRecord>],
    tour: &[Visit],
) -> Result<Option<usize>, AllocError>
    requires { IsTour (parent_links (with_objects objects.now)) tour.now }
    ensures { IfOk result (λ x. IsFirst (IsWellPlaced (with_objects objects.now)) (length objects.now) x) }
{
    let misjoined = first_misjoined(alloc, objects)?;
    let misnamed = first_misnamed(alloc, objects, tour)?;
    Ok(least_of(misjoined, misnamed))
}

// Returns the forest that sound links describe.
fn forest_in(alloc: Global, links: &[Option<Link>]) -> Result<Forest, AllocError>
    requires { IsFirst (IsSound links.now) (length links.now) None }
    ensures tree { IfOk result (λ forest. IsTreeOf links.now forest) }
    ensures forest { IfOk result (λ forest. IsForest forest) }
{
    let forest = forest_of(links, nodes_of(alloc, links)?);
    forest.is_forest();
    Ok(forest)
}

// States that each player is a 32-bit number, as its type says.
fn players_fit(players: &[i32])
    ensures { All (FitsSigned w32) players.now }
{
    for player in players {
        let _player = *player;
    }
}
