// A call that is refused as memory runs out leaves an equal world. The test makes a world and its twin for each change,
// makes the change once, and compares: with ample memory it changes the world; if one allocation fails, as
// `rt try --test --fail-alloc N` lets the Nth, a refused call leaves the twin's.
use crate::same::is_same;
use crate::script::{first_wrong, run};
use crate::worlds::FOUR_OBJECTS;
use moo_value::Value;
use moo_world::{World, WorldFault};
use std::alloc::Global;

// With the four objects: two define properties, the room has a verb without a program, and there is a child of the room, in
// the room.
const PROPERTIES: &str = r#"
add_property #1 "size" 5 #3 "c" = 0
add_property #2 "own" 6 #3 "c" = 0
create #2 #3 = #4
move #4 #2 = 0
set #2 "size" 7 = 0
add_verb #2 "bare" #3 "rxd" = 0
"#;

const CHANGES: &str = r#"create #2 #3
recycle #2
chparent #2 #0
move #2 #0
add_property #1 "width" 1 #3 ""
delete_property #1 "size"
rename #1 "size" #4 "" "width"
set_info #1 "size" #4 ""
set #2 "name" "width"
clear #2 "size"
add_verb #1 "width" #3 "rxd"
set_verb_info #0 0 "width" #4 ""
clear_program #0 0
set_verb_args #0 0 "any" "any" "any"
delete_verb #0 0
set_player #2 1
set_player #3 0
set_program #2 0
#3 chparent #2 #0
#3 add_property #1 "width" 1 { #3 "" }
#3 set_property_info #1 "size" { #4 "" "width" }"#;

// A world and its twin.
#[derive(Drop)]
struct Twins {
    world: World,
    twin: World,
}

fn one_world(alloc: Global) -> Result<World, WorldFault> {
    let mut world = World::empty(alloc);
    for rows in [FOUR_OBJECTS, PROPERTIES] {
        let _wrong = first_wrong(&mut world, alloc, rows)?;
    }
    Ok(world)
}

fn make_twins(alloc: Global) -> Result<Twins, WorldFault> {
    Ok(Twins {
        world: one_world(alloc)?,
        twin: one_world(alloc)?,
    })
}

// Whether an answer says what became of the world.
fn is_told(answer: Result<Value, WorldFault>, is_changed: bool) -> bool {
    match answer {
        Ok(_) => is_changed,
        Err(WorldFault::Memory) => !is_changed,
        Err(WorldFault::Raise(_)) => false,
    }
}

fn is_right(alloc: Global, change: &str) -> Result<bool, WorldFault> {
    let mut twins = make_twins(alloc)?;
    let answer = run(&mut twins.world, alloc, change);
    let is_changed = !is_same(&twins.world, &twins.twin);
    Ok(is_told(answer, is_changed))
}

#[test]
fn a_refused_call_changes_nothing(rt: HostRuntime) {
    let mut is_short = false;
    for change in CHANGES.lines() {
        match is_right(rt.alloc(), change) {
            Ok(is_right) => assert!(rt; is_right, "{change}"),
            Err(_) => {
                assert!(rt; !is_short);
                is_short = true;
            }
        }
    }
}
