// The world that the rows begin with.

/// The smallest database: a system object, a root, a room and a wizard in it, each under the root, which has no parent.
/// The system object has a verb with a program.
pub const FOUR_OBJECTS: &str = r#"
create #-1 #3 = #0
create #-1 #3 = #1
create #-1 #3 = #2
create #-1 #3 = #3
set #0 "name" "System Object" = 0
set #1 "name" "Root Class" = 0
set #2 "name" "The First Room" = 0
set #3 "name" "Wizard" = 0
set #0 "r" 1 = 0
set #1 "r" 1 = 0
chparent #0 #1 = 0
chparent #2 #1 = 0
chparent #3 #1 = 0
set #3 "programmer" 1 = 0
set #3 "wizard" 1 = 0
set_player #3 1 = 0
move #3 #2 = 0
add_verb #0 "do_login_command" #3 "rxd" = 0
set_verb_args #0 0 "this" "none" "this" = 0
set_program #0 0 = 0
"#;
