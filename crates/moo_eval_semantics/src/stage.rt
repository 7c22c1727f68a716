//! Stages of a function that calls verbs.

/// Names what a function continues with once a verb that it called has returned.
#[derive(Clone, Copy)]
pub enum Stage {
    /// The verb that `pass` called: its value is that of the function.
    Passed,
    /// `initialize` of this object, which was made.
    Created(i32),
    /// `accept` of the second object, to which the first is to move.
    Accepting(i32, i32),
    /// `exitfunc` of the place that the first object left for the second.
    Leaving(i32, i32),
    /// `enterfunc` of the place that the object came to.
    Entering,
    /// A verb of this object, which is to be recycled once it has no contents.
    Emptying(i32),
    /// No verb: this object was recycled.
    Recycled(i32),
    /// The program that `eval` runs: its value comes after a 1.
    Evaluated,
}
