//! The laws of `move`, `create` and `recycle`: 'Fundamental Operations on Objects' of the LambdaMOO Programmer's
//! Manual, 'Functions over the running task' of docs/reference/language.md.
ghost use Rattle.moo_eval_semantics.specs.MoveCreateRecycle.{WhatMoveDoes, WhatCreateDoes, WhatCreateForDoes, WhatRecycleDoes};

/// Proves what `move` does: it calls the new place's `accept`, moves the object, and calls the old place's `exitfunc`
/// and then the new one's `enterfunc`.
#[tactic(none)]
pub fn what_move_does()
    ensures { WhatMoveDoes }
{}

/// Proves what `create` does: it makes an object that counts in its owner's quota, and calls its `initialize`.
#[tactic(none)]
pub fn what_create_does()
    ensures own { WhatCreateDoes }
    ensures another { WhatCreateForDoes }
{}

/// Proves what `recycle` does: it calls the object's `recycle`, moves its contents out, calls its `exitfunc` for each,
/// and removes the object.
#[tactic(none)]
pub fn what_recycle_does()
    ensures { WhatRecycleDoes }
{}
