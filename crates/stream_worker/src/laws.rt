//! Laws of the seats of a shared board, each the contract of a function without a body.

ghost use Rattle.stream_worker.specs.Calls.{CallsGoOn, AppliedGroupsStay};
ghost use Rattle.stream_worker.specs.Steps.{MadeStepsGoOn, MadeStepsLeaveTheirs};

/// Behind any calls of a seat, with any calls of other seats between them, every stream goes on from the
/// board that the seat knew: its plan is the same, no fewer groups are applied, and each group that was
/// applied stays at its place. So a receipt's group stands at its number from then on.
pub fn calls_keep_applied_groups()
    ensures go_on { CallsGoOn }
    ensures stay { AppliedGroupsStay }
{}

/// Behind steps of a seat's stream along a feed that are made, with any calls of other seats between them, every stream
/// goes on, and their own is as they leave it by themselves, whatever the others did.
pub fn made_steps_leave_their_stream()
    ensures go_on { MadeStepsGoOn }
    ensures theirs { MadeStepsLeaveTheirs }
{}
