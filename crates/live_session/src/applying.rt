//! What is noted of streams that go on.

ghost use Rattle.std.specs.Prelude.{◌≡◌, length};
ghost use Rattle.live_session.specs.Answered.{AreNoted, AreStepped, noted};

use crate::seat::Seat;
use board_laws::StepRefusal;

/// What a stream answered is noted in its seat.
fn note_one(seat: &mut Seat<'_>, answer: Result<bool, StepRefusal>)
    ensures { seat.new ≡ record seat.old { step = noted answer } }
{
    match answer {
        Ok(_) => seat.step = None,
        Err(refusal) => seat.step = Some(refusal),
    }
}

/// What each stream answered is noted in its seat.
pub(crate) fn note(seats: &mut [Seat<'_>], answers: Vec<Result<bool, StepRefusal>>)
    requires { length answers.items ≡ length seats.old }
    ensures noted { AreNoted answers.items seats.new }
    ensures stepped { AreStepped seats.old seats.new }
{
    let mut answers = answers;
    let mut s = seats.len();
    while let Some(answer) = answers.pop() {
        s -= 1;
        note_one(&mut seats[s], answer);
    }
}
