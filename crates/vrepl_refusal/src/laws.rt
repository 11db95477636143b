//! What the two forms of a refusal have in common.

ghost use Rattle.vrepl_refusal.specs.Form.{FormsTellTheSame};

/// Both forms tell the same number, and the same behind it.
pub fn forms_tell_the_same()
    ensures { FormsTellTheSame }
{}
