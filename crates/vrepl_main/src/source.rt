//! Where inputs come from.

ghost use Rattle.std.specs.Prelude.{ℕ, List, IfOk, IfErr};
ghost use Rattle.vrepl_main.specs.Inputs.{input_name, IsUnread};
ghost use Rattle.vrepl_main.specs.declared.input.InputName.{InputName};

use crate::input::{InputName, read_system_input};
use crate::progress::Reading;
use crate::refusal::CommandRefusal;

/// What gives inputs, each by its name.
pub trait Source {
    // These are bytes of the input of this name. Nothing else is known of it, so that bytes which are said to be of an input
    // were read under its name.
    ghost gives: { Self → InputName → List ℕ → Type 0 };

    /// The bytes of an input, of which `told` is told.
    fn read_named<'w, G: Reading>(
        &self,
        told: &G,
        name: InputName<'w>,
    ) -> Result<Vec<u8>, CommandRefusal<'w>>
        ensures given { IfOk result (λ bytes. gives self.now name.entry bytes.items) }
        ensures refused { IfErr result (IsUnread (input_name name.entry)) };
}

/// The system gives files and standard input; no contract can say what they have.
impl Source for HostRuntime {
    ghost gives = { λ _ _ _. Unit {0} };

    fn read_named<'w, G: Reading>(
        &self,
        told: &G,
        name: InputName<'w>,
    ) -> Result<Vec<u8>, CommandRefusal<'w>> {
        read_system_input(self, told, name)
    }
}
