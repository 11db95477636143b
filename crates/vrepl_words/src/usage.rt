//! What is told in place of the words' meaning: a fault of usage, or the help that was asked for.

ghost use Rattle.std.specs.Prelude.{◌≡◌, ◌⊎◌, true, false};
ghost use Rattle.vrepl_words.specs.Usage.{IsHelp, IsOutOfMemory};

use clap::Error;
use clap::error::ErrorKind;

/// How the program ends where the words weren't read.
#[derive(Clone, Copy)]
pub enum Told {
    /// Memory ran out, and nothing was told.
    Memory,
    /// The fault of usage was told on standard error, as far as that could be written.
    Usage,
    /// The help was told on standard output.
    Help,
    /// The help couldn't be told.
    Untold,
}

/// Prints the text of a fault of usage on standard error, or the help that was asked for on
/// standard output.
pub fn tell<R: Print + Eprint>(rt: &R, fault: &Error) -> Told
    ensures memory { IsOutOfMemory fault.now → result ≡ Told.Memory }
    ensures usage { ¬ (IsOutOfMemory fault.now) → ¬ (IsHelp fault.now) → result ≡ Told.Usage }
    ensures help { IsHelp fault.now → (result ≡ Told.Help) ⊎ (result ≡ Told.Untold) }
{
    if fault.kind() == ErrorKind::OutOfMemory {
        return Told::Memory;
    }
    let is_printed = fault.print(rt).is_ok();
    if fault.use_stderr() {
        return Told::Usage;
    }
    told_help(is_printed)
}

/// What became of a help that was asked for.
fn told_help(is_printed: bool) -> Told
    ensures printed { is_printed ≡ true → result ≡ Told.Help }
    ensures unwritten { is_printed ≡ false → result ≡ Told.Untold }
{
    if is_printed { Told::Help } else { Told::Untold }
}
