//! Laws of written messages, each as the contract of a function that does nothing.

ghost use Rattle.proto_wire.specs.Writing.{FieldsAreReadAgain, NumbersAreReadAgain};

/// Fields that are written one after another are read as these fields.
pub fn fields_are_read_again()
    ensures { FieldsAreReadAgain }
{}

/// Packed numbers that are written are read as these numbers.
pub fn numbers_are_read_again()
    ensures { NumbersAreReadAgain }
{}
