//! Laws of written messages, each as the contract of a function that does nothing.

ghost use Rattle.vevent.specs.WrittenEvent.{EventsAreReadAgain};
ghost use Rattle.vevent.specs.WrittenPart.{AnswersAreReadAgain, TablePartsAreReadAgain, StreamPartsAreReadAgain};

use proto_wire::fields_are_read_again;
use row_view::rows_are_read_again;

/// An event within the limits that is written is read as this event.
pub fn events_are_read_again()
    ensures { EventsAreReadAgain }
{
    fields_are_read_again();
    rows_are_read_again();
}

/// An answer within the limits that is written is read as this answer.
pub fn answers_are_read_again()
    ensures { AnswersAreReadAgain }
{
    fields_are_read_again();
    rows_are_read_again();
}

/// A table's part within the limits that is written is read as this part.
pub fn table_parts_are_read_again()
    ensures { TablePartsAreReadAgain }
{
    fields_are_read_again();
    rows_are_read_again();
}

/// A stream's part within the limits that is written is read as this part.
pub fn stream_parts_are_read_again()
    ensures { StreamPartsAreReadAgain }
{
    fields_are_read_again();
    rows_are_read_again();
}
