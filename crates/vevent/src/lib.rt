//! The events of a VStream (`binlogdata.proto`), read without a copy and written.
#![tactic(auto)]

mod answer_parts;
mod change_rows;
mod checkpoint_part;
mod column_count;
mod event;
mod event_parts;
mod fault;
mod field_event;
mod ignored;
mod images;
mod kind;
mod messages;
mod part_contents;
mod response;
mod row_event;
mod row_parts;
mod rows_answer;
mod singular;
mod text;
mod used_texts;
mod vgtid_event;
mod walk;
mod wire;
mod written_answer;
mod written_changes;
mod written_columns;
mod written_entries;
mod written_event;
mod written_laws;
mod written_part;

pub use checkpoint_part::{StreamPart, TableMark, TablePart, TableParts};
pub use event::Event;
pub use fault::EventFault;
pub use field_event::{ColumnField, ColumnFields, FieldEvent};
pub use ignored::IgnoredEvent;
pub use response::Response;
pub use row_event::{RowChange, RowChanges, RowEvent};
pub use rows_answer::{AnswerRows, RowsAnswer};
pub use vgtid_event::{ShardGtid, ShardGtids, VGtid};
pub use written_answer::{AnswerContent, answer_size, write_answer};
pub use written_event::{event_size, write_event};
pub use written_laws::{
    answers_are_read_again, events_are_read_again, stream_parts_are_read_again,
    table_parts_are_read_again,
};
pub use written_part::{
    StreamContent, TableContent, stream_part_size, table_part_size, write_stream_part,
    write_table_part,
};
