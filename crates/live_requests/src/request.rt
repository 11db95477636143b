//! A request, and the line that asks for it.

ghost use Rattle.std.specs.Prelude.{◌≡◌};
ghost use Rattle.std.specs.Option.{option_map};
ghost use Rattle.live_requests.specs.Requests.{asked_alone, asked_with_one, asked_with_three, asked_with_two, request_in, request_value};

use crate::number::{groups_of, limit_of};
use crate::word::first_word;

/// How many rows a page has where the request doesn't say it.
pub const DEFAULT_ROWS: u32 = 100;

/// The most rows of a page.
pub const MOST_ROWS: u32 = 10_000;

/// What a line asks for. Names and keys are lent from the line.
#[derive(Clone, Copy)]
pub enum Request<'t> {
    /// The feeds grow by what has come, and each stream applies up to so many groups: all where there is no number.
    More {
        /// the most groups of each stream, 1 or more
        groups: Option<u32>,
    },
    /// Where the streams stand.
    State,
    /// What changed since the rows were told last.
    Changes,
    /// All that changed is taken as told, without telling it.
    Told,
    /// Rows of a table by rising key.
    Rows {
        /// the table's name
        table: &'t [u8],
        /// the most rows
        most: u32,
        /// the text of the key from which on; without it from the first
        from: Option<&'t [u8]>,
    },
    /// The row at a key.
    Row {
        /// the table's name
        table: &'t [u8],
        /// the key's text
        key: &'t [u8],
    },
    /// How many rows each stream has in each table.
    Counts,
    /// The checkpoint is written.
    Save,
    /// The session ends.
    End,
}

/// What is asked by one word.
fn asked_alone<'t>(word: &'t [u8]) -> Option<Request<'t>>
    ensures { option_map request_value result ≡ asked_alone word.now }
{
    if word == b"more".as_slice() {
        return Some(Request::More { groups: None });
    }
    if word == b"state".as_slice() {
        return Some(Request::State);
    }
    if word == b"changes".as_slice() {
        return Some(Request::Changes);
    }
    if word == b"told".as_slice() {
        return Some(Request::Told);
    }
    if word == b"counts".as_slice() {
        return Some(Request::Counts);
    }
    if word == b"save".as_slice() {
        return Some(Request::Save);
    }
    if word == b"end".as_slice() {
        return Some(Request::End);
    }
    None
}

/// What is asked by a word with one more.
fn asked_with_one<'t>(word: &[u8], one: &'t [u8]) -> Option<Request<'t>>
    ensures { option_map request_value result ≡ asked_with_one word.now one.now }
{
    if word == b"more".as_slice() {
        return match groups_of(one) {
            Some(groups) => Some(Request::More {
                groups: Some(groups),
            }),
            None => None,
        };
    }
    if word == b"rows".as_slice() {
        return Some(Request::Rows {
            table: one,
            most: DEFAULT_ROWS,
            from: None,
        });
    }
    None
}

/// What is asked by a word with two more.
fn asked_with_two<'t>(word: &[u8], one: &'t [u8], two: &'t [u8]) -> Option<Request<'t>>
    ensures { option_map request_value result ≡ asked_with_two word.now one.now two.now }
{
    if word == b"rows".as_slice() {
        return match limit_of(two) {
            Some(most) => Some(Request::Rows {
                table: one,
                most,
                from: None,
            }),
            None => None,
        };
    }
    if word == b"row".as_slice() {
        return Some(Request::Row {
            table: one,
            key: two,
        });
    }
    None
}

/// What is asked by a word with three more.
fn asked_with_three<'t>(
    word: &[u8],
    one: &'t [u8],
    two: &[u8],
    three: &'t [u8],
) -> Option<Request<'t>>
    ensures { option_map request_value result ≡ asked_with_three word.now one.now two.now three.now }
{
    if word == b"rows".as_slice() {
        return match limit_of(two) {
            Some(most) => Some(Request::Rows {
                table: one,
                most,
                from: Some(three),
            }),
            None => None,
        };
    }
    None
}

/// What a line asks for, without the LF at its end; `None` where it is no request. Takes no memory.
pub fn read_request(line: &[u8]) -> Option<Request<'_>>
    ensures { option_map request_value result ≡ request_in line.now }
{
    let (word, behind) = first_word(line);
    let Some(behind) = behind else {
        return asked_alone(word);
    };
    let (one, behind) = first_word(behind);
    let Some(behind) = behind else {
        return asked_with_one(word, one);
    };
    let (two, behind) = first_word(behind);
    let Some(behind) = behind else {
        return asked_with_two(word, one, two);
    };
    let (three, behind) = first_word(behind);
    let Some(behind) = behind else {
        return asked_with_three(word, one, two, three);
    };
    // (for the contract: there is a further word)
    first_word(behind);
    None
}
