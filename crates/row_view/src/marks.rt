//! Where every sixteenth column of a row begins.

ghost use Rattle.std.specs.Prelude.{◌≡◌, ◌<◌, Some, length, slice_get};

/// How many marks a row has room for: one for each sixteenth of 256 columns.
pub(crate) const MARKS: usize = 16;

/// Where a column begins.
#[derive(Clone, Copy)]
pub(crate) struct Mark {
    /// the place of its length in the message
    pub(crate) at: u32,
    /// the end of the packed part in which that stands; its own place where it stands alone
    pub(crate) end: u32,
    /// the place of its value in the values
    pub(crate) offset: u32,
}

/// No marks.
pub(crate) fn no_marks() -> [Mark; MARKS] {
    let none = Mark {
        at: 0,
        end: 0,
        offset: 0,
    };
    [none; MARKS]
}

/// The mark of the sixteenth column of this number.
#[inline(always)]
pub(crate) fn mark_at(marks: &[Mark; MARKS], place: usize) -> Mark
    requires within { place < 16 }
    requires room { length marks.now ≡ 16 }
    ensures { slice_get marks.now place ≡ Some result }
{
    marks[place]
}
