//! From which of two maps that are merged a stream's rows come.

ghost use Rattle.std.specs.Prelude.{◌≡◌};
ghost use Rattle.std.specs.Option.{option_copied};
ghost use Rattle.target_tables.specs.Merged as merged;

/// One of two maps that are merged.
#[derive(Clone, Copy)]
pub enum MergeSide {
    /// the first map
    First,
    /// the second map
    Second,
}

/// A stream's side is the second. A stream without one comes from the first.
fn is_second(side: Option<&MergeSide>) -> bool
    ensures { result ≡ merged.is_second (option_copied side.entry) }
{
    match side {
        None => false,
        Some(there) => match there {
            MergeSide::First => false,
            MergeSide::Second => true,
        },
    }
}

/// The stream's rows come from this side, where the sides stand in the order of the streams. A stream that has
/// none comes from the first map. Takes no memory.
pub fn comes_from(sides: &[MergeSide], side: MergeSide, stream: u8) -> bool
    ensures { result ≡ merged.comes_from sides.now side stream }
{
    let second = is_second(sides.get(stream as usize));
    match side {
        MergeSide::First => !second,
        MergeSide::Second => second,
    }
}
