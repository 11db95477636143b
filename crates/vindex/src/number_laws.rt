//! A law of numbers, as the contract of a function that does nothing.

ghost use Rattle.vindex.specs.NumberLaws.{ShortestTextsAreReadBack};

/// The shortest text of a number is read as this number.
pub fn shortest_texts_are_read_back()
    ensures { ShortestTextsAreReadBack }
{}
