//! The parts of a number's text.

ghost use Rattle.std.specs.Prelude.{MatchOption};
ghost use Rattle.refusal_json.specs.Explained.{HasParts, LacksWords, parts_value};

/// The parts of a number's text: the line in front, what the number means, its usual causes, and what to do.
#[derive(Clone, Copy)]
pub(crate) struct Parts<'t> {
    pub(crate) front: &'t str,
    pub(crate) means: &'t str,
    pub(crate) causes: &'t str,
    pub(crate) todo: &'t str,
}

/// The parts of a text, none where a word between them is lacking.
pub(crate) fn parts_of(text: &str) -> Option<Parts<'_>>
    ensures { MatchOption result (LacksWords text.entry.now) (λ parts. HasParts text.entry.now (parts_value parts)) }
{
    let (front, rest) = text.split_once("\n\n")?;
    let (means, rest) = rest.split_once("\nUsual causes: ")?;
    let (causes, todo) = rest.split_once("\nWhat to do: ")?;
    Some(Parts {
        front,
        means,
        causes,
        todo,
    })
}
