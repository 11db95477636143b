//! Embedded messages that stand alone.

ghost use Rattle.std.specs.Prelude.{◌≡◌, ℕ, List, [], ◌∷◌, None, IsSome, MatchBool, unwrap_or};
ghost use Rattle.vevent.specs.Private.Singular.{message_behind, repeats_behind};

/// What was met so far under the number of an embedded message that stands alone.
#[derive(Clone, Copy)]
pub(crate) enum Singular<'b> {
    Absent,
    Once(&'b [u8]),
    /// More than one, of which this is the first.
    Repeated(&'b [u8]),
}

impl<'b> Singular<'b> {
    /// Meets one more.
    pub(crate) fn put(&mut self, part: &'b [u8])
        ensures message { (more : List (List ℕ)) → message_behind self.new more ≡ message_behind self.old (part.now ∷ more) }
        ensures repeats { (more : List (List ℕ)) → repeats_behind self.new more ≡ repeats_behind self.old (part.now ∷ more) }
    {
        *self = match *self {
            Singular::Absent => Singular::Once(part),
            Singular::Once(first) | Singular::Repeated(first) => Singular::Repeated(first),
        };
    }

    /// The message; an absent one is empty.
    pub(crate) fn message(self) -> &'b [u8]
        ensures { result.now ≡ unwrap_or (message_behind self.entry []) [] }
    {
        match self {
            Singular::Absent => &[],
            Singular::Once(message) | Singular::Repeated(message) => message,
        }
    }

    /// Whether none was met.
    pub(crate) fn is_absent(self) -> bool
        ensures { MatchBool result (message_behind self.entry [] ≡ None) (IsSome (message_behind self.entry []) × ((more : List (List ℕ)) → message_behind self.entry more ≡ message_behind self.entry [])) }
    {
        matches!(self, Singular::Absent)
    }

    /// Whether more than one was met.
    pub(crate) fn repeats(self) -> bool
        ensures { result ≡ repeats_behind self.entry [] }
    {
        matches!(self, Singular::Repeated(_))
    }
}
