//! The keys at which two maps both have a row.

ghost use Rattle.std.specs.Prelude.{◌≡◌, [], ◌∷◌, drop, MatchOption};
ghost use Rattle.std.specs.Option.{option_map};
ghost use Rattle.target_tables.specs.Common as shared;
ghost use Rattle.target_tables.specs.Common.{meeting};
ghost use Rattle.target_tables.specs.Kept.{IsFront};
ghost use Rattle.target_tables.specs.Rising.{IsRising};

use crate::scan::Scan;
use key_front::Fronted;
use std::cmp::Ordering;
use std::marker::Model;

/// The entries of a map from a place on, the first of which can be looked at. Seen in contracts as the list of
/// these.
#[derive(Drop)]
struct Peeked<'t, K: Fronted, R> {
    first: Option<(&'t K, u8, &'t R)>,
    later: Scan<'t, K, R>,
}

impl<'t, K: Fronted, R> Model for Peeked<'t, K, R> {
    ghost use Rattle.std.specs.Prelude.{ℕ, List};
    ghost use Rattle.std.specs.Option.{option_map};
    ghost use Rattle.target_tables.specs.Contents.{entry};
    ghost use Rattle.target_tables.specs.Kept.{fetched};

    ghost Value = { List (K × (ℕ × R)) };

    ghost view = { λ p. fetched (option_map entry p.first) p.later };
}

impl<'t, K: Fronted, R> Peeked<'t, K, R> {
    /// These entries.
    fn new(mut later: Scan<'t, K, R>) -> Peeked<'t, K, R>
        ensures { result ≡ later.entry }
    {
        let first = later.next();
        Peeked { first, later }
    }

    /// The key and stream of the first entry, if one is left.
    fn front(&self) -> Option<(&'t K, u8)>
        ensures { MatchOption result (self.now ≡ []) (λ front. IsFront front.0.now front.1 self.now) }
    {
        match self.first {
            Some((key, stream, _)) => Some((key, stream)),
            None => None,
        }
    }

    /// Leaves the first entry behind, if one is left.
    fn advance(&mut self)
        ensures { self.new ≡ drop 1 self.old }
    {
        if self.first.is_some() {
            self.first = self.later.next();
        }
    }
}

/// The least key that two maps' entries both have, with the stream of each row, behind which they are left.
fn next_common<'t, K: Fronted, R>(
    one: &mut Peeked<'t, K, R>,
    other: &mut Peeked<'t, K, R>,
) -> Option<(&'t K, u8, u8)>
    requires rising { IsRising K.cmp one.old }
    requires rises { IsRising K.cmp other.old }
    ensures next { MatchOption (option_map meeting result) (shared.common K.cmp one.old other.old ≡ []) (λ key. shared.common K.cmp one.old other.old ≡ key ∷ shared.common K.cmp one.new other.new) }
    ensures rising { IsRising K.cmp one.new }
    ensures rises { IsRising K.cmp other.new }
{
    while let Some((key, here)) = one.front() {
        match other.front() {
            None => return None,
            Some((also, there)) => match key.cmp(also) {
                Ordering::Less => one.advance(),
                Ordering::Greater => other.advance(),
                Ordering::Equal => {
                    one.advance();
                    other.advance();
                    return Some((key, here, there));
                }
            },
        }
    }
    None
}

/// The keys at which two maps both have a row, which are still to come, by rising key, each with the stream of the
/// first map's row and that of the second's. Seen in contracts as the list of these. Takes no memory.
#[derive(Drop)]
pub struct Common<'t, K: Fronted, R> {
    one: Peeked<'t, K, R>,
    other: Peeked<'t, K, R>,
}

impl<'t, K: Fronted, R> Model for Common<'t, K, R> {
    ghost use Rattle.std.specs.Prelude.{ℕ, List};
    ghost use Rattle.target_tables.specs.Common.{common};
    ghost use Rattle.target_tables.specs.Rising.{IsRising};

    ghost Value = { List (K × (ℕ × ℕ)) };

    ghost view = { λ c. common K.cmp c.one c.other };

    ghost invariant = { λ c. IsRising K.cmp c.one × IsRising K.cmp c.other };
}

impl<'t, K: Fronted, R> Common<'t, K, R> {
    /// The keys that these entries both have.
    pub(crate) fn new(one: Scan<'t, K, R>, other: Scan<'t, K, R>) -> Common<'t, K, R>
        requires rising { IsRising K.cmp one }
        requires rises { IsRising K.cmp other }
        ensures { result ≡ shared.common K.cmp one.entry other.entry }
    {
        Common {
            one: Peeked::new(one),
            other: Peeked::new(other),
        }
    }

    /// The next of the keys, if one is left, with the streams of both rows. Each entry of both maps is passed
    /// once.
    pub fn next_key(&mut self) -> Option<(&'t K, u8, u8)>
        ensures { MatchOption (option_map meeting result) (self.old ≡ []) (λ key. self.old ≡ key ∷ self.new) }
    {
        next_common(&mut self.one, &mut self.other)
    }
}
