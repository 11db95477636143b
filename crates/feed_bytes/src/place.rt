//! Whose feed it is, and the positions that its events carry.

ghost use Rattle.std.specs.Prelude.{◌≡◌, ◌≢◌, ℕ, List, [], ◌∷◌, ◌++◌, IfSome, IfNone, Some, None};
ghost use Rattle.source_feed.specs.SourceValue.{own_gtid, table_in_source};

use std::marker::Model;
use vevent::VGtid;

/// The keyspace and the shard that a feed was recorded from.
#[derive(Drop)]
pub struct Source<'k> {
    keyspace: &'k str,
    shard: &'k str,
}

impl<'k> Model for Source<'k> {
    ghost use Rattle.source_feed.specs.SourceValue.{SourceValue};

    ghost Value = { SourceValue };

    ghost view = { λ s. record { keyspace = s.keyspace.now; shard = s.shard.now } };
}

/// What stands behind the keyspace and a dot, if the name starts with them.
fn behind_keyspace<'h>(keyspace: &str, name: &'h str) -> Option<&'h str>
    ensures some { IfSome result (λ rest. name.now ≡ (keyspace.now ++ 46 ∷ []) ++ rest.now) }
    ensures none { IfNone result ((rest : List ℕ) → name.now ≢ (keyspace.now ++ 46 ∷ []) ++ rest) }
{
    name.strip_prefix(keyspace)?.strip_prefix('.')
}

impl<'k> Source<'k> {
    /// The source of this keyspace and shard.
    pub fn new(keyspace: &'k str, shard: &'k str) -> Source<'k>
        ensures { result ≡ record { keyspace = keyspace.now; shard = shard.now } }
    {
        Source { keyspace, shard }
    }

    /// A table's name without the keyspace and its dot.
    pub fn table<'h>(&self, name: &'h str) -> &'h str
        ensures { result.now ≡ table_in_source self.now name.now }
    {
        if self.keyspace.is_empty() {
            return name;
        }
        behind_keyspace(self.keyspace, name).unwrap_or(name)
    }

    /// The position text of the only entry, if it is that of the source.
    pub(crate) fn own_gtid<'h>(&self, vgtid: &VGtid<'h>) -> Option<&'h str>
        ensures some { IfSome result (λ text. own_gtid self.now vgtid.now ≡ Some text.now) }
        ensures none { IfNone result (own_gtid self.now vgtid.now ≡ None) }
    {
        let mut entries = vgtid.entries();
        let entry = entries.next()?;
        if entries.next().is_some() {
            return None;
        }
        if entry.keyspace == self.keyspace && entry.shard == self.shard {
            Some(entry.gtid)
        } else {
            None
        }
    }
}
