//! The entries of a map from a key on.

ghost use Rattle.std.specs.Prelude.{◌≡◌, ◌≤◌, ◌++◌, drop, length};
ghost use Rattle.std.specs.Iterator.{YieldsFirstBy, item_count};
ghost use Rattle.target_tables.specs.Contents.{entry};
ghost use Rattle.target_tables.specs.Pages.{entries_of, page_at, flat, AreFull};

use crate::page::Page;
use crate::spots::Spot;
use key_front::Fronted;
use std::marker::Model;

/// The entries of a map that are still to come, by rising key: each key with its stream and row.
/// Seen in contracts as the list of these. Takes no memory.
#[derive(Drop)]
pub struct Scan<'t, K: Fronted, R> {
    entries: &'t [(K, (u8, R))],
    pages: &'t [Page<K, R>],
}

impl<'t, K: Fronted, R> Model for Scan<'t, K, R> {
    ghost use Rattle.std.specs.Prelude.{ℕ, List, ◌++◌};
    ghost use Rattle.target_tables.specs.Pages.{entries_of, AreFull};

    ghost Value = { List (K × (ℕ × R)) };

    ghost view = { λ s. s.entries.now ++ entries_of s.pages.now };

    ghost invariant = { λ s. AreFull s.pages.now };
}

impl<'t, K: Fronted, R> Scan<'t, K, R> {
    /// These entries, and behind them those of pages.
    fn new(entries: &'t [(K, (u8, R))], pages: &'t [Page<K, R>]) -> Scan<'t, K, R>
        requires { AreFull pages.now }
        ensures { result ≡ entries.now ++ entries_of pages.now }
    {
        Scan { entries, pages }
    }
}

/// The entries of pages from a place on.
pub(crate) fn scan_from<'t, K: Fronted, R>(pages: &'t [Page<K, R>], spot: Spot) -> Scan<'t, K, R>
    requires full { AreFull pages.now }
    requires within { spot.place ≤ length (page_at pages.now spot.page) }
    ensures { result ≡ drop (flat pages.now spot.page spot.place) (entries_of pages.now) }
{
    let Spot { page, place } = spot;
    if page >= pages.len() {
        return Scan::new(&[], &[]);
    }
    Scan::new(&pages[page].entries()[place..], &pages[page + 1..])
}

impl<'t, K: Fronted, R> Iterator for Scan<'t, K, R> {
    type Item = (&'t K, u8, &'t R);

    ghost next_gives = { YieldsFirstBy entry (λ s. s) };

    ghost remaining = { item_count (λ s. s) };

    fn next(&mut self) -> Option<(&'t K, u8, &'t R)> {
        match self.entries.split_first() {
            Some(((key, (stream, row)), rest)) => {
                self.entries = rest;
                Some((key, *stream, row))
            }
            None => {
                let (page, pages) = self.pages.split_first()?;
                let ((key, (stream, row)), rest) = page.entries().split_first()?;
                self.entries = rest;
                self.pages = pages;
                Some((key, *stream, row))
            }
        }
    }
}
