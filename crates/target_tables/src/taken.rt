//! The entries of a map that is taken apart.

ghost use Rattle.std.specs.Prelude.{◌≡◌, [], ◌∷◌, MatchOption};
ghost use Rattle.target_tables.specs.Pages.{entries_of, AreFull};

use crate::page::Page;
use key_front::Fronted;
use std::alloc::Global;
use std::collections::VecDeque;
use std::marker::Model;

/// Entries that are still to be taken out of pages, in their order. Seen in contracts as the list of these.
#[derive(Drop)]
pub(crate) struct Taken<K: Fronted, R> {
    entries: VecDeque<(K, (u8, R))>,
    pages: VecDeque<Page<K, R>>,
}

impl<K: Fronted, R> Model for Taken<K, R> {
    ghost use Rattle.std.specs.Prelude.{ℕ, List, ◌++◌};
    ghost use Rattle.target_tables.specs.Pages.{entries_of, AreFull};

    ghost Value = { List (K × (ℕ × R)) };

    ghost view = { λ t. t.entries.items ++ entries_of t.pages.items };

    ghost invariant = { λ t. AreFull t.pages.items };
}

/// Takes the first of a list out, if there is one.
fn take_first<X>(list: &mut VecDeque<X>) -> Option<X>
    ensures { MatchOption result ((list.old.items ≡ []) × (list.new.items ≡ [])) (λ x. list.old.items ≡ x ∷ list.new.items) }
{
    list.pop_front()
}

impl<K: Fronted + Drop, R: Drop> Taken<K, R> {
    /// The entries of pages. Takes no memory.
    pub(crate) fn new(alloc: Global, pages: Vec<Page<K, R>>) -> Taken<K, R>
        requires { AreFull pages.items }
        ensures { result ≡ entries_of pages.items }
    {
        Taken {
            entries: VecDeque::new(alloc),
            pages: VecDeque::from(pages),
        }
    }

    /// Takes the first entry out, if one is left. Takes no memory.
    pub(crate) fn pop(&mut self) -> Option<(K, (u8, R))>
        ensures { MatchOption result ((self.old ≡ []) × (self.new ≡ [])) (λ entry. self.old ≡ entry ∷ self.new) }
    {
        match take_first(&mut self.entries) {
            Some(entry) => Some(entry),
            None => {
                let page = take_first(&mut self.pages)?;
                self.entries = VecDeque::from(page.into_entries());
                take_first(&mut self.entries)
            }
        }
    }
}
