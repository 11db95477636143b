//! Where places that staging found are after changes.

use crate::page::Page;
use crate::spots::Spot;
use key_front::Fronted;

/// What is known of how places moved since a group was staged. What it tells are hints: a change looks at
/// the key that stands there.
#[derive(Clone, Copy)]
pub(crate) struct Drift {
    /// how many pages there were
    pages: usize,
    /// the last change's place as it was staged
    staged: Spot,
    /// where what stood there stands now
    now: Spot,
    /// the page that isn't opened again, if there is one
    closed: Option<usize>,
}

impl Drift {
    /// Before the first change, with so many pages.
    pub(crate) fn new(pages: usize) -> Drift {
        let first = Spot { page: 0, place: 0 };
        Drift {
            pages,
            staged: first,
            now: first,
            closed: None,
        }
    }

    /// A change that was staged at a place was made; what stood there stands at another one now.
    pub(crate) fn go_on(&mut self, staged: Spot, now: Spot) {
        self.staged = staged;
        self.now = now;
    }

    /// The next change was staged where the last one was, so that its row is put just behind the last one's.
    pub(crate) fn goes_on(&self, staged: Spot) -> bool {
        staged.page == self.staged.page && staged.place == self.staged.place
    }

    /// A change of this page can't be made together with others.
    pub(crate) fn close(&mut self, page: usize) {
        self.closed = Some(page);
    }

    /// The next changes aren't put into this page together.
    pub(crate) fn is_closed(&self, page: usize) -> bool {
        self.closed == Some(page)
    }

    /// Where a staged place may be now: as far behind the last change as it was, if it was in the same page, and
    /// past that page's end in the next one; else in its own page, which moved as pages were put in and taken out.
    pub(crate) fn hint<K: Fronted, R>(&self, pages: &[Page<K, R>], staged: Spot) -> Spot {
        if staged.page != self.staged.page {
            return Spot {
                page: staged
                    .page
                    .wrapping_add(pages.len())
                    .wrapping_sub(self.pages),
                place: staged.place,
            };
        }
        let page = self.now.page;
        let place = self
            .now
            .place
            .wrapping_add(staged.place)
            .wrapping_sub(self.staged.place);
        match pages.get(page) {
            Some(changed) if place > changed.len() => Spot {
                page: page.wrapping_add(1),
                place: place.wrapping_sub(changed.len()),
            },
            _ => Spot { page, place },
        }
    }
}

/// The place that was found for the change at `left` in a list of changes: they were found from the list's end.
pub(crate) fn staged_at(spots: &[Spot], left: usize) -> Spot {
    match spots.get(spots.len().wrapping_sub(left).wrapping_sub(1)) {
        Some(spot) => *spot,
        None => Spot { page: 0, place: 0 },
    }
}
