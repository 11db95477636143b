//! Lines that tell how far a command is, on standard error.

use std::alloc::{AllocError, Global};
use std::env;
use std::io::IsTerminal;
use vrepl_words::choices::Telling;

/// What begins a line on a terminal: there, what is wider than the terminal doesn't go on in the next line.
const BEGUN: &str = "\r\x1b[?7l";

/// What ends it: the rest of the line is emptied, and lines go on as before.
const ENDED: &str = "\x1b[K\x1b[?7h";

/// What takes it away.
const ERASED: &str = "\r\x1b[K";

/// Where the lines go.
#[derive(Clone, Copy)]
pub(crate) enum Page {
    /// To a terminal, where one line is drawn anew.
    Terminal,
    /// Elsewhere, where each stands for itself.
    File,
}

impl Page {
    /// Where they go, if the words ask for any.
    pub(crate) fn asked(rt: &HostRuntime, telling: Telling) -> Option<Page> {
        let is_drawn = draws(rt);
        match telling {
            Telling::Never => None,
            _ if is_drawn => Some(Page::Terminal),
            Telling::Always => Some(Page::File),
            Telling::OnTerminal => None,
        }
    }

    /// Whether it is a terminal.
    pub(crate) fn is_drawn(self) -> bool {
        matches!(self, Page::Terminal)
    }

    /// In which of the times between two lines so many milliseconds are gone; in the first there is none yet.
    pub(crate) fn turn(self, gone: u64) -> u64 {
        match self {
            Page::Terminal => gone / 250,
            Page::File => gone / 60_000,
        }
    }

    /// Tells a line, in one piece. An error is want of memory, and nothing is told.
    pub(crate) fn tell(self, rt: &HostRuntime, line: &str) -> Result<(), AllocError> {
        let (begin, end) = match self {
            Page::Terminal => (BEGUN, ENDED),
            Page::File => ("", "\n"),
        };
        let text = format!(in rt.alloc(); "{begin}{line}{end}")?;
        let _told = rt.eprint(text);
        Ok(())
    }

    /// Takes the line away that was drawn last.
    pub(crate) fn clear(self, rt: &HostRuntime) {
        if self.is_drawn() {
            let _told = rt.eprint(ERASED);
        }
    }
}

/// Adds a time in minutes and seconds, with hours where there are some.
pub(crate) fn push_clock(alloc: Global, line: &mut String, millis: u64) -> Result<(), AllocError> {
    let seconds = millis / 1000;
    let (hours, minutes, rest) = (seconds / 3600, seconds / 60 % 60, seconds % 60);
    let clock = if hours > 0 {
        format!(in alloc; "{hours}:{minutes:02}:{rest:02}")?
    } else {
        format!(in alloc; "{minutes}:{rest:02}")?
    };
    line.push_str(clock.as_str())
}

/// Whether lines can be drawn anew on standard error: it is a terminal, and no dumb one.
fn draws(rt: &HostRuntime) -> bool {
    if !rt.stderr().is_terminal() {
        return false;
    }
    match env::var(rt, "TERM") {
        Ok(name) => name.as_str() != "dumb",
        Err(_) => false,
    }
}
