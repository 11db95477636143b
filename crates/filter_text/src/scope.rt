//! Which tables a filter rule is for.

ghost use Rattle.std.specs.Prelude.{◌≡◌, option_map};
ghost use Rattle.filter_text.specs.RuleScope.{scope_of, is_for, agrees};
ghost use Rattle.filter_text.specs.Views.{scope_said};

/// Which tables a filter rule is for.
#[derive(Clone, Copy, Debug, PartialEq, Eq)]
pub enum Scope<'t> {
    /// Every table.
    EveryTable,
    /// The table of this name.
    OneTable(&'t str),
}

impl<'t> Scope<'t> {
    /// The scope that a rule's `match` writes: `/.*` is every table, another text that begins with `/`
    /// is none, and any other text is the name of a table. Takes no memory.
    pub fn parse(text: &'t str) -> Option<Scope<'t>>
        ensures { option_map scope_said result ≡ scope_of text.now }
    {
        if text == "/.*" {
            return Some(Scope::EveryTable);
        }
        match text.as_bytes() {
            [b'/', ..] => None,
            _ => Some(Scope::OneTable(text)),
        }
    }

    /// Whether the rule is for a table of this name. Takes no memory.
    pub fn is_for(&self, table: &str) -> bool
        ensures { result ≡ is_for (scope_said self.now) table.now }
    {
        match self {
            Scope::EveryTable => true,
            Scope::OneTable(name) => table == *name,
        }
    }

    /// Whether a filter that selects from `table`, if it does, may stand in the rule: a `select` stands
    /// under its own table's name alone. Takes no memory.
    pub fn agrees(&self, table: Option<&str>) -> bool
        ensures { result ≡ agrees (scope_said self.now) (option_map (λ t. t.now) table.entry) }
    {
        match (self, table) {
            (_, None) => true,
            (Scope::EveryTable, Some(_)) => false,
            (Scope::OneTable(name), Some(table)) => *name == table,
        }
    }
}
