ghost use Rattle.std.specs.Prelude.{◌≡◌, ◌↔◌, Some};
ghost use Rattle.oim_value.specs.declared.level.Level.{Level as Said};
ghost use Rattle.oim_value.specs.Level.{level_entry, level_with};

/// The duplicate facts that a report may have (`xbrl:allowedDuplicates` of the Open Information
/// Model). The strictest level is first.
#[derive(Clone, Copy, Debug, PartialEq, Eq, PartialOrd, Ord)]
pub enum Level {
    /// No two facts may have the same dimensions.
    Unique,
    /// Facts with the same dimensions must be equal.
    Complete,
    /// Values of facts with the same dimensions must meet.
    Consistent,
    /// Any facts are allowed.
    All,
}

const LEVELS: [Level; 4] = [
    Level::Unique,
    Level::Complete,
    Level::Consistent,
    Level::All,
];

impl Level {
    /// Returns the level that a text declares, or None. `none`, `complete`, `consistent` and `all`
    /// declare `Unique`, `Complete`, `Consistent` and `All`. No other text declares a level.
    pub fn read(text: &str) -> Option<Level>
        ensures table { result ≡ level_with text.now }
        ensures exact { (level : Said) → result ≡ Some level ↔ (level_entry level).text ≡ text.now }
    {
        LEVELS.iter().copied().find(|level| level.text() == text)
    }

    /// Returns the text that declares the level. No two levels share a text.
    pub fn text(self) -> &'static str
        ensures { result.now ≡ (level_entry self).text }
    {
        match self {
            Level::Unique => "none",
            Level::Complete => "complete",
            Level::Consistent => "consistent",
            Level::All => "all",
        }
    }
}
