ghost use Rattle.std.specs.Prelude.{◌≡◌};
ghost use Rattle.oim_explain.specs.code.Added.{identifier_of, place_of};

use oim_report::Place;

/// What a sentence is about.
#[derive(Clone, Copy)]
pub(crate) enum Subject<'a> {
    Sheet,
    Report,
    /// The number and the identifier of a fact.
    Fact(u64, &'a str),
}

impl<'a> Subject<'a> {
    pub(crate) fn place(self) -> Place
        ensures { result ≡ place_of self.entry }
    {
        match self {
            Subject::Fact(number, _) => Place::Fact(number),
            _ => Place::Document,
        }
    }

    pub(crate) fn identifier(self) -> Option<&'a str>
        ensures { result ≡ identifier_of self.entry }
    {
        match self {
            Subject::Fact(_, identifier) => Some(identifier),
            _ => None,
        }
    }
}
