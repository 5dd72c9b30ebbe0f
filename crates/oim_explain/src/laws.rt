//! Laws: the contract of each function here states a property of the definitions.
ghost use Rattle.oim_explain.specs.Escaped.{EscapedIsShown, EscapedNamesDiffer};

/// `Escaped` and `EscapedName` print only characters that are shown, and so no line end.
#[tactic(auto, using(crate::proofs::EscapedLaws::escaped_is_shown))]
pub fn escaped_is_shown()
    ensures { EscapedIsShown }
{}

/// `EscapedName` prints different names differently.
#[tactic(auto, using(crate::proofs::EscapedNames::escaped_names_differ))]
pub fn escaped_names_differ()
    ensures { EscapedNamesDiffer }
{}
