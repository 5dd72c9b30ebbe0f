//! Laws of the definitions. Each is the contract of a function that does nothing.
ghost use Rattle.fact_base.specs.BodyLaws.{BodyHasWhatDocumentsHave, BodyIgnoresOrder, BodyOfBoth, UnionHasBoth};
ghost use Rattle.fact_base.specs.Contradiction.{NumericInconsistentIsApart};
ghost use Rattle.fact_base.specs.Fits.{AcceptedFits, UnionFits};
ghost use Rattle.fact_base.specs.Level.{SetsAreNeverComplete};
ghost use Rattle.fact_base.specs.Rows.{RowsTellFacts};
ghost use Rattle.fact_base.specs.Verdict.{InconsistentIsApart};

/// A body has exactly the facts and references of its documents, distinct and in order.
pub fn body_has_what_documents_have()
    ensures { BodyHasWhatDocumentsHave }
{}

/// A union has exactly the facts and references of the two bodies, distinct and in order.
pub fn union_has_both()
    ensures { UnionHasBoth }
{}

/// The body of documents does not depend on their order or repetition.
pub fn body_ignores_order()
    ensures { BodyIgnoresOrder }
{}

/// The body of two concatenated lists of documents is the union of the bodies of the lists.
pub fn body_of_both()
    ensures { BodyOfBoth }
{}

/// The body of documents that are accepted under a sheet fits the sheet, and so does the union of
/// two bodies that fit it.
pub fn accepted_fits()
    ensures accepted { AcceptedFits }
    ensures union { UnionFits }
{}

/// The rows of strictly ascending facts have distinct dimension sets, in order, and each fact has a
/// row. Each row has exactly the values of its dimension set, distinct and in order.
pub fn rows_tell_facts()
    ensures { RowsTellFacts }
{}

/// The level of distinct facts is never `complete`, because equal facts are one fact.
pub fn sets_are_never_complete()
    ensures { SetsAreNeverComplete }
{}

/// The verdict on a dimension set is `Inconsistent` exactly if two of its facts do not meet.
pub fn inconsistent_is_apart()
    ensures { InconsistentIsApart }
{}

/// In a body that fits a sheet, the verdict on a numeric dimension set is `Inconsistent` exactly if
/// two of its values contradict each other. Two numbers contradict each other if their intervals
/// share no point; nil contradicts each number.
pub fn numeric_inconsistent_is_apart()
    ensures { NumericInconsistentIsApart }
{}
