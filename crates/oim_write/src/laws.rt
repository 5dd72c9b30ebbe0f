//! Laws of the definitions. Each is the contract of a function that does nothing.
ghost use Rattle.oim_dims.specs.FactOrder.{fact_cmp};
ghost use Rattle.fact_base.specs.Body.{text_cmp};
ghost use Rattle.oim_write.specs.BoundedSink.{RunsStayBounded};
ghost use Rattle.oim_write.specs.Bytes.{BytesIgnoreOrder, TreesArePlain};
ghost use Rattle.oim_write.specs.Ordered.{FactsAreWrittenInOrder};
ghost use Rattle.oim_write.specs.Prefixes.{FactsAreSpelled};
ghost use Rattle.oim_write.specs.Rank.{PaddedKeepsOrder, PaddedWritesNumber, RanksAreWithin, WidthIsFewestDigits};

/// The same documents give the same canonical text, whatever their order and repetition.
pub fn bytes_ignore_order()
    ensures { BytesIgnoreOrder }
{}

/// The tree of a body that fits a sheet has UTF-8 texts and no float, and nests at most four deep.
/// The keys of its objects are distinct and in byte order. The tree may declare any level or none.
pub fn trees_are_plain()
    ensures { TreesArePlain }
{}

/// If names have the prefixes of a text, the members of each fact object in the text are in the
/// byte order of their keys. The taxonomy-defined dimensions are between `language` and `period`,
/// in the order of their names.
pub fn facts_are_written_in_order()
    ensures { FactsAreWrittenInOrder }
{}

/// Each name of a body's facts is spelled with a prefix of letters and digits that is bound to the
/// name's URI.
pub fn facts_are_spelled()
    ensures { FactsAreSpelled }
{}

/// A number that fits in a width is padded to that width. Parsing the digits returns the number.
pub fn padded_writes_number()
    ensures { PaddedWritesNumber }
{}

/// The width of a number is the smallest count of digits, at least 1, that can write the number.
pub fn width_is_fewest_digits()
    ensures { WidthIsFewestDigits }
{}

/// The rank of a set's member is at least 1 and at most the number of members.
pub fn ranks_are_within()
    ensures facts { RanksAreWithin fact_cmp }
    ensures uris { RanksAreWithin text_cmp }
{}

/// If two numbers fit in a width, the padded text of the smaller number is first in byte order.
pub fn padded_keeps_order()
    ensures { PaddedKeepsOrder }
{}

/// However often a `BoundedSink` is given bytes, it passes at most as many as its bound, and exactly
/// as many if it overran.
pub fn runs_stay_bounded()
    ensures { RunsStayBounded }
{}
