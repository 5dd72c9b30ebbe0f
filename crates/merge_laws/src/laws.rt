ghost use Rattle.merge_laws.specs.Ends.{SummaryTellsAll};
ghost use Rattle.merge_laws.specs.Members.{MapIsItsValues, MapUnionKeeps, MapWithKeeps, SetIsItsMembers, SummaryOfBoth, SummaryOfMembers, SummaryOfOne, SummaryOfUnion};
ghost use Rattle.merge_laws.specs.Union.{MapTellsEntry, MapUnionHasBoth, MapWithMerges, SetTellsItem, SetUnionHasBoth, SetWithHasItem};
ghost use Rattle.oim_value.specs.Ends.{AllMeetIffEndsMeet};

use crate::merge::Merge;
use oim_names::Key;

/// The union of two sets has an item exactly if one of the sets has it. Inserting an item adds
/// exactly that item. A look-up finds an item exactly if the set contains it.
pub fn set_has_both<T: Key>()
    ensures told { SetTellsItem T.cmp }
    ensures union { SetUnionHasBoth T.cmp }
    ensures item { SetWithHasItem T.cmp }
{}

/// The union of two maps has the keys of both. If both maps have a key, its value is the merge of
/// the two values. The values at other keys do not change. `put` is a union with a map of one
/// entry. A look-up finds a value at a key exactly if the map has an entry with this key and value.
pub fn map_has_both<K: Key, V: Merge>()
    ensures told { MapTellsEntry K.cmp V.merged }
    ensures union { MapUnionHasBoth K.cmp V.merged }
    ensures put { MapWithMerges K.cmp V.merged }
{}

/// If no interval is empty, every two intervals meet exactly if the greatest low end is at most the
/// least high end.
pub fn all_meet_iff_ends_meet()
    ensures { AllMeetIffEndsMeet }
{}

/// A summary records whether any value is nil, whether any is a number, and the greatest low end
/// and the least high end of the numbers' intervals.
pub fn summary_tells_all()
    ensures { SummaryTellsAll }
{}

/// Sets with the same items are equal.
pub fn set_is_its_members<T: Key>()
    ensures { SetIsItsMembers T.cmp }
{}

/// Two maps are equal if, at each key, both have the same value or both have none.
pub fn map_is_its_values<K: Key, V: Merge>()
    ensures { MapIsItsValues K.cmp V }
{}

/// Merging keeps a test if the merge of two values at one key passes the test whenever both values
/// do. If all entries of two maps pass a test that merging keeps, all entries of their union pass
/// it. If all entries of a map and a new entry pass a test that merging keeps, all entries after
/// `put` pass it.
pub fn map_keeps_what_merging_keeps<K: Key, V: Merge>()
    ensures union { MapUnionKeeps K.cmp V.merged }
    ensures put { MapWithKeeps K.cmp V.merged }
{}

/// The summary of two concatenated lists, or of the union of two sets, is the merge of their
/// summaries. A summary does not depend on the order or repetition of values.
pub fn summary_is_of_members()
    ensures one { SummaryOfOne }
    ensures both { SummaryOfBoth }
    ensures union { SummaryOfUnion }
    ensures members { SummaryOfMembers }
{}
