/// The greatest length in bytes of a base URL, a taxonomy reference or a kept text.
pub const MOST_REFERENCE_BYTES: usize = 65_536;

/// The greatest number of levels of nested arrays and objects, which is the limit of `serde_json`.
pub const MOST_LEVELS: usize = 127;

/// The greatest number of levels of a member's value in a piece, because a piece is parsed inside an
/// array and an object.
pub const MOST_MEMBER_LEVELS: usize = MOST_LEVELS - 2;

/// The greatest number of texts in a cache. The limit bounds the memory of the cache, and the time
/// of a search among texts with the same hash.
pub const MOST_MEANINGS: usize = 4_096;

/// The greatest length in bytes of a text in a cache. The limit bounds the memory of the texts, which
/// a `ReportReader` keeps even after a report is refused.
pub const MOST_MEANING_BYTES: usize = 256;

/// The least size in bytes of each piece of a report's facts, except the last piece. Larger pieces
/// cause more page faults.
pub const PIECE_BYTES: usize = 65_536;

/// The greatest number of taxonomy-defined dimensions of a fact that is read from a tape. Each one
/// is inserted into a sorted list, so the time grows with the square of their number.
pub const MOST_INSERTED: usize = 64;

/// The greatest capacity in bytes of a text buffer that a `ReportReader` keeps for later reports.
/// The scratch memory of the tape, which it also keeps, has at most about ten times as many bytes.
pub const MOST_KEPT_BYTES: usize = 4 * PIECE_BYTES;
