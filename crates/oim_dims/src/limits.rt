/// Every day has this many seconds: there are no leap seconds.
pub const DAY_SECONDS: u32 = 86_400;

/// The first second of the year 0001, in seconds from 1970-01-01T00:00:00.
pub const FIRST_MOMENT: i64 = -62_135_596_800;

/// The last second of the year 9999, in seconds from 1970-01-01T00:00:00.
pub const LAST_MOMENT: i64 = 253_402_300_799;
