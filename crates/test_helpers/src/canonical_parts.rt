// Parts of texts in the canonical form and in the earlier form, which tests read or expect.

/// The text before the namespaces if no two facts have the same dimensions.
pub const HEAD: &str =
    r#"{"documentInfo":{"documentType":"https://xbrl.org/2021/xbrl-json","features":{"xbrl:allowedDuplicates":"none"},"namespaces":{"#;

/// The text before the namespaces if some facts have the same dimensions, but none contradict each
/// other.
pub const CONSISTENT_HEAD: &str =
    r#"{"documentInfo":{"documentType":"https://xbrl.org/2021/xbrl-json","features":{"xbrl:allowedDuplicates":"consistent"},"namespaces":{"#;

/// The text before the namespaces if some facts contradict each other.
pub const CONTRADICTING_HEAD: &str =
    r#"{"documentInfo":{"documentType":"https://xbrl.org/2021/xbrl-json","features":{"xbrl:allowedDuplicates":"all"},"namespaces":{"#;

/// The text from the namespace of `xbrl` up to the facts, if other namespaces precede it. There are
/// no taxonomy references.
pub const MIDDLE: &str = r#","xbrl":"https://xbrl.org/2021"},"taxonomy":[]},"facts":{"#;

/// The text from the namespace of `xbrl` up to the facts, if no other namespace precedes it. There
/// are no taxonomy references.
pub const MIDDLE_ALONE: &str = r#""xbrl":"https://xbrl.org/2021"},"taxonomy":[]},"facts":{"#;

/// The text after the facts, in canonical texts and in the reports of tests.
pub const END: &str = "}}";

/// The binding of `n1`, the prefix of the concept.
pub const ONE_URI: &str = r#""n1":"http://example.org/t""#;

/// A fact with the value 100 and `decimals` 0.
pub const WRITTEN_HUNDRED: &str =
    r#""f1":{"decimals":0,"dimensions":{"concept":"n1:A"},"value":"100"}"#;

/// Two facts with the values 100 and 101 and `decimals` 0.
pub const WRITTEN_BOTH: &str =
    r#""f1":{"decimals":0,"dimensions":{"concept":"n1:A"},"value":"100"},"f2":{"decimals":0,"dimensions":{"concept":"n1:A"},"value":"101"}"#;

/// The text before the namespaces in the earlier form, which declares no level.
pub const EARLIER_HEAD: &str =
    r#"{"documentInfo":{"documentType":"https://xbrl.org/2021/xbrl-json","namespaces":{"#;

/// The text between the namespaces and the facts in the earlier form, without taxonomy references.
pub const EARLIER_MIDDLE: &str = r#"},"taxonomy":[]},"facts":{"#;
