/// Returns the object of a report in which the format defines a member with this key (xBRL-JSON 1.0,
/// sections 3 and 4), or `None` if the format defines no such member.
pub(crate) fn object_with(key: &str) -> Option<&'static str> {
    match key {
        "documentInfo" | "facts" => Some("the root of the report"),
        "documentType"
        | "namespaces"
        | "taxonomy"
        | "baseURL"
        | "features"
        | "linkTypes"
        | "linkGroups" => Some("\"documentInfo\""),
        "value" | "decimals" | "dimensions" | "links" => Some("a fact"),
        "concept" | "entity" | "period" | "unit" | "language" | "noteId" => {
            Some("the \"dimensions\" of a fact")
        }
        _ => None,
    }
}
