use crate::tests::memory::Memory;
use std::test::Fail;
use std::{env, fs};
use test_helpers::asked_again::{INFO, OPEN_INFO, SHEET, joined, repeated};
use test_helpers::canonical_parts::HEAD;

/// Two reports with this many spaces each are together larger than a megabyte.
const SPACES: usize = 600_000;

const OTHER_INFO: &str =
    r#"{"documentInfo":{"documentType":"https://xbrl.org/2021/xbrl-json","namespaces":{"zz":"http://example.org/t"}},"facts":{"#;

/// The name of each file, and its text in two parts. The file `zz` has the same fact as the file
/// `100`, with another prefix. The file `canonical` is the merged text without facts.
const FILES: [(&str, &str, &str); 27] = [
    ("sheet", "", SHEET),
    (
        "doubled",
        r#"{"namespaces":{"eg":"http://example.org/t"},"#,
        r#""concepts":{"eg:A":"text","eg:A":"numeric"}}"#,
    ),
    ("empty", "", ""),
    ("list", "", "[]"),
    ("names", "101\n", "\n100\n"),
    ("ended", "101\0", "100"),
    ("blank", INFO, "\"a\u{a0}\u{3000}b\":7}}"),
    ("marked", "\u{feff}101\n", "100"),
    (
        "mail",
        "take 1 1\nsend 1\ntake 2 2\n",
        "receive 2 1\nreceive 2 1\njoin 1 2\n",
    ),
    ("once", "take 1 1\nsend 1\n", "receive 2 1\n"),
    ("again", "take 1 1\ntake 2 1\n", "take 1 2"),
    ("late", "take 1 1\nsend 1\n", "receive 2 2\n"),
    ("spaced", "take 1 1\nsend 1\n", "take 1  1\n"),
    (
        "100",
        INFO,
        r#""a":{"value":"100","decimals":0,"dimensions":{"concept":"eg:A"}}}}"#,
    ),
    (
        "zz",
        OTHER_INFO,
        r#""a":{"value":"100","decimals":0,"dimensions":{"concept":"zz:A"}}}}"#,
    ),
    (
        "101",
        INFO,
        r#""a":{"value":"101","decimals":0,"dimensions":{"concept":"eg:A"}}}}"#,
    ),
    (
        "102",
        INFO,
        r#""a":{"value":"102","decimals":0,"dimensions":{"concept":"eg:A"}}}}"#,
    ),
    (
        "canonical",
        HEAD,
        r#""xbrl":"https://xbrl.org/2021"},"taxonomy":[]},"facts":{}}"#,
    ),
    (
        "wrong",
        r#"{"documentInfo":{"documentType":"https://xbrl.org/2021/xbrl-json","namespaces":{"eg":""},"#,
        r#""baseURL":"x\u202e","taxonomy":[2023]}}"#,
    ),
    (
        "apart",
        r#"{"documentInfo":{"documentType":"https://xbrl.org/2021/xbrl-json","namespaces":{"eg":"http://example.org/t","xbrl":"https://xbrl.org/2021"},"features":{"xbrl:allowedDuplicates":"none"}},"#,
        r#""facts":{"a":{"value":"1","dimensions":{"concept":"eg:A"}},"b":{"value":"5","dimensions":{"concept":"eg:A"}}}}"#,
    ),
    (
        "unbound",
        INFO,
        r#""a":{"value":"1","dimensions":{"concept":"q:A"}}}}"#,
    ),
    (
        "three",
        INFO,
        r#""a":{"value":"100","decimals":0,"dimensions":{"concept":"eg:A"}},"b":{"value":"101","decimals":0,"dimensions":{"concept":"eg:A"}},"c":{"value":"102","decimals":0,"dimensions":{"concept":"eg:A"}}}}"#,
    ),
    (
        "thousands",
        INFO,
        r#""a":{"value":"1234567","decimals":-3,"dimensions":{"concept":"eg:A"}},"b":{"value":"1234067","dimensions":{"concept":"eg:A"}}}}"#,
    ),
    (
        "below",
        INFO,
        r#""a":{"value":"1234567","decimals":-3,"dimensions":{"concept":"eg:A"}},"b":{"value":"1234066.9","dimensions":{"concept":"eg:A"}}}}"#,
    ),
    (
        "zeros",
        INFO,
        r#""a":{"value":"-0","dimensions":{"concept":"eg:A"}},"b":{"value":"+0.00","dimensions":{"concept":"eg:A"}},"c":{"value":".0","dimensions":{"concept":"eg:A"}},"d":{"value":"0","dimensions":{"concept":"eg:A"}}}}"#,
    ),
    (
        "nil",
        INFO,
        r#""a":{"value":null,"dimensions":{"concept":"eg:A"}},"b":{"value":"5","dimensions":{"concept":"eg:A"}}}}"#,
    ),
    (
        "twice",
        OPEN_INFO,
        r#","namespaces":{"eg":"http://example.org/t","p":"https://xbrl.org/2021"},"features":{"p:allowedDuplicates":"complete"}},"facts":{"a":{"value":"1","decimals":0,"dimensions":{"concept":"eg:A"}},"b":{"value":"1","decimals":0,"dimensions":{"concept":"eg:A"}}}}"#,
    ),
];

/// All files, in memory.
pub(super) fn made(rt: &HostRuntime) -> Result<Memory, Fail> {
    let mut memory = Memory::new(rt)?;
    for (name, front, rest) in FILES {
        memory.add(rt, name, &[front, rest])?;
    }
    let spaces = repeated(rt, " ", SPACES)?;
    memory.add(rt, "long", &[INFO, "}}", spaces.as_str()])?;
    Ok(memory)
}

/// Makes the files but `long` in this folder, which is below `out`, and goes there. `out` is not
/// under version control.
pub(super) fn made_real(rt: &HostRuntime, folder: &str) -> Result<(), Fail> {
    fs::create_dir_all(rt, folder)?;
    env::set_current_dir(rt, folder)?;
    for (name, front, rest) in FILES {
        fs::write(rt, name, joined(rt, &[front, rest])?.as_slice())?;
    }
    Ok(())
}

/// Goes back, and removes the folder.
pub(super) fn removed(rt: &HostRuntime, folder: &str) -> Result<(), Fail> {
    env::set_current_dir(rt, "../..")?;
    let _ = fs::remove_dir_all(rt, folder);
    Ok(())
}
