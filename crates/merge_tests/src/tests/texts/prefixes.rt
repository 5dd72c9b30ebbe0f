use super::{LINE, Row, SHEET};
use test_helpers::asked_again::OPEN_INFO;
use test_helpers::canonical_parts::{END, HEAD, MIDDLE};

// Prefixes are numbered in the byte order of their URIs, not in the order of first use.

// Parts of reports with one fact, and of their merged texts. The fact's concept and measures use
// all URIs that the report binds.

const BOUND: &str = r#","namespaces":{"eg":"http://example.org/t","#;

const FACT: &str = r#"}},"facts":{"a":{"value":"1","dimensions":{"concept":"eg:A","unit":""#;

const WRITTEN: &str =
    r#","xbrl":"https://xbrl.org/2021"},"taxonomy":[]},"facts":{"f1":{"dimensions":{"concept":""#;

/// A bundle with one fact. The fact's unit has one name in each of 99 namespaces, and its concept
/// is in another namespace.
const NINETY_NINE: &[&str] = &[
    SHEET,
    LINE,
    OPEN_INFO,
    BOUND,
    r#""p01":"u:01","p02":"u:02","p03":"u:03","p04":"u:04","p05":"u:05","p06":"u:06""#,
    r#","p07":"u:07","p08":"u:08","p09":"u:09","p10":"u:10","p11":"u:11","p12":"u:12""#,
    r#","p13":"u:13","p14":"u:14","p15":"u:15","p16":"u:16","p17":"u:17","p18":"u:18""#,
    r#","p19":"u:19","p20":"u:20","p21":"u:21","p22":"u:22","p23":"u:23","p24":"u:24""#,
    r#","p25":"u:25","p26":"u:26","p27":"u:27","p28":"u:28","p29":"u:29","p30":"u:30""#,
    r#","p31":"u:31","p32":"u:32","p33":"u:33","p34":"u:34","p35":"u:35","p36":"u:36""#,
    r#","p37":"u:37","p38":"u:38","p39":"u:39","p40":"u:40","p41":"u:41","p42":"u:42""#,
    r#","p43":"u:43","p44":"u:44","p45":"u:45","p46":"u:46","p47":"u:47","p48":"u:48""#,
    r#","p49":"u:49","p50":"u:50","p51":"u:51","p52":"u:52","p53":"u:53","p54":"u:54""#,
    r#","p55":"u:55","p56":"u:56","p57":"u:57","p58":"u:58","p59":"u:59","p60":"u:60""#,
    r#","p61":"u:61","p62":"u:62","p63":"u:63","p64":"u:64","p65":"u:65","p66":"u:66""#,
    r#","p67":"u:67","p68":"u:68","p69":"u:69","p70":"u:70","p71":"u:71","p72":"u:72""#,
    r#","p73":"u:73","p74":"u:74","p75":"u:75","p76":"u:76","p77":"u:77","p78":"u:78""#,
    r#","p79":"u:79","p80":"u:80","p81":"u:81","p82":"u:82","p83":"u:83","p84":"u:84""#,
    r#","p85":"u:85","p86":"u:86","p87":"u:87","p88":"u:88","p89":"u:89","p90":"u:90""#,
    r#","p91":"u:91","p92":"u:92","p93":"u:93","p94":"u:94","p95":"u:95","p96":"u:96""#,
    r#","p97":"u:97","p98":"u:98","p99":"u:99""#,
    FACT,
    "p99:m*p98:m*p97:m*p96:m*p95:m*p94:m*p93:m*p92:m*p91:m*p90:m*p89:m*p88:m*p87:m",
    "*p86:m*p85:m*p84:m*p83:m*p82:m*p81:m*p80:m*p79:m*p78:m*p77:m*p76:m*p75:m*p74:m",
    "*p73:m*p72:m*p71:m*p70:m*p69:m*p68:m*p67:m*p66:m*p65:m*p64:m*p63:m*p62:m*p61:m",
    "*p60:m*p59:m*p58:m*p57:m*p56:m*p55:m*p54:m*p53:m*p52:m*p51:m*p50:m*p49:m*p48:m",
    "*p47:m*p46:m*p45:m*p44:m*p43:m*p42:m*p41:m*p40:m*p39:m*p38:m*p37:m*p36:m*p35:m",
    "*p34:m*p33:m*p32:m*p31:m*p30:m*p29:m*p28:m*p27:m*p26:m*p25:m*p24:m*p23:m*p22:m",
    "*p21:m*p20:m*p19:m*p18:m*p17:m*p16:m*p15:m*p14:m*p13:m*p12:m*p11:m*p10:m*p09:m",
    "*p08:m*p07:m*p06:m*p05:m*p04:m*p03:m*p02:m*p01:m",
    r#""}}"#,
    END,
];

const NINETY_NINE_WRITTEN: &[&str] = &[
    HEAD,
    r#""n001":"http://example.org/t","n002":"u:01","n003":"u:02","n004":"u:03","n005":"u:04""#,
    r#","n006":"u:05","n007":"u:06","n008":"u:07","n009":"u:08","n010":"u:09""#,
    r#","n011":"u:10","n012":"u:11","n013":"u:12","n014":"u:13","n015":"u:14""#,
    r#","n016":"u:15","n017":"u:16","n018":"u:17","n019":"u:18","n020":"u:19""#,
    r#","n021":"u:20","n022":"u:21","n023":"u:22","n024":"u:23","n025":"u:24""#,
    r#","n026":"u:25","n027":"u:26","n028":"u:27","n029":"u:28","n030":"u:29""#,
    r#","n031":"u:30","n032":"u:31","n033":"u:32","n034":"u:33","n035":"u:34""#,
    r#","n036":"u:35","n037":"u:36","n038":"u:37","n039":"u:38","n040":"u:39""#,
    r#","n041":"u:40","n042":"u:41","n043":"u:42","n044":"u:43","n045":"u:44""#,
    r#","n046":"u:45","n047":"u:46","n048":"u:47","n049":"u:48","n050":"u:49""#,
    r#","n051":"u:50","n052":"u:51","n053":"u:52","n054":"u:53","n055":"u:54""#,
    r#","n056":"u:55","n057":"u:56","n058":"u:57","n059":"u:58","n060":"u:59""#,
    r#","n061":"u:60","n062":"u:61","n063":"u:62","n064":"u:63","n065":"u:64""#,
    r#","n066":"u:65","n067":"u:66","n068":"u:67","n069":"u:68","n070":"u:69""#,
    r#","n071":"u:70","n072":"u:71","n073":"u:72","n074":"u:73","n075":"u:74""#,
    r#","n076":"u:75","n077":"u:76","n078":"u:77","n079":"u:78","n080":"u:79""#,
    r#","n081":"u:80","n082":"u:81","n083":"u:82","n084":"u:83","n085":"u:84""#,
    r#","n086":"u:85","n087":"u:86","n088":"u:87","n089":"u:88","n090":"u:89""#,
    r#","n091":"u:90","n092":"u:91","n093":"u:92","n094":"u:93","n095":"u:94""#,
    r#","n096":"u:95","n097":"u:96","n098":"u:97","n099":"u:98","n100":"u:99""#,
    WRITTEN,
    r#"n001:A","unit":""#,
    "n002:m*n003:m*n004:m*n005:m*n006:m*n007:m*n008:m*n009:m*n010:m*n011:m*n012:m",
    "*n013:m*n014:m*n015:m*n016:m*n017:m*n018:m*n019:m*n020:m*n021:m*n022:m*n023:m",
    "*n024:m*n025:m*n026:m*n027:m*n028:m*n029:m*n030:m*n031:m*n032:m*n033:m*n034:m",
    "*n035:m*n036:m*n037:m*n038:m*n039:m*n040:m*n041:m*n042:m*n043:m*n044:m*n045:m",
    "*n046:m*n047:m*n048:m*n049:m*n050:m*n051:m*n052:m*n053:m*n054:m*n055:m*n056:m",
    "*n057:m*n058:m*n059:m*n060:m*n061:m*n062:m*n063:m*n064:m*n065:m*n066:m*n067:m",
    "*n068:m*n069:m*n070:m*n071:m*n072:m*n073:m*n074:m*n075:m*n076:m*n077:m*n078:m",
    "*n079:m*n080:m*n081:m*n082:m*n083:m*n084:m*n085:m*n086:m*n087:m*n088:m*n089:m",
    "*n090:m*n091:m*n092:m*n093:m*n094:m*n095:m*n096:m*n097:m*n098:m*n099:m*n100:m",
    r#""},"value":"1"}"#,
    END,
];

pub(super) const ROWS: &[Row] = &[
    // prefixes are in the byte order of their URIs
    (
        &[
            r#"{"namespaces":{"p":"http://b.org","q":"http://a.org"},"concepts":{"p:A":"numeric","q:A":"numeric"}}"#,
            LINE,
            r#"{"documentInfo":{"documentType":"https://xbrl.org/2021/xbrl-json","namespaces":{"p":"http://b.org","q":"http://a.org"}},"facts":{"#,
            r#""a":{"value":"1","dimensions":{"concept":"p:A"}},"b":{"value":"2","dimensions":{"concept":"q:A"}}"#,
            END,
        ],
        &[
            HEAD,
            r#""n1":"http://a.org","n2":"http://b.org""#,
            MIDDLE,
            r#""f1":{"dimensions":{"concept":"n1:A"},"value":"2"},"#,
            r#""f2":{"dimensions":{"concept":"n2:A"},"value":"1"}"#,
            END,
        ],
    ),
    // nine prefixes have one digit
    (
        &[
            SHEET,
            LINE,
            OPEN_INFO,
            BOUND,
            r#""h":"u:8","g":"u:7","f":"u:6","e":"u:5","d":"u:4","c":"u:3","b":"u:2","a":"u:1""#,
            FACT,
            r#"h:m*g:m*f:m*e:m/d:m*c:m*b:m*a:m"}}"#,
            END,
        ],
        &[
            HEAD,
            r#""n1":"http://example.org/t","n2":"u:1","n3":"u:2","n4":"u:3","n5":"u:4","#,
            r#""n6":"u:5","n7":"u:6","n8":"u:7","n9":"u:8""#,
            WRITTEN,
            r#"n1:A","unit":"(n6:m*n7:m*n8:m*n9:m)/(n2:m*n3:m*n4:m*n5:m)"},"value":"1"}"#,
            END,
        ],
    ),
    // ten prefixes have two digits
    (
        &[
            SHEET,
            LINE,
            OPEN_INFO,
            BOUND,
            r#""i":"u:9","h":"u:8","g":"u:7","f":"u:6","e":"u:5","d":"u:4","c":"u:3","b":"u:2","a":"u:1""#,
            FACT,
            r#"i:m*h:m*g:m*f:m*e:m*d:m*c:m*b:m*a:m"}}"#,
            END,
        ],
        &[
            HEAD,
            r#""n01":"http://example.org/t","n02":"u:1","n03":"u:2","n04":"u:3","n05":"u:4","#,
            r#""n06":"u:5","n07":"u:6","n08":"u:7","n09":"u:8","n10":"u:9""#,
            WRITTEN,
            r#"n01:A","unit":"n02:m*n03:m*n04:m*n05:m*n06:m*n07:m*n08:m*n09:m*n10:m"},"value":"1"}"#,
            END,
        ],
    ),
    // a hundred prefixes have three digits
    (NINETY_NINE, NINETY_NINE_WRITTEN),
];
