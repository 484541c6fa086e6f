//! Texts of snapshots with one part damaged. In what is put in place of a part, `^` marks the byte
//! that the fault names; it isn't in the text itself.

use super::Row;

/// A lawful pool with its stack as words: elements 2 and 3 are on the stack, 4 in the cache of
/// worker 2; element 1 of worker 2 uses the buffer of element 0, and a guest does too.
pub(super) const WORDS: &str =
    "{\"limits\":{\"population\":5,\"cache\":2,\"workers\":2,\"desks\":1,\"buf\":2048,\"refs\":7,\
    \"tries\":100,\"start\":0,\"putrule\":0},\"top\":3,\"length\":2,\"links\":[0,9,4,0,0]\
    ,\"counts\":[3,1,1,1,1],\"desks\":[null],\"shares\":[{\"worker\":1,\"cache\":[],\
    \"slots\":[[{\"elem\":0,\
    \"base\":null,\"off\":128,\"len\":100,\"buf\":2048}],null]},{\"worker\":2,\"cache\":[4]\
    ,\"slots\":[null,[{\"elem\":1,\"base\":0,\"off\":128,\"len\":100,\"buf\":2048}]]}],\
    \"guests\":[{\"worker\":1,\
    \"elem\":0}],\"foreign\":false}";

/// The same pool with its stack as a list, and its members in another order, with space between.
pub(super) const LIST: &str =
    " { \"foreign\" : false,\n\t\"common\":[2 , 3], \"guests\":[{\"elem\":0,\"worker\":1}]\
    ,\r\n\"counts\":[3,1,1,1,1],\"limits\":{\"cache\":2,\"population\":5,\"workers\":2,\"desks\":1,\
    \"buf\":2048,\"refs\":7,\"tries\":100,\"start\":0,\"putrule\":0},\"desks\":[null],\
    \"shares\":[{\"worker\":1,\
    \"slots\":[[{\"elem\":0,\"len\":100,\"base\":null,\"off\":128,\"buf\":2048}],null],\"cache\":[]\
    },{\"worker\":2,\"c\\u0061che\":[4],\"slots\":[null,[{\"elem\":1,\"base\":0,\"off\":128,\
    \"len\":100,\"buf\":2048}]]}]} ";

/// The same with its members in the order in which a dump writes them.
pub(super) const DUMPED: &str =
    "{\"limits\":{\"population\":5,\"cache\":2,\"workers\":2,\"desks\":1,\"buf\":2048,\"refs\":7,\
    \"tries\":100,\"start\":0,\"putrule\":0},\n\"common\":[2,3],\n\"counts\":[3,1,1,1,1],\n\
    \"desks\":[null],\n\"shares\":[{\"worker\":1,\"cache\":[],\"slots\":[\n\
    [{\"elem\":0,\"base\":null,\"off\":128,\"len\":100,\"buf\":2048}],null]},\n{\"worker\":2,\
    \"cache\":[4],\"slots\":[null,[{\"elem\":1,\"base\":0,\"off\":128,\"len\":100,\
    \"buf\":2048}]]}],\n\"guests\":[{\"worker\":1,\"elem\":0}],\n\"foreign\":false}\n";

/// Of that text: what is replaced, by what, and the fault.
pub(super) const OF_DUMPED: &[Row] = &[
    (
        "a number with a fraction",
        "\"off\":128",
        "\"off\":^128.0",
        "snapshot shares[0].slots[0][0].off: not a whole number",
    ),
    (
        "a number out of its range",
        "\"len\":100",
        "\"len\":^65536",
        "snapshot shares[0].slots[0][0].len: out of 0 to 65535",
    ),
    (
        "a put rule that is none",
        "\"putrule\":0",
        "\"putrule\":^2",
        "snapshot limits.putrule: out of 0 to 1",
    ),
    (
        "a member more at the end of a share",
        "null]},",
        "null],^\"colour\":1},",
        "snapshot shares[0]: unknown member colour",
    ),
    (
        "a text for a flag",
        "\"foreign\":false}",
        "\"foreign\":^\"false\"}",
        "snapshot foreign: not true or false",
    ),
    (
        "an element twice",
        "[2,3]",
        "[2,2]",
        "fault 108 Doubled element 2: at 0 on the stack, at 1 on the stack",
    ),
    (
        "an element of no pool",
        "[2,3]",
        "[2,^5]",
        "snapshot common[1]: not below the population, 5",
    ),
    (
        "a second value",
        "\"foreign\":false}",
        "\"foreign\":false}^{}",
        "snapshot: not JSON",
    ),
];

/// Of the text with words: what is replaced, by what, and the fault.
pub(super) const OF_WORDS: &[Row] = &[
    (
        "a cut text",
        "\"foreign\":false}",
        "\"foreign\":^fal",
        "snapshot: not JSON",
    ),
    (
        "two values",
        "\"foreign\":false}",
        "\"foreign\":false}^{}",
        "snapshot: not JSON",
    ),
    (
        "a number with a leading 0",
        "\"top\":3",
        "\"top\":^03",
        "snapshot: not JSON",
    ),
    (
        "no top",
        "\"top\":3,",
        "",
        "snapshot top: missing, at byte 0",
    ),
    (
        "no limits' cache",
        "{\"population\":5,\"cache\":2,",
        "^{\"population\":5,",
        "snapshot limits.cache: missing",
    ),
    (
        "no counts",
        "\"counts\":[3,1,1,1,1],",
        "",
        "snapshot counts: missing, at byte 0",
    ),
    (
        "no guest's worker",
        "{\"worker\":1,\"elem\":0}",
        "^{\"elem\":0}",
        "snapshot guests[0].worker: missing",
    ),
    (
        "no segment's base",
        "{\"elem\":1,\"base\":0,",
        "^{\"elem\":1,",
        "snapshot shares[1].slots[1][0].base: missing",
    ),
    (
        "another member",
        "\"top\":3",
        "^\"colour\":3,\"top\":3",
        "snapshot: unknown member colour",
    ),
    (
        "another member of a share",
        "\"cache\":[4]",
        "^\"caches\":[4]",
        "snapshot shares[1]: unknown member caches",
    ),
    (
        "a list beside the words",
        "\"top\":3",
        "^\"top\":3,\"common\":[2,3]",
        "snapshot: unknown member top",
    ),
    (
        "the top twice",
        "\"length\":2",
        "^\"top\":3,\"length\":2",
        "snapshot top: twice",
    ),
    (
        "the cache twice, once with an escape",
        "\"tries\":100",
        "^\"c\\u0061che\":2,\"tries\":100",
        "snapshot limits.cache: twice",
    ),
    (
        "a segment's base twice",
        "\"base\":0,",
        "\"base\":1,^\"base\":0,",
        "snapshot shares[1].slots[1][0].base: twice",
    ),
    (
        "limits that are a list",
        "{\"population\":5,\"cache\":2,\"workers\":2,\"desks\":1,\"buf\":2048,\"refs\":7,\
        \"tries\":100,\"start\":0,\"putrule\":0}",
        "^[]",
        "snapshot limits: not an object",
    ),
    (
        "a share that is null",
        "{\"worker\":1,\"cache\":[],\"slots\":[[{\"elem\":0,\"base\":null,\"off\":128,\"len\":100,\
        \"buf\":2048}],null]}",
        "^null",
        "snapshot shares[0]: not an object",
    ),
    (
        "counts that are an object",
        "[3,1,1,1,1]",
        "^{}",
        "snapshot counts: not a list",
    ),
    (
        "a cache that is null",
        "\"cache\":[4]",
        "\"cache\":^null",
        "snapshot shares[1].cache: not a list",
    ),
    (
        "a place that is an object",
        "\"desks\":[null]",
        "\"desks\":[^{}]",
        "snapshot desks[0]: not a list or null",
    ),
    (
        "a place that is false",
        "\"slots\":[null,",
        "\"slots\":[ ^false,",
        "snapshot shares[1].slots[0]: not a list or null",
    ),
    (
        "a text for a number",
        "[3,1,1,1,1]",
        "[3,1,^\"1\",1,1]",
        "snapshot counts[2]: not a whole number",
    ),
    (
        "null for a number",
        "\"top\":3",
        "\"top\":^null",
        "snapshot top: not a whole number",
    ),
    (
        "a fraction",
        "\"top\":3",
        "\"top\":^3.0",
        "snapshot top: not a whole number",
    ),
    (
        "an exponent",
        "\"cache\":2",
        "\"cache\":^2e0",
        "snapshot limits.cache: not a whole number",
    ),
    (
        "a base that is true",
        "\"base\":null",
        "\"base\":^true",
        "snapshot shares[0].slots[0][0].base: not a whole number or null",
    ),
    (
        "a base below 0",
        "\"base\":null",
        "\"base\": ^-1",
        "snapshot shares[0].slots[0][0].base: out of 0 to 4294967295",
    ),
    (
        "a base of a fraction",
        "\"base\":null",
        "\"base\":^0.5",
        "snapshot shares[0].slots[0][0].base: not a whole number",
    ),
    (
        "a flag that is 0",
        "\"foreign\":false",
        "\"foreign\":^0",
        "snapshot foreign: not true or false",
    ),
    (
        "a flag that is null",
        "\"foreign\":false",
        "\"foreign\":^null",
        "snapshot foreign: not true or false",
    ),
    (
        "a worker above its bits",
        "{\"worker\":1,\"cache\"",
        "{\"worker\":^4294967296,\"cache\"",
        "snapshot shares[0].worker: out of 0 to 4294967295",
    ),
    (
        "a count below 0",
        "[3,1,1,1,1]",
        "[3,1,1,1,^-1]",
        "snapshot counts[4]: out of 0 to 4294967295",
    ),
    (
        "a negative 0",
        "[0,9,4,0,0]",
        "[^-0,9,4,0,0]",
        "snapshot links[0]: out of 0 to 4294967295",
    ),
    (
        "a length above its bits",
        "\"length\":2",
        "\"length\":^18446744073709551616",
        "snapshot length: out of 0 to 18446744073709551615",
    ),
    (
        "a length far above them",
        "\"length\":2",
        "\"length\":^99999999999999999999999999999999999999999",
        "snapshot length: out of 0 to 18446744073709551615",
    ),
    (
        "a segment's length above its bits",
        "\"len\":100,\"buf\":2048}]]}",
        "\"len\":^65536,\"buf\":2048}]]}",
        "snapshot shares[1].slots[1][0].len: out of 0 to 65535",
    ),
    (
        "no rule of puts",
        "\"putrule\":0",
        "\"putrule\":^2",
        "snapshot limits.putrule: out of 0 to 1",
    ),
    (
        "tries above their bits",
        "\"tries\":100",
        "\"tries\":^18446744073709551616",
        "snapshot limits.tries: out of 0 to 18446744073709551615",
    ),
];

/// Of the text with a list.
pub(super) const OF_LIST: &[Row] = &[
    (
        "no limits",
        "\"limits\":{\"cache\":2,\"population\":5,\"workers\":2,\"desks\":1,\"buf\":2048,\
        \"refs\":7,\"tries\":100,\"start\":0,\"putrule\":0},",
        "",
        "snapshot limits: missing, at byte 1",
    ),
    (
        "an element of no pool",
        "[2 , 3]",
        "[2 , ^5]",
        "snapshot common[1]: not below the population, 5",
    ),
    (
        "an element above its bits",
        "[2 , 3]",
        "[2 , 3,^4294967296]",
        "snapshot common[2]: out of 0 to 4294967295",
    ),
    (
        "a text for an element",
        "[2 , 3]",
        "[^\"2\" , 3]",
        "snapshot common[0]: not a whole number",
    ),
    (
        "a list that is a number",
        "[2 , 3]",
        "^2",
        "snapshot common: not a list",
    ),
    (
        "a population with no links",
        "\"population\":5",
        "\"population\":^16777215",
        "snapshot limits.population: out of 0 to 16777214",
    ),
    (
        "a length beside the list",
        "\"counts\"",
        "^\"length\":2,\"counts\"",
        "snapshot: unknown member length",
    ),
    (
        "an element twice",
        "[2 , 3]",
        "[2 , 3,2]",
        "fault 108 Doubled element 2: at 0 on the stack, at 2 on the stack",
    ),
    (
        "two elements twice, the lesser last",
        "[2 , 3]",
        "[3,1,4,3,1]",
        "fault 108 Doubled element 1: at 1 on the stack, at 4 on the stack",
    ),
    (
        "two elements twice, the lesser first",
        "[2 , 3]",
        "[0,0,4,3,4,0]",
        "fault 108 Doubled element 0: at 0 on the stack, at 1 on the stack",
    ),
];

/// Whole texts, and their faults.
pub(super) const WHOLE: &[(&[u8], &str)] = &[
    (b"", "snapshot: not JSON, at byte 0"),
    (b"{", "snapshot: not JSON, at byte 1"),
    (b"[]", "snapshot: not an object, at byte 0"),
    (b" \n null", "snapshot: not an object, at byte 3"),
    (b"3", "snapshot: not an object, at byte 0"),
    (b"{} ", "snapshot counts: missing, at byte 0"),
    (b"{\"top\":\"\xff\"}", "snapshot: not JSON, at byte 8"),
    (b"{\"common\":[]}", "snapshot counts: missing, at byte 0"),
];
