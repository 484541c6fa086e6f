//! The lines of all faults of a snapshot, and their JSON, by the rules.

use super::all_faults_rows::DAMAGED;
use super::faults::LARGE;
use super::shown::Shown;

/// A name, a snapshot, the list that is its stack where it isn't the walk, what stands in front of
/// each line, the lines, and the JSON.
pub(super) type Row = (
    &'static str,
    Shown,
    Option<&'static [u32]>,
    &'static str,
    &'static str,
    &'static str,
);

pub(super) const ROWS: &[Row] = &[
    (
        "of a lawful snapshot there is nothing",
        LARGE,
        None,
        "",
        "",
        "[]\n",
    ),
    (
        "each fault has its line, in order",
        DAMAGED,
        None,
        "",
        "fault 104 BadLength word 5, walk 3\n\
         fault 105 BadElem 20: at 1 in the cache of worker 2\n\
         fault 105 BadElem 99: at 0 in the cache of worker 2\n\
         fault 106 BadPacket: packet 2 0\n\
         fault 107 DoubleHeader element 4: segment 0 of packet 1 3, segment 0 of desk 0\n\
         fault 108 Doubled element 7: at 0 on the stack, at 1 in the cache of worker 1\n\
         fault 109 Lost element 2\n\
         fault 110 BadCount element 0: count 1, held 2\n\
         fault 110 BadCount element 4: count 1, held 2\n\
         fault 110 BadCount element 6: count 7, held 3\n",
        concat!(
            r#"[{"elem":null,"line":"fault 104 BadLength word 5, walk 3","name":"BadLength","number":104},"#,
            r#"{"elem":20,"line":"fault 105 BadElem 20: at 1 in the cache of worker 2","name":"BadElem","number":105},"#,
            r#"{"elem":99,"line":"fault 105 BadElem 99: at 0 in the cache of worker 2","name":"BadElem","number":105},"#,
            r#"{"elem":null,"line":"fault 106 BadPacket: packet 2 0","name":"BadPacket","number":106},"#,
            r#"{"elem":4,"line":"fault 107 DoubleHeader element 4: segment 0 of packet 1 3, segment 0 of desk 0","name":"DoubleHeader","number":107},"#,
            r#"{"elem":7,"line":"fault 108 Doubled element 7: at 0 on the stack, at 1 in the cache of worker 1","name":"Doubled","number":108},"#,
            r#"{"elem":2,"line":"fault 109 Lost element 2","name":"Lost","number":109},"#,
            r#"{"elem":0,"line":"fault 110 BadCount element 0: count 1, held 2","name":"BadCount","number":110},"#,
            r#"{"elem":4,"line":"fault 110 BadCount element 4: count 1, held 2","name":"BadCount","number":110},"#,
            r#"{"elem":6,"line":"fault 110 BadCount element 6: count 7, held 3","name":"BadCount","number":110}]"#,
            "\n",
        ),
    ),
    (
        "places on the stack are those of the list, and the front stands before each line",
        LARGE,
        Some(&[7, 3, 11, 7, 3, 7]),
        "second: ",
        "second: fault 108 Doubled element 3: at 1 on the stack, at 4 on the stack\n\
         second: fault 108 Doubled element 7: at 0 on the stack, at 3 on the stack\n",
        concat!(
            r#"[{"elem":3,"line":"fault 108 Doubled element 3: at 1 on the stack, at 4 on the stack","name":"Doubled","number":108},"#,
            r#"{"elem":7,"line":"fault 108 Doubled element 7: at 0 on the stack, at 3 on the stack","name":"Doubled","number":108}]"#,
            "\n",
        ),
    ),
];
