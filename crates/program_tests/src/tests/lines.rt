//! Command lines, and what each comes to: what it prints, or the line of its failure.
use super::files::TABLES;
use super::{assert_told, same, told};
use script_rows::twins::FOREIGN_CLONE_END;
use std::test::Fail;

/// What is printed of the first run's replay.
pub(super) const FIRST_RUN_TEXT: &str = "2: ok 0\n3: ok 1\n4: ok back 1 flushed 1\n\
    population 3\navailable 2\nin use 1\ncommon 2: 0 2\ncache 1 0:\n\
    packet 1 1 segs 1 len 0: 1@128+0/2048\nheld 1 count 1: 1\n";

/// What is printed of its run.
pub(super) const FIRST_RUN_STATEMENT: &str =
    "population 3\navailable 2\nin use 1\ncommon 2: 0 2\ncache 1 0:\n\
    packet 1 1 segs 1 len 0: 1@128+0/2048\nheld 1 count 1: 1\n";

/// The first run's snapshot; all slots but one are free.
pub(super) const FIRST_RUN_LEFT: &str =
    "{\"counts\":[1,1,1],\"desks\":[],\"foreign\":false,\"guests\":[],\
    \"length\":2,\"limits\":{\"buf\":2048,\"cache\":0,\"desks\":0,\"population\":3,\"putrule\":0,\
    \"refs\":65535,\"start\":0,\"tries\":64,\"workers\":1},\"links\":[3,0,0],\
    \"shares\":[{\"cache\":[],\"slots\":[null,\
    [{\"base\":null,\"buf\":2048,\"elem\":1,\"len\":0,\"off\":128}]\
    ,null,null,null,null,null,null,null,null,null,null,null,null,null,null,null,null,null,null\
    ,null,null,null,null,null,null,null,null,null,null,null,null,null,null,null,null,null,null\
    ,null,null,null,null,null,null,null,null,null,null,null,null,null,null,null,null,null,null\
    ,null,null,null,null,null,null,null,null,null,null,null,null,null,null,null,null,null,null\
    ,null,null,null,null,null,null,null,null,null,null,null,null,null,null,null,null,null,null\
    ,null,null,null,null,null,null,null,null,null,null,null,null,null,null,null,null,null,null\
    ,null,null,null,null,null,null,null,null,null,null,null,null,null,null,null,null,null,null\
    ,null,null,null,null,null,null,null,null,null,null,null,null,null,null,null,null,null,null\
    ,null,null,null,null,null,null,null,null,null,null,null,null,null,null,null,null,null,null\
    ,null,null,null,null,null,null,null,null,null,null,null,null,null,null,null,null,null,null\
    ,null,null,null,null,null,null,null,null,null,null,null,null,null,null,null,null,null,null\
    ,null,null,null,null,null,null,null,null,null,null,null,null,null,null,null,null,null,null\
    ,null,null,null,null,null,null,null,null,null,null,null,null,null,null,null,null,null,null\
    ,null,null,null,null,null,null,null,null,null,null,null,null,null,null,null,null,null,null\
    ,null,null\
    ],\"worker\":1}],\"top\":1}\n";

/// A script of steps.
pub(super) const STEPS: &str = "pool 1\nloadlength\ncut\n";

/// What is printed of these steps.
pub(super) const STEPS_TEXT: &str = "2: value 1\n3: refused 21 StepRefused\n\
    head 0 0\nlength 1\ncommon 1: 0\nview 1 credit 0\nhand 1 0:\nholds 1 0:\n";

/// Command lines, a line each, and what each of them prints.
static PRINTED: &[(&str, &str)] = &[
    (
        "mbufpool replay first\n\
        mbufpool replay first --explain",
        FIRST_RUN_TEXT,
    ),
    // A run of one worker is its replay without the replies, whatever its pool rests on.
    (
        "mbufpool run first --turns 1\n\
        mbufpool run first --turns 1 --ground locked",
        FIRST_RUN_STATEMENT,
    ),
    (
        "mbufpool replay first --json\n\
        mbufpool run first --turns 1 --json\n\
        mbufpool run first --turns 1 --ground locked --json",
        "{\"available\":2,\"caches\":[[]],\"common\":[0,2],\"desks\":[],\
        \"held\":[{\"count\":1,\"elem\":1,\"holders\":[\"1\"]}],\"in_use\":1,\
        \"packets\":[{\"segs\":[{\"base\":null,\"buf\":2048,\"elem\":1,\"len\":0,\"off\":128}],\
        \"slot\":1,\"worker\":1}],\"population\":3}\n",
    ),
    ("mbufpool replay first --snapshot", FIRST_RUN_LEFT),
    // What is lost with a worker, whatever its pool rests on.
    (
        "mbufpool run eight --turns 1 --lose 2\n\
        mbufpool run eight --turns 1 --lose 2 --ground locked",
        "lost 5: 0 1 2 3 4\n",
    ),
    (
        "mbufpool run eight --turns 1 --lose 2 --json\n\
        mbufpool run eight --turns 1 --lose 2 --json --ground locked",
        "[0,1,2,3,4]\n",
    ),
    (
        "mbufpool run eight --turns 1 --lose 1\n\
        mbufpool run eight --turns 1 --lose 1 --ground locked",
        "lost 0:\n",
    ),
    (
        "mbufpool run eight --turns 1 --lose 1 --json\n\
        mbufpool run eight --turns 1 --lose 1 --json --ground locked",
        "[]\n",
    ),
    // A worker who waits for itself is refused in the end.
    (
        "mbufpool run waits --turns 1\n\
        mbufpool run waits --turns 2\n\
        mbufpool run waits --turns 7\n\
        mbufpool run waits --turns 1 --ground locked\n\
        mbufpool run waits --turns 2 --ground locked\n\
        mbufpool run waits --turns 7 --ground locked",
        "population 3\navailable 0\nin use 3\ncommon 0:\ncache 1 0:\n\
        packet 1 0 segs 1 len 0: 1@128+0/2048\npacket 1 1 segs 1 len 0: 2@128+0/2048\n\
        desk 0 segs 1 len 0: 0@128+0/2048\n\
        held 0 count 1: d0\nheld 1 count 1: 1\nheld 2 count 1: 1\n",
    ),
    (
        "mbufpool run waits --turns 1 --lose 1\n\
        mbufpool run waits --turns 2 --lose 1\n\
        mbufpool run waits --turns 7 --lose 1\n\
        mbufpool run waits --turns 1 --lose 1 --ground locked\n\
        mbufpool run waits --turns 2 --lose 1 --ground locked\n\
        mbufpool run waits --turns 7 --lose 1 --ground locked",
        "lost 2: 1 2\n",
    ),
    // Two workers who wait for each other are refused in the end.
    (
        "mbufpool run crossed --turns 1\n\
        mbufpool run crossed --turns 2\n\
        mbufpool run crossed --turns 7\n\
        mbufpool run crossed --turns 1 --ground locked\n\
        mbufpool run crossed --turns 2 --ground locked\n\
        mbufpool run crossed --turns 7 --ground locked",
        "population 3\navailable 1\nin use 2\ncommon 1: 2\ncache 1 0:\ncache 2 0:\n\
        packet 2 0 segs 1 len 0: 0@128+0/2048\npacket 2 1 segs 1 len 0: 1@128+0/2048\n\
        held 0 count 1: 2\nheld 1 count 1: 2\n",
    ),
    (
        "mbufpool run crossed --turns 1 --lose 2\n\
        mbufpool run crossed --turns 2 --lose 2\n\
        mbufpool run crossed --turns 7 --lose 2\n\
        mbufpool run crossed --turns 1 --lose 2 --ground locked\n\
        mbufpool run crossed --turns 2 --lose 2 --ground locked\n\
        mbufpool run crossed --turns 7 --lose 2 --ground locked",
        "lost 2: 0 1\n",
    ),
    ("mbufpool steps steps", STEPS_TEXT),
    // A healthy snapshot.
    (
        "mbufpool audit healthy\n\
        mbufpool audit in-words",
        "population 8\navailable 5\nin use 3\ncommon 4: 3 2 1 0\ncache 1 1: 4\n\
        cache 2 0:\npacket 2 1 segs 2 len 10: 5@128+9/2048 6@0+1/2048\n\
        desk 0 segs 1 len 0: 7@128+0/2048\n\
        held 5 count 1: 2\nheld 6 count 1: 2\nheld 7 count 1: d0\n",
    ),
    (
        "mbufpool audit healthy --json",
        "{\"available\":5,\"caches\":[[4],[]],\"common\":[3,2,1,0],\
        \"desks\":[{\"desk\":0,\"segs\":[{\"base\":null,\"buf\":2048,\"elem\":7,\"len\":0,\"off\":128}]}],\
        \"held\":[{\"count\":1,\"elem\":5,\"holders\":[\"2\"]},{\"count\":1,\"elem\":6,\"holders\":[\"2\"]},\
        {\"count\":1,\"elem\":7,\"holders\":[\"d0\"]}],\"in_use\":3,\
        \"packets\":[{\"segs\":[{\"base\":null,\"buf\":2048,\"elem\":5,\"len\":9,\"off\":128},\
        {\"base\":null,\"buf\":2048,\"elem\":6,\"len\":1,\"off\":0}],\"slot\":1,\"worker\":2}],\
        \"population\":8}\n",
    ),
    (
        "mbufpool audit healthy --dot",
        "digraph pool {\n\
        \x20 rankdir=LR;\n\
        \x20 node [shape=box, fontname=\"monospace\"];\n\
        \x20 stack [label=\"stack: 4\\n3 2 1 0\"];\n\
        \x20 cache_1 [label=\"cache 1: 1\\n4\"];\n\
        \x20 cache_2 [label=\"cache 2: 0\"];\n\
        \x20 packet_2_1 [label=\"packet 2 1\"];\n\
        \x20 packet_2_1 -> e5;\n\
        \x20 packet_2_1 -> e6;\n\
        \x20 desk_0 [label=\"desk 0\"];\n\
        \x20 desk_0 -> e7;\n\
        \x20 e5 [shape=ellipse, label=\"5\\ncount 1\"];\n\
        \x20 e6 [shape=ellipse, label=\"6\\ncount 1\"];\n\
        \x20 e7 [shape=ellipse, label=\"7\\ncount 1\"];\n\
        }\n",
    ),
    // Two snapshots, as the pools of a script leave them.
    ("mbufpool audit twins", FOREIGN_CLONE_END),
    (
        "mbufpool audit one+two --json",
        "{\"first\":{\"available\":2,\"caches\":[[]],\"common\":[1,2],\"desks\":[],\
        \"held\":[{\"count\":1,\"elem\":0,\"holders\":[\"1\"]}],\"in_use\":1,\
        \"packets\":[{\"segs\":[{\"base\":null,\"buf\":2048,\"elem\":0,\"len\":0,\"off\":128}],\
        \"slot\":0,\"worker\":1}],\"population\":3},\
        \"second\":{\"available\":1,\"caches\":[[]],\"common\":[2],\"desks\":[],\
        \"held\":[{\"count\":1,\"elem\":0,\"holders\":[\"1\"]},{\"count\":1,\"elem\":1,\"holders\":[\"1\"]}],\
        \"in_use\":2,\
        \"packets\":[{\"segs\":[{\"base\":null,\"buf\":2048,\"elem\":0,\"len\":0,\"off\":128}],\"slot\":0,\"worker\":1},\
        {\"segs\":[{\"base\":null,\"buf\":2048,\"elem\":1,\"len\":0,\"off\":128}],\"slot\":1,\"worker\":1}],\
        \"population\":3}}\n",
    ),
    // The statement and what stays.
    (
        "mbufpool audit two --since one",
        "population 3\navailable 1\nin use 2\ncommon 1: 2\ncache 1 0:\n\
        packet 1 0 segs 1 len 0: 0@128+0/2048\npacket 1 1 segs 1 len 0: 1@128+0/2048\n\
        held 0 count 1: 1\nheld 1 count 1: 1\nstays 0: packet 1 0 segs 1: 0\n",
    ),
    (
        "mbufpool audit two --since one --json",
        "{\"statement\":{\"available\":1,\"caches\":[[]],\"common\":[2],\"desks\":[],\
        \"held\":[{\"count\":1,\"elem\":0,\"holders\":[\"1\"]},{\"count\":1,\"elem\":1,\"holders\":[\"1\"]}],\
        \"in_use\":2,\
        \"packets\":[{\"segs\":[{\"base\":null,\"buf\":2048,\"elem\":0,\"len\":0,\"off\":128}],\"slot\":0,\"worker\":1},\
        {\"segs\":[{\"base\":null,\"buf\":2048,\"elem\":1,\"len\":0,\"off\":128}],\"slot\":1,\"worker\":1}],\
        \"population\":3},\
        \"stays\":[{\"elem\":0,\"segs\":[{\"base\":null,\"elem\":0}],\"slot\":0,\"worker\":1}]}\n",
    ),
];

#[test]
fn a_command_line_has_its_print_on_the_output(rt: HostRuntime) -> Result<(), Fail> {
    for (lines, print) in PRINTED {
        assert_told(&rt, &TABLES, lines, (print, "", 0))?;
    }
    Ok(())
}

/// Command lines, a line each, and what each of them prints of all faults; some are told.
static LISTED: &[(&str, &str)] = &[
    (
        "mbufpool audit healthy --all\n\
        mbufpool audit in-words --all\n\
        mbufpool audit healthy+in-words --all\n\
        mbufpool audit twins --all",
        "0 faults\n",
    ),
    ("mbufpool audit healthy --all --json", "[]\n"),
    (
        "mbufpool audit healthy+healthy --all --json",
        "{\"first\":[],\"second\":[]}\n",
    ),
    (
        "mbufpool audit lost --all",
        "fault 109 Lost element 7\n1 fault\n",
    ),
    (
        "mbufpool audit three --all",
        "fault 108 Doubled element 1: at 2 on the stack, at 1 in the cache of worker 1\n\
        fault 108 Doubled element 3: at 0 on the stack, at 0 in the cache of worker 2\n\
        fault 109 Lost element 7\n3 faults\n",
    ),
    (
        "mbufpool audit three --all --json",
        "[{\"elem\":1,\"line\":\"fault 108 Doubled element 1: at 2 on the stack, \
        at 1 in the cache of worker 1\",\"name\":\"Doubled\",\"number\":108},\
        {\"elem\":3,\"line\":\"fault 108 Doubled element 3: at 0 on the stack, \
        at 0 in the cache of worker 2\",\"name\":\"Doubled\",\"number\":108},\
        {\"elem\":7,\"line\":\"fault 109 Lost element 7\",\"name\":\"Lost\",\"number\":109}]\n",
    ),
    // A list that has elements twice is the stack as it stands.
    (
        "mbufpool audit repeats --all",
        "fault 108 Doubled element 2: at 1 on the stack, at 3 on the stack\n\
        fault 108 Doubled element 3: at 0 on the stack, at 5 on the stack\n2 faults\n",
    ),
    // Of two snapshots in one file, those of the first come first.
    (
        "mbufpool audit repeats+three --all",
        "first: fault 108 Doubled element 2: at 1 on the stack, at 3 on the stack\n\
        first: fault 108 Doubled element 3: at 0 on the stack, at 5 on the stack\n\
        second: fault 108 Doubled element 1: at 2 on the stack, at 1 in the cache of worker 1\n\
        second: fault 108 Doubled element 3: at 0 on the stack, at 0 in the cache of worker 2\n\
        second: fault 109 Lost element 7\n5 faults\n",
    ),
    (
        "mbufpool audit lost+healthy --all --json",
        "{\"first\":[{\"elem\":7,\"line\":\"fault 109 Lost element 7\",\"name\":\"Lost\",\
        \"number\":109}],\"second\":[]}\n",
    ),
];

/// Where a fault is told the status is 1, though all is printed.
#[test]
fn all_faults_are_printed_and_counted(rt: HostRuntime) -> Result<(), Fail> {
    for (lines, print) in LISTED {
        let status = u8::from(print.contains("fault 1"));
        assert_told(&rt, &TABLES, lines, (print, "", status))?;
    }
    Ok(())
}

/// Command lines, a line each, and the line that tells of the failure of each of them.
static FAILED: &[(&str, &str)] = &[
    // A fault of the script comes before a worker that isn't there.
    (
        "mbufpool replay pull\n\
        mbufpool replay pull --json\n\
        mbufpool replay pull --snapshot\n\
        mbufpool run pull --turns 1 --json\n\
        mbufpool run pull --turns 1 --json --ground locked\n\
        mbufpool run pull --turns 1 --lose 3\n\
        mbufpool run pull --turns 1 --lose 3 --ground locked",
        "fault 20 ScriptFault line 1\n",
    ),
    (
        "mbufpool run nothing --turns 1\n\
        mbufpool run nothing --turns 1 --ground locked\n\
        mbufpool steps nothing",
        "fault 1 BadPool\n",
    ),
    (
        "mbufpool run eight --turns 1 --lose 3\n\
        mbufpool run eight --turns 1 --lose 3 --ground locked\n\
        mbufpool run eight --turns 1 --lose 0 --json\n\
        mbufpool run eight --turns 1 --lose 0 --json --ground locked",
        "fault 19 StrangerShare\n",
    ),
    (
        "mbufpool steps cuts\n\
        mbufpool steps allocs",
        "fault 20 ScriptFault line 2\n",
    ),
    // A fault that is to be explained has a second line; what is no fault of the script has none.
    (
        "mbufpool replay pull --explain\n\
        mbufpool replay --explain pull --json\n\
        mbufpool replay pull --snapshot --explain\n\
        mbufpool run pull --turns 1 --explain\n\
        mbufpool run pull --turns 1 --lose 3 --explain --ground locked\n\
        mbufpool steps pull --explain",
        "fault 20 ScriptFault line 1\n\
        line 1, column 1: 'pull' stands before the pool line: write 'pool N' first\n",
    ),
    (
        "mbufpool replay cuts --explain\n\
        mbufpool run cuts --turns 1 --json --explain",
        "fault 20 ScriptFault line 2\nline 2, column 1: unknown command 'cuts'\n",
    ),
    (
        "mbufpool steps allocs --explain",
        "fault 20 ScriptFault line 2\nline 2, column 1: unknown step 'alloc'\n",
    ),
    (
        "mbufpool replay nothing --explain\n\
        mbufpool run nothing --turns 1 --snapshot --explain\n\
        mbufpool steps nothing --explain",
        "fault 1 BadPool\nline 1, column 6: pool 0 is below 1\n",
    ),
    (
        "mbufpool run eight --turns 1 --lose 3 --explain",
        "fault 19 StrangerShare\n",
    ),
    ("mbufpool replay none --explain", "cannot read none\n"),
    // A device that fails is a file that can't be read, whatever the error, and memory is told as
    // that.
    (
        "mbufpool replay a.script\n\
        mbufpool replay a.script --json\n\
        mbufpool steps a.script\n\
        mbufpool audit a.script",
        "cannot read a.script\n",
    ),
    (
        "mbufpool replay out-of-memory\n\
        mbufpool replay out-of-memory --json\n\
        mbufpool steps out-of-memory\n\
        mbufpool audit out-of-memory",
        "cannot read out-of-memory\n",
    ),
    (
        "mbufpool replay timed-out\n\
        mbufpool replay timed-out --json\n\
        mbufpool steps timed-out\n\
        mbufpool audit timed-out",
        "cannot read timed-out\n",
    ),
    (
        "mbufpool replay cut-off\n\
        mbufpool replay cut-off --json\n\
        mbufpool steps cut-off\n\
        mbufpool audit cut-off",
        "cannot read cut-off\n",
    ),
    (
        "mbufpool replay broken\n\
        mbufpool replay broken --json\n\
        mbufpool steps broken\n\
        mbufpool audit broken",
        "cannot read broken\n",
    ),
    (
        "mbufpool replay memory\n\
        mbufpool replay memory --json\n\
        mbufpool steps memory\n\
        mbufpool audit memory\n\
        mbufpool audit memory --all\n\
        mbufpool audit memory --since healthy\n\
        mbufpool audit healthy --since memory",
        "fault 2 OutOfMemory\n",
    ),
    (
        "mbufpool audit none --since healthy\n\
        mbufpool audit healthy --since none\n\
        mbufpool audit none --since other",
        "cannot read none\n",
    ),
    // What is no snapshot of a pool is told of the newer one, or as the older one's.
    (
        "mbufpool audit open --since healthy --json\n\
        mbufpool audit open --since no-pool --json",
        "snapshot: not JSON, at byte 1\n",
    ),
    (
        "mbufpool audit healthy --since open --json",
        "since: snapshot: not JSON, at byte 1\n",
    ),
    (
        "mbufpool audit no-pool --since healthy --json\n\
        mbufpool audit no-pool --since open --json",
        "fault 1 BadPool\n",
    ),
    (
        "mbufpool audit healthy --since no-pool --json",
        "since: fault 1 BadPool\n",
    ),
    // Of two snapshots in one file, the failure of the first and else that of the second.
    (
        "mbufpool audit lost+healthy\n\
        mbufpool audit lost+no-pool --json\n\
        mbufpool audit lost+lost",
        "first: fault 109 Lost element 7\n",
    ),
    (
        "mbufpool audit healthy+lost\n\
        mbufpool audit healthy+lost --json",
        "second: fault 109 Lost element 7\n",
    ),
    ("mbufpool audit no-pool+lost", "first: fault 1 BadPool\n"),
    (
        "mbufpool audit healthy+no-pool",
        "second: fault 1 BadPool\n",
    ),
    (
        "mbufpool audit healthy+object",
        "second: snapshot counts: missing, at byte 0\n",
    ),
    (
        "mbufpool audit object+lost",
        "first: snapshot counts: missing, at byte 0\n",
    ),
    (
        "mbufpool audit repeats\n\
        mbufpool audit repeats --dot\n\
        mbufpool audit repeats --since healthy",
        "fault 108 Doubled element 2: at 1 on the stack, at 3 on the stack\n",
    ),
    // What has no faults to be told of.
    (
        "mbufpool audit open --all\n\
        mbufpool audit open --all --json",
        "snapshot: not JSON, at byte 1\n",
    ),
    ("mbufpool audit no-pool --all --json", "fault 1 BadPool\n"),
    (
        "mbufpool audit object+no-pool --all",
        "first: snapshot counts: missing, at byte 0\n",
    ),
    (
        "mbufpool audit lost+no-pool --all",
        "second: fault 1 BadPool\n",
    ),
    // A second one begins with `{`.
    (
        "mbufpool audit object+open",
        "snapshot: not JSON, at byte 3\n",
    ),
    // The first limit that differs.
    (
        "mbufpool audit 32 --since 64",
        "limits differ: population 32 and 64\n",
    ),
    (
        "mbufpool audit cache-2 --since 32",
        "limits differ: cache 2 and 0\n",
    ),
    (
        "mbufpool audit 32 --since desks-3",
        "limits differ: desks 0 and 3\n",
    ),
    (
        "mbufpool audit buf-100 --since buf-99",
        "limits differ: buf 100 and 99\n",
    ),
    (
        "mbufpool audit refs-5 --since refs-65535",
        "limits differ: refs 5 and 65535\n",
    ),
    (
        "mbufpool audit tries-1 --since tries-2",
        "limits differ: tries 1 and 2\n",
    ),
    (
        "mbufpool audit start-7 --since 32",
        "limits differ: start 7 and 0\n",
    ),
    (
        "mbufpool audit putrule-1 --since 32",
        "limits differ: putrule 1 and 0\n",
    ),
    (
        "mbufpool audit cache-2-refs-5 --since refs-4",
        "limits differ: cache 2 and 0\n",
    ),
];

#[test]
fn a_failure_has_its_line_on_the_errors(rt: HostRuntime) -> Result<(), Fail> {
    for (lines, failure) in FAILED {
        assert_told(&rt, &TABLES, lines, ("", failure, 1))?;
    }
    Ok(())
}

/// Audits of what is no snapshot, and how the line of each begins.
static MISREAD: &[(&str, &str)] = &[
    ("mbufpool audit empty", "snapshot: not JSON, at byte "),
    ("mbufpool audit cut", "snapshot: not JSON, at byte "),
    ("mbufpool audit list", "snapshot"),
    ("mbufpool audit object", "snapshot"),
];

#[test]
fn what_is_no_snapshot_is_told_in_one_line(rt: HostRuntime) -> Result<(), Fail> {
    for (line, begin) in MISREAD {
        let (output, errors, status) = told(&rt, &TABLES, line, usize::MAX)?;
        let given = (
            output.is_empty(),
            errors.starts_with(*begin),
            errors.matches('\n').count(),
            status,
        );
        same(&rt, &given, &(true, true, 1, 1), line);
    }
    Ok(())
}
