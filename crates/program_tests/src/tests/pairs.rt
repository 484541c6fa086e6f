//! Snapshots with a fault, and those that scripts leave: audits of one, and of two of one pool.
use super::files::{FIRST_RUN, Files, TABLES};
use super::lines::FIRST_RUN_STATEMENT;
use super::{assert_told, same, told};
use commons::refusal::Refusal;
use script_rows::twins::{FOREIGN_CLONE, FOREIGN_CLONE_END};
use snapshot_rows::{FAULTS, LIMITS, written};
use std::alloc::Global;
use std::sync::Wait;
use std::test::Fail;
use std::thread::Threads;
use tasks::failures::{Failure, PairFailure};
use tasks::printed_pair;
use tasks::task::{Form, Pair};

#[test]
fn a_snapshot_has_the_line_of_its_first_fault(rt: HostRuntime) -> Result<(), Fail> {
    for row in FAULTS {
        let faulty = written(rt.alloc(), LIMITS, &row.members)?;
        let files = Files {
            scripts: &[],
            snapshots: &[("faulty", faulty.as_str())],
        };
        let line = format!(in rt.alloc(); "{}\n", row.line)?;
        let of_newer = "mbufpool audit faulty\n\
            mbufpool audit faulty --since healthy\n\
            mbufpool audit faulty --since object";
        assert_told(&rt, &files, of_newer, ("", line.as_str(), 1))?;
        let (all, errors, status) = told(&rt, &files, "mbufpool audit faulty --all", usize::MAX)?;
        let given = (all.starts_with(line.as_str()), errors.as_str(), status);
        same(&rt, &given, &(true, "", 1), row.line);
        let since = format!(in rt.alloc(); "since: {line}")?;
        let of_older = "mbufpool audit healthy --since faulty";
        assert_told(&rt, &files, of_older, ("", since.as_str(), 1))?;
    }
    Ok(())
}

/// A pool with packets of a worker, one of them with a clone, of another worker, and on a desk.
const BEGUN: &str = "pool 12 workers 2 desks 2\nalloc a\nalloc b\nalloc c\nchain a c\nalloc d\n\
    clone d e\n2: alloc f\nalloc g\noffer g 1\n";

const ALL_STAY: &str = "stays 0: packet 1 0 segs 2: 0 2\nstays 1: packet 1 1 segs 1: 1\n\
    stays 3: packet 1 2 segs 1: 3\nstays 4: packet 1 3 segs 1: 4>3\nstays 5: packet 2 0 segs 1: 5\n\
    stays 6: desk 1 segs 1: 6\n";

const ALL_STAY_DATA: &str =
    "[{\"elem\":0,\"segs\":[{\"base\":null,\"elem\":0},{\"base\":null,\"elem\":2}],\"slot\":0,\"worker\":1},\
    {\"elem\":1,\"segs\":[{\"base\":null,\"elem\":1}],\"slot\":1,\"worker\":1},\
    {\"elem\":3,\"segs\":[{\"base\":null,\"elem\":3}],\"slot\":2,\"worker\":1},\
    {\"elem\":4,\"segs\":[{\"base\":3,\"elem\":4}],\"slot\":3,\"worker\":1},\
    {\"elem\":5,\"segs\":[{\"base\":null,\"elem\":5}],\"slot\":0,\"worker\":2},\
    {\"desk\":1,\"elem\":6,\"segs\":[{\"base\":null,\"elem\":6}]}]";

/// What a pool did between its snapshots, and what stays, as text and as data.
struct Between {
    what: &'static str,
    older: &'static str,
    newer: &'static str,
    stays: &'static str,
    data: &'static str,
}

static BETWEEN: &[Between] = &[
    Between {
        what: "nothing at all",
        older: BEGUN,
        newer: BEGUN,
        stays: ALL_STAY,
        data: ALL_STAY_DATA,
    },
    Between {
        what: "one packet is longer, one chained, one detached, one taken, one freed, one offered",
        older: BEGUN,
        newer: "pool 12 workers 2 desks 2\nalloc a\nalloc b\nalloc c\nchain a c\nalloc d\n\
            clone d e\n2: alloc f\nalloc g\noffer g 1\n\
            append b 7\ndetach e\nchain a d\n2: take 1 h\n2: free f\noffer b 0\n",
        stays: "stays 6: packet 2 1 segs 1: 6\nstays 1: desk 0 segs 1: 1\n",
        data: "[{\"elem\":6,\"segs\":[{\"base\":null,\"elem\":6}],\"slot\":1,\"worker\":2},\
            {\"desk\":0,\"elem\":1,\"segs\":[{\"base\":null,\"elem\":1}]}]",
    },
    Between {
        what: "a packet is freed, and its element is got again",
        older: BEGUN,
        newer: "pool 12 workers 2 desks 2\nalloc a\nalloc b\nalloc c\nchain a c\nalloc d\n\
            clone d e\n2: alloc f\nalloc g\noffer g 1\nfree b\nalloc x\n",
        stays: ALL_STAY,
        data: ALL_STAY_DATA,
    },
    Between {
        what: "all is freed",
        older: BEGUN,
        newer: "pool 12 workers 2 desks 2\n",
        stays: "",
        data: "[]",
    },
    Between {
        what: "all is new",
        older: "pool 12 workers 2 desks 2\n",
        newer: BEGUN,
        stays: "",
        data: "[]",
    },
    Between {
        what: "segments change their order",
        older: "pool 5\nalloc a\nalloc b\nalloc c\nchain a c\n",
        newer: "pool 5\nalloc a\nalloc b\nalloc c\nchain c a\n",
        stays: "stays 1: packet 1 1 segs 1: 1\n",
        data: "[{\"elem\":1,\"segs\":[{\"base\":null,\"elem\":1}],\"slot\":1,\"worker\":1}]",
    },
    Between {
        what: "a packet loses its second segment",
        older: "pool 5\nalloc a\nalloc b\nchain a b\n",
        newer: "pool 5\nalloc a\n",
        stays: "",
        data: "[]",
    },
    Between {
        what: "a worker more has a share",
        older: "pool 5\nalloc a\n",
        newer: "pool 5 workers 2\nalloc a\n2: alloc b\n",
        stays: "stays 0: packet 1 0 segs 1: 0\n",
        data: "[{\"elem\":0,\"segs\":[{\"base\":null,\"elem\":0}],\"slot\":0,\"worker\":1}]",
    },
];

#[test]
fn what_is_in_use_in_both_unchanged_stays(rt: HostRuntime) -> Result<(), Fail> {
    for row in BETWEEN {
        let files = Files {
            scripts: &[("newer", row.newer), ("older", row.older)],
            snapshots: &[],
        };
        let (audit, _, _) = told(&rt, &files, "mbufpool audit newer", usize::MAX)?;
        let both = format!(in rt.alloc(); "{audit}{}", row.stays)?;
        let line = "mbufpool audit newer --since older";
        let (output, errors, status) = told(&rt, &files, line, usize::MAX)?;
        let given = (output.as_str(), errors.as_str(), status);
        same(&rt, &given, &(both.as_str(), "", 0), row.what);
        let (audit, _, _) = told(&rt, &files, "mbufpool audit newer --json", usize::MAX)?;
        let statement = audit.trim_end();
        let both = format!(in rt.alloc();
            "{{\"statement\":{statement},\"stays\":{}}}\n",
            row.data
        )?;
        let line = "mbufpool audit newer --since older --json";
        let (output, errors, status) = told(&rt, &files, line, usize::MAX)?;
        let given = (output.as_str(), errors.as_str(), status);
        same(&rt, &given, &(both.as_str(), "", 0), row.what);
    }
    Ok(())
}

/// What stands on the output for a command line, over one file of each kind.
fn output_of<R: Threads + Wait + Sync + AllocGlobal>(
    rt: &R,
    script: &str,
    snapshot: &str,
    line: &str,
) -> Result<String, Fail> {
    let files = Files {
        scripts: &[("a", script)],
        snapshots: &[("left", snapshot)],
    };
    let (output, _, _) = told(rt, &files, line, usize::MAX)?;
    Ok(output)
}

/// A script, and what its pool comes to, or both of its pools.
static LEFT: [(&str, &str); 3] = [
    (FIRST_RUN, FIRST_RUN_STATEMENT),
    (FOREIGN_CLONE, FOREIGN_CLONE_END),
    (
        "pool 2 desks 1\nalloc a\nappend a 7\noffer a 0\n",
        "population 2\navailable 1\nin use 1\ncommon 1: 1\ncache 1 0:\n\
        desk 0 segs 1 len 7: 0@128+7/2048\nheld 0 count 1: d0\n",
    ),
];

/// A run of one worker leaves what its replay leaves, whatever its pool rests on. Of two pools two
/// snapshots are left, a line each, and what both come to has a line `second` between them.
#[test]
fn an_audit_of_what_a_script_leaves_prints_what_it_comes_to(rt: HostRuntime) -> Result<(), Fail> {
    for (script, statement) in LEFT {
        for line in [
            "mbufpool replay a --snapshot",
            "mbufpool run a --turns 1 --snapshot",
            "mbufpool run a --turns 1 --ground locked --snapshot",
        ] {
            let left = output_of(&rt, script, "", line)?;
            let mut text = String::new(rt.alloc());
            for snapshot in left.lines() {
                if !text.is_empty() {
                    text.push_str("second\n")?;
                }
                let audit = output_of(&rt, "", snapshot, "mbufpool audit left")?;
                text.push_str(audit.as_str())?;
            }
            same(&rt, &text.as_str(), &statement, script);
            let whole = output_of(&rt, "", left.as_str(), "mbufpool audit left")?;
            same(&rt, &whole.as_str(), &statement, script);
        }
    }
    Ok(())
}

/// The healthy snapshot's statement, and what stays of it since itself.
const HEALTHY_SINCE: &str = "population 8\navailable 5\nin use 3\ncommon 4: 3 2 1 0\ncache 1 1: 4\n\
    cache 2 0:\npacket 2 1 segs 2 len 10: 5@128+9/2048 6@0+1/2048\ndesk 0 segs 1 len 0: 7@128+0/2048\n\
    held 5 count 1: 2\nheld 6 count 1: 2\nheld 7 count 1: d0\n\
    stays 5: packet 2 1 segs 2: 5 6\nstays 7: desk 0 segs 1: 7\n";

/// Whether the healthy snapshot since itself comes out as it does with ample memory, or memory was
/// refused.
fn is_as_with_ample_memory(alloc: Global) -> bool {
    let pair = Pair {
        newer: "healthy",
        older: "healthy",
        form: Form::Text,
    };
    match printed_pair(alloc, &TABLES, &pair) {
        Ok(text) => text.as_slice() == HEALTHY_SINCE.as_bytes(),
        Err(PairFailure::Newer(Failure::Fault(Refusal::OutOfMemory))) => true,
        Err(PairFailure::Older(Failure::Fault(Refusal::OutOfMemory))) => true,
        Err(_) => false,
    }
}

#[test]
fn refused_memory_changes_no_print(rt: HostRuntime) -> Result<(), Fail> {
    for _ in 0..2 {
        let is = is_as_with_ample_memory(rt.alloc());
        assert!(&rt; is, "printed otherwise");
    }
    Ok(())
}
