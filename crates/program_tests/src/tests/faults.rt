//! Faults: their lines and statuses.
use super::same;
use super::screen::Narrow;
use commons::refusal::Refusal;
use script_io::Tally;
use std::test::Fail;
use tasks::failures::Failure;
use tasks::tell;
use tasks::telling::Broken;

const LINES: [(Failure<'static>, &str); 4] = [
    (
        Failure::Fault(Refusal::OutOfMemory),
        "fault 2 OutOfMemory\n",
    ),
    (
        Failure::Fault(Refusal::MissingShare(3)),
        "fault 18 MissingShare worker 3\n",
    ),
    (
        Failure::Fault(Refusal::ScriptFault(17)),
        "fault 20 ScriptFault line 17\n",
    ),
    (
        Failure::Unreadable("../no such file"),
        "cannot read ../no such file\n",
    ),
];

#[test]
fn a_failure_has_its_line(rt: HostRuntime) -> Result<(), Fail> {
    for (failure, line) in &LINES {
        let mut errors = Tally::new(Narrow::new(rt.alloc(), usize::MAX));
        same(&rt, &tell(&mut errors, failure), &Ok(()), line);
        same(&rt, &errors.inner.text()?.as_str(), line, line);
        let mut full = Tally::new(Narrow::new(rt.alloc(), 0));
        same(&rt, &tell(&mut full, failure), &Err(Broken), "untold");
    }
    Ok(())
}
