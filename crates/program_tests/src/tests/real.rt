//! The files of a disk.
use super::files::FIRST_RUN;
use super::lines::{FIRST_RUN_LEFT, FIRST_RUN_STATEMENT, FIRST_RUN_TEXT, STEPS, STEPS_TEXT};
use super::{assert_told, same};
use std::test::Fail;
use std::{env, fs, process};
use tasks::kind::Kind;
use tasks::scripts::{Disk, Scripts};

/// The path of a file of this test in the folder for such files.
fn path(rt: &HostRuntime, name: &str) -> Result<String, Fail> {
    let folder = env::temp_dir(rt)?;
    let process = process::id(rt.process());
    Ok(format!(in rt.alloc(); "{}/mbufpool-{process}-{name}", folder.display())?)
}

/// The words in front of a file, its text, and the output, the errors and the status.
static THERE: [(&str, &str, (&str, &str, u8)); 7] = [
    ("replay", FIRST_RUN, (FIRST_RUN_TEXT, "", 0)),
    ("replay --snapshot", FIRST_RUN, (FIRST_RUN_LEFT, "", 0)),
    ("run", FIRST_RUN, (FIRST_RUN_STATEMENT, "", 0)),
    ("steps", STEPS, (STEPS_TEXT, "", 0)),
    ("audit", FIRST_RUN_LEFT, (FIRST_RUN_STATEMENT, "", 0)),
    (
        "replay",
        "pull 3\n",
        ("", "fault 20 ScriptFault line 1\n", 1),
    ),
    ("audit", "[", ("", "snapshot: not JSON, at byte 1\n", 1)),
];

#[test]
fn a_file_is_read_by_its_path(rt: HostRuntime) -> Result<(), Fail> {
    let path = path(&rt, "there")?;
    for (words, text, wanted) in THERE {
        fs::write(&rt, path.as_str(), text)?;
        let line = format!(in rt.alloc(); "mbufpool {words} {path}")?;
        assert_told(&rt, &Disk(&rt), line.as_str(), wanted)?;
        fs::remove_file(&rt, path.as_str())?;
    }
    Ok(())
}

#[test]
fn a_missing_file_and_a_folder_cant_be_read(rt: HostRuntime) -> Result<(), Fail> {
    let missing = path(&rt, "missing")?;
    let folder = env::temp_dir(&rt)?;
    let folder = format!(in rt.alloc(); "{}", folder.display())?;
    for file in [missing.as_str(), folder.as_str()] {
        let line = format!(in rt.alloc(); "mbufpool replay {file}")?;
        let unread = format!(in rt.alloc(); "cannot read {file}\n")?;
        assert_told(&rt, &Disk(&rt), line.as_str(), ("", unread.as_str(), 1))?;
    }
    Ok(())
}

#[test]
fn of_a_file_that_is_too_long_one_byte_too_many_is_read(rt: HostRuntime) -> Result<(), Fail> {
    let path = path(&rt, "long")?;
    let long = vec![in rt.alloc(); b'#'; 1_048_580]?;
    fs::write(&rt, path.as_str(), long.as_slice())?;
    let script = Disk(&rt).read(rt.alloc(), Kind::Script, path.as_str());
    fs::remove_file(&rt, path.as_str())?;
    let Ok(bytes) = script else {
        return Err(Fail::from("the long file isn't read"));
    };
    same(&rt, &bytes.len(), &1_048_577, "how many bytes are read");
    Ok(())
}
