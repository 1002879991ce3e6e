use super::*;
use std::path::PathBuf;
use std::test::Fail;
use std::{env, process};

// A path that no other test uses, with blanks at its end.
fn make_path(rt: &HostRuntime, kind: &str) -> Result<PathBuf, Fail> {
    let name = format!(in rt.alloc(); "host_io_{kind}_{}  ", process::id(rt.process()))?;
    Ok(env::temp_dir(rt)?.join(rt.alloc(), name.as_str())?)
}

// Whether a file with the text `three words` is loaded up to each limit, and whether loads of its path without the
// blanks at the end, of its path behind a blank, of a missing file and of a folder fail, and are counted.
fn are_loads_right(rt: &HostRuntime, path: &str) -> Result<bool, Fail> {
    let text = "three words\n";
    fs::write(rt, path, text)?;
    let mut files = OsFiles::new(rt);
    let mut into = Vec::new(rt.alloc());
    let mut are_right = true;
    for (most, answer, bytes) in [
        (100, Ok(()), text),
        (12, Ok(()), text),
        (11, Err(LoadFault::TooLong), text),
        (4, Err(LoadFault::TooLong), "three"),
    ] {
        let is_right = files.load(path, most, &mut into) == answer
            && into.as_slice() == bytes.as_bytes();
        are_right = are_right && is_right && files.faults == 0;
    }
    let blank_before = format!(in rt.alloc(); " {path}")?;
    let are_refused = files.load(path.trim(), 100, &mut into) == Err(LoadFault::Failed)
        && files.load(blank_before.as_str(), 100, &mut into) == Err(LoadFault::Failed)
        && files.load("host_io/missing", 100, &mut into) == Err(LoadFault::Failed)
        && files.load("/", 100, &mut into) == Err(LoadFault::Failed);
    Ok(are_right && are_refused && files.faults == 4)
}

#[test]
fn loads_real_files(rt: HostRuntime) -> Result<(), Fail> {
    let path = make_path(&rt, "loads")?;
    let outcome = are_loads_right(&rt, path.as_str());
    let removed = fs::remove_file(&rt, path.as_str());
    let are_right = outcome?;
    removed?;
    assert!(rt; are_right);
    Ok(())
}

// Whether a store of the bytes succeeds, the file then has them, and a load gives them back.
fn is_stored(
    rt: &HostRuntime,
    files: &mut OsFiles<'_, HostRuntime>,
    path: &str,
    bytes: &[u8],
) -> Result<bool, Fail> {
    let mut into = Vec::new(rt.alloc());
    let are_done = files.store(path, bytes) == Ok(())
        && files.load(path, bytes.len(), &mut into) == Ok(());
    let text = fs::read(rt, path)?;
    Ok(are_done && into.as_slice() == bytes && text.as_slice() == bytes)
}

// Whether stores make a file, put a shorter, a large and an empty one in its place, and are refused for a path in a
// missing folder, for a folder and for a full device, each with its fault.
fn are_stores_right(rt: &HostRuntime, path: &str) -> Result<bool, Fail> {
    let large = vec![in rt.alloc(); 7u8; 100_000]?;
    let mut files = OsFiles::new(rt);
    let are_stored = is_stored(rt, &mut files, path, b"some text")?
        && is_stored(rt, &mut files, path, b"x")?
        && is_stored(rt, &mut files, path, large.as_slice())?
        && is_stored(rt, &mut files, path, b"")?
        && files.faults == 0;
    let are_refused = files.store("host_io/missing/file", b"text") == Err(StoreFault::Failed)
        && files.store("/", b"text") == Err(StoreFault::Failed)
        && files.faults == 2;
    let is_full_right = fs::metadata(rt, "/dev/full").is_err()
        || files.store("/dev/full", b"text") == Err(StoreFault::Failed) && files.faults == 3;
    Ok(are_stored && are_refused && is_full_right)
}

#[test]
fn stores_real_files(rt: HostRuntime) -> Result<(), Fail> {
    let path = make_path(&rt, "stores")?;
    let outcome = are_stores_right(&rt, path.as_str());
    let removed = fs::remove_file(&rt, path.as_str());
    let are_right = outcome?;
    removed?;
    assert!(rt; are_right);
    Ok(())
}
