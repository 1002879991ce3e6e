ghost use Rattle.std.specs.Prelude.{◌≡◌, false, [], IfOk};
ghost use Rattle.host_io.specs.Files.{is_missing};
ghost use Rattle.host_io.specs.MemFiles.{mem_held};

use super::*;
use krn_base::Seq;
use std::alloc::AllocError;
use std::test::Fail;

// Over files without calls that are to fail, a load of a file that is there counts no fault.
fn load_there(
    files: &mut MemFiles,
    name: &str,
    most: usize,
    into: &mut Vec<u8>,
) -> Result<(), LoadFault>
    requires none { files.old.fails ≡ [] }
    requires there { is_missing (mem_held files.old name.now) ≡ false }
    ensures { files.new.faults ≡ files.old.faults }
{
    files.load(name, most, into)
}

fn make_slot(alloc: Global, name: &str, bytes: &str, there: bool) -> Result<Slot, AllocError>
    ensures { IfOk result (λ slot. slot.name ≡ name.now) }
{
    Ok(Slot {
        name: Seq::from_vec(Vec::from_slice(alloc, name.as_bytes())?),
        bytes: Vec::from_slice(alloc, bytes.as_bytes())?,
        there,
        room: 7,
    })
}

fn make_files(alloc: Global) -> Result<MemFiles, Fail> {
    let hello = make_slot(alloc, "a", "hello", true)?;
    let gone = make_slot(alloc, "gone", "x", false)?;
    let empty = make_slot(alloc, "", "", true)?;
    let slots = vec![in alloc; hello, gone, empty]?;
    Ok(MemFiles::new(alloc, slots, Vec::from_slice(alloc, &[2])?)?)
}

#[test]
fn loads_in_order(rt: HostRuntime) -> Result<(), Fail> {
    let cases = [
        ("a", 5, Ok(()), "hello"),
        ("a", 4, Err(LoadFault::TooLong), "hello"),
        ("a", 5, Err(LoadFault::Failed), ""),
        ("a", usize::MAX, Ok(()), "hello"),
        ("a", 0, Err(LoadFault::TooLong), "h"),
        ("gone", 9, Err(LoadFault::Failed), ""),
        ("none", 9, Err(LoadFault::Failed), ""),
        ("", 0, Ok(()), ""),
    ];
    let mut files = make_files(rt.alloc())?;
    let mut into = Vec::new(rt.alloc());
    for (name, most, answer, bytes) in cases {
        assert_eq!(rt;
            files.load(name, most, &mut into),
            answer,
            "{name} up to {most}"
        );
        assert_eq!(rt; into.as_slice(), bytes.as_bytes(), "{name} up to {most}");
    }
    assert_eq!(rt; files.faults, 3);
    for (name, bytes) in [
        ("a", Some("hello")),
        ("gone", None),
        ("none", None),
        ("", Some("")),
    ] {
        assert_eq!(rt;
            files.held(name),
            bytes.map(|text| text.as_bytes()),
            "{name}"
        );
    }
    Ok(())
}

// Each row: the name and the bytes to store, whether they are stored, and what the names `a`, `gone` and the empty one
// then hold. The third call is to fail.
#[test]
fn stores_in_order(rt: HostRuntime) -> Result<(), Fail> {
    let rows = [
        ("a", "", true, Some(""), None, Some("")),
        ("gone", "1234567", true, Some(""), Some("1234567"), Some("")),
        ("gone", "x", false, Some(""), Some("1234567"), Some("")),
        (
            "gone",
            "12345678",
            false,
            Some(""),
            Some("1234567"),
            Some(""),
        ),
        ("none", "x", false, Some(""), Some("1234567"), Some("")),
        ("gone", "y", true, Some(""), Some("y"), Some("")),
        ("", "abc", true, Some(""), Some("y"), Some("abc")),
    ];
    let mut files = make_files(rt.alloc())?;
    for (name, text, is_stored, first, second, third) in rows {
        assert_eq!(rt;
            files.store(name, text.as_bytes()).is_ok(),
            is_stored,
            "{text} as {name}"
        );
        for (other, bytes) in [("a", first), ("gone", second), ("none", None), ("", third)] {
            assert_eq!(rt;
                files.held(other),
                bytes.map(|held| held.as_bytes()),
                "{other} after {text} as {name}"
            );
        }
    }
    assert_eq!(rt; files.faults, 3);
    Ok(())
}

// A load and a store are numbered together, and large bytes pass.
#[test]
fn stores_large_files(rt: HostRuntime) -> Result<(), Fail> {
    let alloc = rt.alloc();
    let mut slot = make_slot(alloc, "large", "", false)?;
    slot.room = 100_000;
    let slots = vec![in alloc; slot]?;
    let mut files = MemFiles::new(alloc, slots, Vec::from_slice(alloc, &[1])?)?;
    let large = vec![in alloc; 7u8; 100_000]?;
    let mut into = Vec::new(alloc);
    assert_eq!(rt; files.load("large", 9, &mut into), Err(LoadFault::Failed));
    assert_eq!(rt;
        files.store("large", large.as_slice()),
        Err(StoreFault::Failed)
    );
    assert_eq!(rt; files.store("large", large.as_slice()), Ok(()));
    assert_eq!(rt; files.load("large", 100_000, &mut into), Ok(()));
    assert!(rt; into.as_slice() == large.as_slice() && files.faults == 2);
    Ok(())
}
