//! Files and runs in memory.
use plain_lists::Bytes;
use std::alloc::{AllocError, Global};
use std::test::Fail;
use world_ports::*;

fn file(alloc: Global, path: &str, bytes: &[u8]) -> Result<(String, Vec<u8>), AllocError> {
    Ok((
        String::from_str(alloc, path)?,
        Vec::from_slice(alloc, bytes)?,
    ))
}

fn ran(alloc: Global, status: i32, output: &[u8]) -> Result<Ran, AllocError> {
    let output = Bytes::from_vec(Vec::from_slice(alloc, output)?);
    Ok(Ran { status, output })
}

#[test]
fn the_first_file_with_a_path_is_read(rt: HostRuntime) -> Result<(), Fail> {
    let alloc = rt.alloc();
    let held = vec![in alloc;
        file(alloc, "a", b"one")?,
        file(alloc, "b", b"")?,
        file(alloc, "a", b"two")?,
    ]?;
    let mut files = MapFiles::new(held, [5].to_vec(alloc)?);
    let read = files.read(alloc, "a", 3)?;
    assert_eq!(rt; read.as_slice(), b"one".as_slice());
    let empty = files.read(alloc, "b", 0)?;
    assert!(rt; empty.is_empty());
    assert!(rt; matches!(files.read(alloc, "a", 2), Err(FileFault::TooLong)));
    assert!(rt; matches!(files.read(alloc, "c", 9), Err(FileFault::Failed)));
    assert!(rt; matches!(files.read(alloc, "a", 9), Err(FileFault::Failed)));
    Ok(())
}

#[test]
fn runs_are_answered_in_order(rt: HostRuntime) -> Result<(), Fail> {
    let alloc = rt.alloc();
    let runs = vec![in alloc; ran(alloc, 0, b"yes\n")?, ran(alloc, -1, b"")?]?;
    let mut spawner = ListSpawner::new(alloc, runs, [2].to_vec(alloc)?);
    assert!(rt; spawner.run(alloc, "ask", "ok") == Ok(ran(alloc, 0, b"yes\n")?));
    assert!(rt; spawner.run(alloc, "ask", "again") == Err(SpawnFault::Failed));
    assert!(rt; spawner.run(alloc, "ask", "once more") == Ok(ran(alloc, -1, b"")?));
    assert!(rt; spawner.run(alloc, "ask", "ok") == Err(SpawnFault::Failed));
    assert_eq!(rt; spawner.made().len(), 4);
    let Some(second) = spawner.made().get(1) else {
        return Err(Fail::from("no second run"));
    };
    assert_eq!(rt; second.word.as_slice(), b"again".as_slice());
    Ok(())
}
