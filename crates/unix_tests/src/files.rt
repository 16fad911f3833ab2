//! The files at which a world listens: whose they are, and which are replaced.
use crate::calls::holds;
use crate::no_programs::no_programs;
use std::alloc::AllocGlobal;
use std::env::Env;
use std::fs;
use std::fs::{File, Files, Permissions};
use std::net::Net;
use std::os::fd::OwnedFd;
use std::os::unix::fs::PermissionsExt;
use std::os::unix::net::{UnixListener, UnixStream};
use std::process::{Abort, Processes};
use std::random::RandomSource;
use std::test::*;
use std::time::Clock;
use unix_world::UnixWorld;
use world_ports::{Door, World, WorldFault};

// A world refuses to listen at this path.
fn refuses<W: World>(rt: &impl Abort, world: &mut W, path: &str) {
    let refused = matches!(world.bind(Door::Clients, path), Err(WorldFault::Failed));
    assert!(rt; refused, "a listener at {path}");
}

#[test]
fn only_the_user_may_open_the_file_and_it_goes(rt: HostRuntime) -> Result<(), Fail> {
    let alloc = rt.alloc();
    let mut world = UnixWorld::new(&rt, alloc, no_programs(alloc))?;
    let listens = world.bind(Door::Clients, "mode.socket").is_ok();
    holds(&rt, listens, "a listener");
    let metadata = fs::metadata(&rt, "mode.socket").expect(&rt, "its file");
    holds(
        &rt,
        metadata.permissions().mode() & 0o777 == 0o600,
        "its mode",
    );
    world.remove_file();
    holds(&rt, fs::metadata(&rt, "mode.socket").is_err(), "it goes");
    Ok(())
}

#[test]
fn a_file_that_nobody_listens_at_is_replaced(rt: HostRuntime) -> Result<(), Fail> {
    let alloc = rt.alloc();
    drop(UnixListener::bind(&rt, "stale.socket")?);
    let mut world = UnixWorld::new(&rt, alloc, no_programs(alloc))?;
    let listens = world.bind(Door::Clients, "stale.socket").is_ok();
    holds(&rt, listens, "a listener");
    world.remove_file();
    Ok(())
}

#[test]
fn a_file_that_somebody_listens_at_is_never_replaced(rt: HostRuntime) -> Result<(), Fail> {
    let alloc = rt.alloc();
    let live = UnixListener::bind(&rt, "live.socket")?;
    fs::write(&rt, "a_file.socket", "a user's own")?;
    let mut world = UnixWorld::new(&rt, alloc, no_programs(alloc))?;
    refuses(&rt, &mut world, "live.socket");
    world.remove_file();
    holds(
        &rt,
        fs::metadata(&rt, "live.socket").is_ok(),
        "the other's file",
    );
    drop(live);
    refuses(&rt, &mut world, "a_file.socket");
    world.remove_file();
    let kept = fs::read(&rt, "a_file.socket").expect(&rt, "the user's file");
    holds(
        &rt,
        kept.as_slice() == b"a user's own".as_slice(),
        "the user's file",
    );
    Ok(())
}

// A listener that somebody else opened at this path, whose file has these rights.
fn given<R: Files + Net>(rt: &R, path: &str, mode: u32) -> Result<OwnedFd, Fail> {
    let listener = UnixListener::bind(rt, path)?;
    fs::set_permissions(rt, path, Permissions::from_mode(mode))?;
    Ok(OwnedFd::from(listener))
}

// A world refuses to listen at this path by a listener that was opened at that one.
fn refuses_given<R>(rt: &R, opened: &str, mode: u32, path: &str) -> Result<(), Fail>
where
    R: Files<File = File>
        + Net
        + Processes
        + RandomSource
        + Clock
        + Env
        + AllocGlobal
        + Eprint
        + Abort,
{
    let alloc = rt.alloc();
    let mut world = UnixWorld::new(rt, alloc, no_programs(alloc))?;
    world.set_listener(given(rt, opened, mode)?);
    refuses(rt, &mut world, path);
    world.remove_file();
    holds(rt, fs::metadata(rt, opened).is_ok(), "the giver's file");
    Ok(())
}

#[test]
fn a_listener_that_is_given_is_taken_and_its_file_stays(rt: HostRuntime) -> Result<(), Fail> {
    let alloc = rt.alloc();
    let mut world = UnixWorld::new(&rt, alloc, no_programs(alloc))?;
    world.set_listener(given(&rt, "given.socket", 0o600)?);
    fs::hard_link(&rt, "given.socket", "another.socket")?;
    let listens = world.bind(Door::Clients, "another.socket").is_ok();
    holds(&rt, listens, "a listener under another name of its file");
    let taken = UnixStream::connect(&rt, "given.socket").is_ok();
    holds(&rt, taken, "a client");
    world.remove_file();
    holds(&rt, fs::metadata(&rt, "given.socket").is_ok(), "it stays");
    Ok(())
}

#[test]
fn a_listener_that_is_given_has_to_be_the_user_s_alone_and_at_the_path(
    rt: HostRuntime,
) -> Result<(), Fail> {
    refuses_given(&rt, "open.socket", 0o666, "open.socket")?;
    drop(UnixListener::bind(&rt, "other.socket")?);
    refuses_given(&rt, "private.socket", 0o600, "other.socket")?;
    refuses_given(&rt, "named.socket", 0o600, "nowhere.socket")
}
