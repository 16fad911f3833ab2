//! Child processes: their words, their descriptors, what they see of the environment.
use crate::said::begins;
use std::alloc::Global;
use std::fs::{self, Files};
use std::process::Abort;
use std::test::*;
use unix_world::{Programs, UnixWorld};
use world_ports::{Ready, World};

const KEPT: [&str; 25] = [
    "DBUS_SESSION_BUS_ADDRESS",
    "DESKTOP_SESSION",
    "DISPLAY",
    "GDK_DPI_SCALE",
    "GDK_SCALE",
    "HOME",
    "KDE_FULL_SESSION",
    "KDE_SESSION_VERSION",
    "LANG",
    "LANGUAGE",
    "LC_ALL",
    "LC_CTYPE",
    "LC_MESSAGES",
    "MORTARLEEK_MANAGER",
    "MORTARLEEK_TICKET",
    "PATH",
    "QT_SCALE_FACTOR",
    "TERM",
    "WAYLAND_DISPLAY",
    "XAUTHORITY",
    "XCURSOR_SIZE",
    "XCURSOR_THEME",
    "XDG_CURRENT_DESKTOP",
    "XDG_RUNTIME_DIR",
    "XDG_SESSION_TYPE",
];

const OF_THE_SHELL: [&str; 4] = ["OLDPWD", "PWD", "SHLVL", "_"];

// A shell is started, whose script is the file that has the job's number as its name.
fn shells(alloc: Global) -> Result<Programs, Fail> {
    Ok(Programs {
        helper: String::from_str(alloc, "sh")?,
        helper_data: Some(String::from_str(alloc, "the data")?),
        relay: None,
        askpass: None,
    })
}

/// Waits until there is such a file, for a second 50 times at the most.
pub fn wait_for<R: Abort + Files, W: World>(
    rt: &R,
    world: &mut W,
    ready: &mut Vec<Ready>,
    path: &str,
) {
    for _ in 0..50 {
        if fs::metadata(rt, path).is_ok() {
            break;
        }
        assert!(rt; world.poll(Some(1), ready).is_ok(), "a wait for {path}");
    }
}

// What a child process told: its words behind the first, which a shell takes for itself, its ticket, its descriptors, of
// which 3 is that of ls, and its variables' names.
fn check(rt: &impl Abort, words: &str, ticket: &str) {
    let mut lines = words.lines();
    assert_eq!(rt; lines.next(), Some("7 - the data 2"));
    assert_eq!(rt; lines.next(), Some(ticket));
    assert_eq!(rt; lines.next(), Some("0, 1, 2, 3"));
    for name in lines {
        assert!(rt;
            KEPT.contains(&name) || OF_THE_SHELL.contains(&name),
            "{name}"
        );
    }
}

#[test]
fn a_helper_gets_its_words_and_nothing_of_the_agents(rt: HostRuntime) -> Result<(), Fail> {
    let alloc = rt.alloc();
    let script =
        "{ echo \"$0 $1 $2 $#\"; echo $MORTARLEEK_TICKET; ls -m /proc/self/fd; env | sed s/=.*// | sort; } > words.txt.new\nmv words.txt.new words.txt\n";
    fs::write(&rt, "7", script)?;
    let programs = shells(alloc)?;
    let mut world = UnixWorld::new(&rt, alloc, programs)?;
    let mut ready = Vec::new(alloc);
    let ticket = begins(&rt, &mut world, &mut ready, 7);
    wait_for(&rt, &mut world, &mut ready, "words.txt");
    let words = fs::read_to_string(&rt, "words.txt").expect(&rt, "its words");
    let ticket = hex::encode(alloc, ticket).expect(&rt, "its ticket");
    check(&rt, &words, &ticket);
    Ok(())
}
