//! The environment of a program that asks the user: only the variables that a dialog needs.

use crate::ticket::TICKET;
use crate::watched::run_to_end;
use std::alloc::{AllocGlobal, Global};
use std::env::{Env, VarError};
use std::fs::Files;
use std::io::{Error, ErrorKind, Result as IoResult};
use std::process::{Command, Processes, Stdio};
use std::{env, io};

// What a dialog needs: where it is shown, the session's bus, the language, and what the desktop looks like. None of them
// names code that is to be loaded or run.
const NEEDED: [&str; 22] = [
    "HOME",
    "LANG",
    "TERM",
    "DISPLAY",
    "XAUTHORITY",
    "WAYLAND_DISPLAY",
    "XDG_RUNTIME_DIR",
    "DBUS_SESSION_BUS_ADDRESS",
    "LANGUAGE",
    "LC_ALL",
    "LC_CTYPE",
    "LC_MESSAGES",
    "XDG_CURRENT_DESKTOP",
    "XDG_SESSION_TYPE",
    "DESKTOP_SESSION",
    "KDE_FULL_SESSION",
    "KDE_SESSION_VERSION",
    "GDK_SCALE",
    "GDK_DPI_SCALE",
    "QT_SCALE_FACTOR",
    "XCURSOR_SIZE",
    "XCURSOR_THEME",
];

// One of them says where a dialog is shown.
const PLACES: [&str; 2] = ["DISPLAY", "WAYLAND_DISPLAY"];

// The program that tells the session's variables, where there is one: systemctl.
const MANAGER: &str = "MORTARLEEK_MANAGER";

/// The value of a variable that is set, and text.
pub fn value_of<R: Env + AllocGlobal>(rt: &R, name: &str) -> IoResult<Option<String>> {
    match env::var(rt, name) {
        Ok(value) => Ok(Some(value)),
        Err(VarError::OutOfMemory) => Err(Error::from(ErrorKind::OutOfMemory)),
        Err(_) => Ok(None),
    }
}

fn is_set<R: Env + AllocGlobal>(rt: &R, name: &str) -> IoResult<bool> {
    Ok(value_of(rt, name)?.is_some_and(|value| !value.is_empty()))
}

/// Gives a program that asks the user nothing of the environment but what a dialog needs, and the word that a yes or a no
/// is wanted. Where no display was there at the start, the session's manager is asked for these variables.
pub fn give_dialog<R: Env + AllocGlobal + Files + Processes>(
    rt: &R,
    alloc: Global,
    command: &mut Command,
    watched: Option<i32>,
) -> IoResult<()> {
    command.env_clear();
    for name in NEEDED {
        if let Some(value) = value_of(rt, name)? {
            command.env(name, value.as_str())?;
        }
    }
    let mut has_place = false;
    for name in PLACES {
        has_place = has_place || is_set(rt, name)?;
    }
    if !has_place {
        if let Some(manager) = value_of(rt, MANAGER)? {
            if let Ok(told) = session_of(rt, alloc, manager.as_str(), watched) {
                give_told(command, &told)?;
            }
        }
    }
    command.env("SSH_ASKPASS_PROMPT", "confirm")?;
    Ok(())
}

// What the manager tells of the session's variables.
fn session_of<R: Files + Processes>(
    rt: &R,
    alloc: Global,
    manager: &str,
    watched: Option<i32>,
) -> IoResult<Vec<u8>> {
    let (mut output, theirs) = io::pipe(rt)?;
    let mut command = Command::new(alloc, manager)?;
    command.arg("--user")?;
    command.arg("show-environment")?;
    command.env_remove(TICKET)?;
    command.stdin(Stdio::null());
    command.stdout(Stdio::from(theirs));
    let mut child = command.spawn(rt)?;
    drop(command);
    let (_, heard) = run_to_end(alloc, &mut child, &mut output, watched)?;
    Ok(heard)
}

// Takes the lines NAME=VALUE of what a dialog needs. A value that is quoted has characters that none of these has.
fn give_told(command: &mut Command, told: &[u8]) -> IoResult<()> {
    let Ok(text) = std::str::from_utf8(told) else {
        return Ok(());
    };
    for line in text.lines() {
        if let Some((name, value)) = line.split_once('=') {
            if NEEDED.contains(&name) && !value.starts_with('$') {
                command.env(name, value)?;
            }
        }
    }
    Ok(())
}
