//! Starts the helper and the relay with their words, and with few variables of the environment.

use crate::identity::Known;
use std::alloc::{AllocGlobal, Global};
use std::env::Env;
use std::fs::Files;
use std::io::{Error, ErrorKind};
use std::os::fd::OwnedFd;
use std::process::{Child, Command, Processes, Stdio};
use std::{env, io};
use world_ports::{Job, JobKind};

/// The programs that are started as child processes, and what they are told behind their connection's place, the job's
/// number and the ticket's place: the helper a path of its own, where there is one, the relay the program that asks the user.
#[derive(Drop)]
pub struct Programs {
    pub helper: String,
    pub helper_data: Option<String>,
    pub relay: Option<String>,
    pub askpass: Option<String>,
}

// The variable that holds a child process's ticket. Words can be read by every process of the machine; the environment
// of a program that its user can't read, by none of that user.
const TICKET: &str = "MORTARLEEK_TICKET";

// The variable that names to a relay the file that those of one agent lock, so that one question at a time is shown.
const QUESTIONS: &str = "MORTARLEEK_QUESTIONS";

// The word for a ticket that stands in the environment.
const IN_THE_ENVIRONMENT: &str = "-";

// The word for a connection that is the standard input.
const STANDARD_INPUT: &str = "-";

/// What is known of the programs: which files they were when the agent was started.
#[derive(Drop)]
pub struct KnownPrograms {
    helper: Known,
    relay: Option<Known>,
    askpass: Option<Known>,
}

/// What a child process sees of the agent's environment.
pub const KEPT: [&str; 24] = [
    "PATH",
    "HOME",
    "LANG",
    "TERM",
    "DISPLAY",
    "XAUTHORITY",
    "WAYLAND_DISPLAY",
    "XDG_RUNTIME_DIR",
    "DBUS_SESSION_BUS_ADDRESS",
    "LANGUAGE",
    "LC_ALL",
    "LC_CTYPE",
    "LC_MESSAGES",
    "XDG_CURRENT_DESKTOP",
    "XDG_SESSION_TYPE",
    "DESKTOP_SESSION",
    "KDE_FULL_SESSION",
    "KDE_SESSION_VERSION",
    "GDK_SCALE",
    "GDK_DPI_SCALE",
    "QT_SCALE_FACTOR",
    "XCURSOR_SIZE",
    "XCURSOR_THEME",
    "MORTARLEEK_MANAGER",
];

/// The variables of `KEPT` that are set, each with its value. One that isn't text is left out.
pub fn kept_environment<R: Env + AllocGlobal>(
    rt: &R,
    alloc: Global,
) -> io::Result<Vec<(String, String)>> {
    let mut kept = Vec::new(alloc);
    for name in KEPT {
        if let Ok(value) = env::var(rt, name) {
            kept.push((String::from_str(alloc, name)?, value))?;
        }
    }
    Ok(kept)
}

// Whether there is no program, or one that may be started. Where a start is refused for the first time standard error
// is told so.
fn may_start<R: Files + Eprint>(
    rt: &R,
    alloc: Global,
    program: &Option<String>,
    known: &mut Option<Known>,
) -> io::Result<bool> {
    match (program, known) {
        (Some(path), Some(known)) => is_startable(rt, alloc, path.as_str(), known),
        _ => Ok(true),
    }
}

fn is_startable<R: Files + Eprint>(
    rt: &R,
    alloc: Global,
    path: &str,
    known: &mut Known,
) -> io::Result<bool> {
    if known.may_start(rt, alloc, path)? {
        return Ok(true);
    }
    if known.tell() {
        let _ = eprintln!(rt;
            "mortarleek: {path} isn't the file that it was when the agent started, and isn't started"
        );
    }
    Ok(false)
}

fn known_of<R: Files>(rt: &R, program: &Option<String>) -> Option<Known> {
    program.as_ref().map(|path| Known::new(rt, path.as_str()))
}

impl Programs {
    // Which files they are now.
    pub(crate) fn known<R: Files>(&self, rt: &R) -> KnownPrograms {
        KnownPrograms {
            helper: Known::new(rt, self.helper.as_str()),
            relay: known_of(rt, &self.relay),
            askpass: known_of(rt, &self.askpass),
        }
    }

    // Whether what is to be started for a job are the files that were there when the agent was started. They may be
    // others where nobody but root can have put them there.
    pub(crate) fn may_start<R: Files + Eprint>(
        &self,
        rt: &R,
        alloc: Global,
        known: &mut KnownPrograms,
        kind: JobKind,
    ) -> io::Result<bool> {
        match kind {
            JobKind::Helper => { is_startable(rt, alloc, self.helper.as_str(), &mut known.helper) }
            JobKind::Confirm => {
                let relay = may_start(rt, alloc, &self.relay, &mut known.relay)?;
                let askpass = may_start(rt, alloc, &self.askpass, &mut known.askpass)?;
                Ok(relay && askpass)
            }
        }
    }

    // Starts the child process of a job with this connection as its standard input, and doesn't wait for it. It gets
    // nothing of the agent's but the kept variables and standard error, and in the environment its ticket and, where it
    // is a relay, which file relays lock.
    pub(crate) fn start<R: Processes>(
        &self,
        rt: &R,
        alloc: Global,
        kept: &[(String, String)],
        questions: Option<&str>,
        job: Job,
        ticket: &[u8; 16],
        connection: OwnedFd,
    ) -> io::Result<Child<R::Started>> {
        let (program, last) = match job.kind {
            JobKind::Helper => (&self.helper, &self.helper_data),
            JobKind::Confirm => match &self.relay {
                Some(relay) => (relay, &self.askpass),
                None => return Err(Error::from(ErrorKind::NotFound)),
            },
        };
        let mut command = Command::new(alloc, program.as_str())?;
        command.env_clear();
        for (name, value) in kept {
            command.env(name.as_str(), value.as_str())?;
        }
        command.env(TICKET, hex::encode(alloc, *ticket)?.as_str())?;
        if let (JobKind::Confirm, Some(file)) = (job.kind, questions) {
            command.env(QUESTIONS, file)?;
        }
        command.arg(STANDARD_INPUT)?;
        command.arg(format!(in alloc; "{}", job.number)?.as_str())?;
        command.arg(IN_THE_ENVIRONMENT)?;
        if let Some(word) = last {
            command.arg(word.as_str())?;
        }
        command.stdin(Stdio::from(connection));
        command.stdout(Stdio::null());
        command.spawn(rt)
    }
}
