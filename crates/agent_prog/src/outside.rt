//! The sockets and programs of an agent that serves.

ghost use Rattle.std.specs.Prelude.{◌≡◌, IfOk};

use serve_words::ServeWords;
use std::alloc::{AllocGlobal, Global};
use std::env;
use std::env::Env;
use std::fs::{File, Files};
use std::io::{Error, ErrorKind, Result as IoResult};
use std::net::Net;
use std::process::Processes;
use unix_world::{Programs, UnixWorld};

// The path from the root, where it is one of this folder.
fn absolute(alloc: Global, folder: &Option<String>, path: &str) -> IoResult<String> {
    if path.starts_with('/') {
        return Ok(String::from_str(alloc, path)?);
    }
    match folder {
        Some(folder) => Ok(format!(in alloc; "{}/{}", folder.as_str(), path)?),
        None => Err(Error::from(ErrorKind::NotFound)),
    }
}

// A program: a bare name is searched in PATH.
fn program(alloc: Global, folder: &Option<String>, word: &str) -> IoResult<String> {
    if word.contains('/') {
        absolute(alloc, folder, word)
    } else {
        Ok(String::from_str(alloc, word)?)
    }
}

fn programs_of(alloc: Global, folder: &Option<String>, served: &ServeWords) -> IoResult<Programs> {
    let helper_data = match &served.helper_data {
        Some(path) => Some(absolute(alloc, folder, path.as_str())?),
        None => None,
    };
    let relay = match &served.relay {
        Some(word) => Some(program(alloc, folder, word.as_str())?),
        None => None,
    };
    let askpass = match &served.askpass {
        Some(word) => Some(program(alloc, folder, word.as_str())?),
        None => None,
    };
    Ok(Programs {
        helper: program(alloc, folder, served.helper.as_str())?,
        helper_data,
        relay,
        askpass,
    })
}

// The folder in which the program was started, where it can be told.
fn working_folder<R: Env + AllocGlobal>(rt: &R, alloc: Global) -> IoResult<Option<String>> {
    match env::current_dir(rt) {
        Ok(folder) => Ok(Some(String::from_str(alloc, folder.as_str())?)),
        Err(_) => Ok(None),
    }
}

/// The world of the command's words. The program's working folder is the root from then on, so that none is kept from
/// being removed or unmounted; relative paths of the words are those of the folder in which it was started.
pub fn world_of<'a, R: Files<File = File> + Net + Processes + Env + AllocGlobal>(
    rt: &'a R,
    alloc: Global,
    served: ServeWords,
) -> IoResult<UnixWorld<'a, R>>
    ensures { IfOk result (λ world. world.last_port ≡ 0) }
{
    let folder = working_folder(rt, alloc)?;
    let programs = programs_of(alloc, &folder, &served)?;
    let mut world = UnixWorld::new(rt, alloc, programs)?;
    if let Some(folder) = folder {
        world.set_folder(folder);
    }
    env::set_current_dir(rt, "/")?;
    Ok(world)
}
