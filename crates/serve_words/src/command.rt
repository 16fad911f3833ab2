//! The command line of `serve` as clap reads it.

ghost use Rattle.std.specs.Prelude.{◌≡◌, IfOk, List, ℕ, map, string_bytes, true, false};
ghost use Rattle.clap.specs.Matches.{first_value, found_of};
ghost use Rattle.clap.specs.Simple.{app_of};
ghost use Rattle.serve_words.specs.Serve.{is_taken, serve_app, value_of};

use crate::ServeFault;
use crate::args::{flag_arg, long_arg, short_arg};
use clap::error::ErrorKind;
use clap::{ArgMatches, Command};
use std::alloc::{AllocError, Global};

pub fn serve_command<'a>(alloc: Global) -> Result<Command<'a>, AllocError>
    ensures { IfOk result (λ command. app_of command ≡ serve_app) }
{
    let start = Command::new(alloc, "serve");
    let with_path = start.arg(short_arg(alloc, "path", 'a', true))?;
    let with_helper = with_path.arg(long_arg(alloc, "helper", true))?;
    let with_data = with_helper.arg(long_arg(alloc, "helper-data", false))?;
    let with_relay = with_data.arg(long_arg(alloc, "relay", false))?;
    let with_askpass = with_relay.arg(long_arg(alloc, "askpass", false))?;
    let with_life = with_askpass.arg(short_arg(alloc, "lifetime", 't', false))?;
    let with_limit = with_life.arg(long_arg(alloc, "confirm-limit", false))?;
    let with_idle = with_limit.arg(flag_arg(alloc, "until-idle"))?;
    let with_record = with_idle.arg(flag_arg(alloc, "record"))?;
    let whole = with_record.arg(flag_arg(alloc, "record-or-stop"))?;
    Ok(whole)
}

// What clap takes the words for. The first is the program's name to it.
pub fn serve_matches<'a>(alloc: Global, words: &'a [String]) -> Result<ArgMatches<'a>, ServeFault>
    ensures taken { IfOk result (λ _. is_taken (map string_bytes words.entry.now) ≡ true) }
    ensures values { IfOk result (λ matches. (id : List ℕ) →
        first_value (found_of matches) id ≡ value_of id (map string_bytes words.entry.now)) }
    ensures refused { result ≡ Err ServeFault.Usage
        → is_taken (map string_bytes words.entry.now) ≡ false }
{
    let command = serve_command(alloc)?;
    match command.try_get_matches_from(words) {
        Ok(matches) => Ok(matches),
        Err(error) => match error.kind() {
            ErrorKind::OutOfMemory => Err(ServeFault::Memory),
            _ => Err(ServeFault::Usage),
        },
    }
}
