//! The lines of requests, written.

ghost use Rattle.std.specs.Prelude.{◌≡◌, ◌++◌, OnOk};
ghost use Rattle.audit_core.specs.Writing.{Writes};
ghost use Rattle.log_book.specs.Books.{open_in, see_all};
ghost use Rattle.log_core.specs.Logs.{lines_of};
ghost use Rattle.world_ports.specs.Streams.{OnlyWrites};

use audit_core::Stop;
use log_book::{Book, Sight, Told, put_told};
use std::alloc::{AllocError, Global};
use world_ports::{Sink, write_all};

// Writes a text.
fn write_text<O: Sink>(text: &[u8], output: &mut O) -> Result<(), Stop>
    ensures writes { Writes result text.now (O.seen output.old) (O.seen output.new) }
    ensures only { OnlyWrites (O.seen output.old) (O.seen output.new) }
{
    match write_all(output, text) {
        Ok(()) => Ok(()),
        Err(_) => Err(Stop::Write),
    }
}

// Appends the lines of these requests.
fn put_lines(alloc: Global, out: &mut Vec<u8>, requests: &[Told]) -> Result<(), AllocError>
    ensures { OnOk result (out.new.items ≡ out.old.items ++ lines_of requests.now) }
{
    'requests: for request in requests {
        put_told(alloc, out, request)?;
    }
    Ok(())
}

// Writes the lines of these requests.
fn write_lines<O: Sink>(alloc: Global, requests: &[Told], output: &mut O) -> Result<(), Stop>
    ensures writes { Writes result (lines_of requests.now) (O.seen output.old) (O.seen output.new) }
    ensures only { OnlyWrites (O.seen output.old) (O.seen output.new) }
{
    let mut text = Vec::new(alloc);
    match put_lines(alloc, &mut text, requests) {
        Ok(()) => write_text(&text, output),
        Err(_) => Err(Stop::Memory),
    }
}

// Sees more, and writes the lines of the requests whose fate that tells.
pub fn log_seen<O: Sink>(
    alloc: Global,
    book: &mut Book,
    sights: &[Sight],
    output: &mut O,
) -> Result<(), Stop>
    ensures book { OnOk result (book.new ≡ (see_all sights.now book.old).book) }
    ensures writes { Writes result (lines_of (see_all sights.now book.old).told)
        (O.seen output.old) (O.seen output.new) }
    ensures only { OnlyWrites (O.seen output.old) (O.seen output.new) }
{
    let mut told = Vec::new(alloc);
    match book.see_all(sights, &mut told) {
        Ok(()) => write_lines(alloc, &told, output),
        Err(_) => Err(Stop::Memory),
    }
}

// Writes the lines of the requests for whose answer clients wait.
pub fn log_open<O: Sink>(alloc: Global, book: &Book, output: &mut O) -> Result<(), Stop>
    ensures writes { Writes result (lines_of (open_in book.now))
        (O.seen output.old) (O.seen output.new) }
    ensures only { OnlyWrites (O.seen output.old) (O.seen output.new) }
{
    let mut told = Vec::new(alloc);
    match book.tell_open(&mut told) {
        Ok(()) => write_lines(alloc, &told, output),
        Err(_) => Err(Stop::Memory),
    }
}
