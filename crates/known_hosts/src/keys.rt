//! The keys of a file for a host.

ghost use Rattle.std.specs.Prelude.{◌≡◌, IfOk};
ghost use Rattle.std.specs.Option.{option_map};
ghost use Rattle.std.specs.Result.{result_ok};
ghost use Rattle.pattern_core.specs.PatternLists.{lowered};
ghost use Rattle.key_file.specs.PublicLines.{typed_key};
ghost use Rattle.known_hosts.specs.HostKeys.{without_return, line_key, host_keys_of};

use crate::entry::read_entry;
use crate::hosts::field_fits;
use crate::parts::{Mark, Parts};
use constraint_rec::KeySpec;
use key_file::{PubFault, read_typed};
use plain_lists::Bytes;
use std::alloc::{AllocError, Global};

/// The line without a CR at its end.
fn without_return(line: &[u8]) -> &[u8]
    ensures { result.now ≡ without_return line.now }
{
    match line {
        [front @ .., b'\r'] => front,
        _ => line,
    }
}

/// The blob of a key of the type whose base64 the text is, where it is that of one.
fn blob_of(alloc: Global, type_name: &[u8], text: &[u8]) -> Result<Option<Bytes>, AllocError>
    ensures { IfOk result (λ blob. blob ≡ result_ok (typed_key type_name.now text.now)) }
{
    match read_typed(alloc, type_name, text) {
        Ok(blob) => Ok(Some(Bytes::from_vec(blob))),
        Err(PubFault::Memory) => Err(AllocError),
        Err(_) => Ok(None),
    }
}

/// The key that the line has for the host, where it has one.
#[tactic(auto, unfolding(crate::specs::HostKeys::line_key))]
fn key_in_line(
    alloc: Global,
    line: &[u8],
    host: &[u8],
    lowered_host: &[u8],
) -> Result<Option<KeySpec>, AllocError>
    requires { lowered_host.now ≡ lowered host.now }
    ensures { IfOk result (λ key. key ≡ line_key host.now line.now) }
{
    let Some(entry) = read_entry(line) else {
        return Ok(None);
    };
    if !field_fits(alloc, entry.hosts, host, lowered_host)? {
        return Ok(None);
    }
    let Some(blob) = blob_of(alloc, entry.type_name, entry.encoded)? else {
        return Ok(None);
    };
    Ok(Some(KeySpec {
        blob,
        authority: entry.authority,
    }))
}

/// The keys that a file of known hosts has for a host, in the order of its lines.
///
/// A line that can't be read adds no key, nor does one that is revoked. Lines end with LF or CR LF.
pub fn host_keys(alloc: Global, text: &[u8], host: &[u8]) -> Result<Vec<KeySpec>, AllocError>
    ensures { IfOk result (λ keys. keys.items ≡ host_keys_of text.now host.now) }
{
    let lowered_host = host.to_ascii_lowercase(alloc)?;
    let mut keys = Vec::new(alloc);
    let mut lines = Parts::of(Mark::Line, text);
    'lines: while let Some(line) = lines.next_part() {
        if let Some(key) = key_in_line(alloc, without_return(line), host, &lowered_host)? {
            keys.push(key)?;
        }
    }
    Ok(keys)
}
