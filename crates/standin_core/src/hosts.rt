//! Reads the data file, each line a tag and a secret in hexadecimal (ours), and looks tags up.

ghost use Rattle.std.specs.Prelude.{◌≡◌, ◌≢◌, ◌≤◌, ◌+◌, ◌++◌, IfOk, MatchResult, OnOk, OnErr, length, take, drop, List, option_map, Err, true, false};
ghost use Rattle.hex.specs.Hex.{decode_sized};
ghost use Rattle.standin_core.specs.Hosts.{Host, ArePairs, secret_for};
ghost use Rattle.standin_core.specs.Reading.{ReadsLine, ReadsText, ReadsData};
ghost use Rattle.world_ports.specs.Files.{OnlyReadsFiles};

use crate::fault::DataFault;
use secret_buf::ScrubBuf;
use std::alloc::Global;
use wiped_bytes::WipedBytes;
use world_ports::{FileFault, Files};

/// How long the data file may be, in bytes (ours).
const MAX_DATA: u64 = 1048576;

/// How long a line is: 64 digits, a space, 64 digits, LF.
const LINE: usize = 130;

/// How long a tag is, and a secret.
const HALF: usize = 32;

/// How long a pair of them is.
const PAIR: usize = 64;

/// The pairs of tag and secret of the data file at this path, or none without one.
///
/// The file's bytes are wiped before this returns.
pub fn read_data<F: Files>(
    alloc: Global,
    files: &mut F,
    path: Option<&str>,
) -> Result<ScrubBuf, DataFault>
    ensures reads { ReadsData result (option_map (λ path. path.now) path.entry)
        (F.seen files.old) (F.seen files.new) }
    ensures failed { result ≢ Err DataFault.Failed
        → (F.seen files.new).failed ≡ (F.seen files.old).failed }
    ensures only { OnlyReadsFiles (F.seen files.old) (F.seen files.new) }
{
    let Some(path) = path else {
        return Ok(ScrubBuf::new(alloc));
    };
    let bytes = match files.read(alloc, path, MAX_DATA) {
        Ok(bytes) => bytes,
        Err(FileFault::Failed) => return Err(DataFault::Failed),
        Err(FileFault::TooLong) => return Err(DataFault::TooLong),
        Err(FileFault::Memory) => return Err(DataFault::Memory),
    };
    let text = WipedBytes::from_vec(bytes);
    read_text(alloc, text.as_slice())
}

// The pairs of a text's lines.
fn read_text(alloc: Global, text: &[u8]) -> Result<ScrubBuf, DataFault>
    ensures { ReadsText result text.now }
{
    let mut tag = WipedBytes::zeros(alloc, HALF)?;
    let mut secret = WipedBytes::zeros(alloc, HALF)?;
    let mut pairs = ScrubBuf::new(alloc);
    let mut rest = text;
    'lines: while !rest.is_empty() {
        if rest.len() < LINE {
            return Err(DataFault::Bad);
        }
        if !read_line(rest, &mut tag, &mut secret) {
            return Err(DataFault::Bad);
        }
        pairs.push_slice(tag.as_slice())?;
        pairs.push_slice(secret.as_slice())?;
        rest = behind(rest, LINE);
    }
    Ok(pairs)
}

// Reads the line in front.
fn read_line(line: &[u8], tag: &mut WipedBytes, secret: &mut WipedBytes) -> bool
    requires line { 130 ≤ length line.now }
    requires tag { length tag.old ≡ 32 }
    requires secret { length secret.old ≡ 32 }
    ensures reads { ReadsLine result line.now tag.new secret.new }
    ensures tag { length tag.new ≡ 32 }
    ensures secret { length secret.new ≡ 32 }
{
    if line[64] != b' ' || line[129] != b'\n' {
        return false;
    }
    if !decode(digits_at(line, 0), tag) {
        return false;
    }
    decode(digits_at(line, 65), secret)
}

// Writes over all of the bytes those that hexadecimal digits write, where these are as many, and says
// whether they are.
fn decode(digits: &[u8], bytes: &mut WipedBytes) -> bool
    ensures value { MatchResult (decode_sized digits.now (length bytes.old))
        (λ read. (result ≡ true) × (bytes.new ≡ read)) (λ _. result ≡ false) }
    ensures len { length bytes.new ≡ length bytes.old }
{
    hex::decode_to_slice(digits, bytes.as_mut_slice()).is_ok()
}

// The digits from this place on.
fn digits_at(line: &[u8], at: usize) -> &[u8]
    requires { at + 64 ≤ length line.now }
    ensures { result.now ≡ take 64 (drop at line.now) }
{
    &line[at..at + 64]
}

// What stands behind so many bytes.
fn behind(bytes: &[u8], count: usize) -> &[u8]
    requires { count ≤ length bytes.now }
    ensures { result.now ≡ drop count bytes.now }
{
    &bytes[count..]
}

/// The secret of the first host with this tag.
pub fn find_secret<'a>(pairs: &'a [u8], tag: &[u8]) -> Option<&'a [u8]>
    ensures { (hosts : List Host) → ArePairs pairs.entry.now hosts
        → option_map (λ secret. secret.now) result ≡ secret_for tag.now hosts }
{
    let mut rest = pairs;
    'hosts: while rest.len() >= PAIR {
        let (pair, later) = rest.split_at(PAIR);
        let (of_host, secret) = pair.split_at(HALF);
        if of_host == tag {
            return Some(secret);
        }
        rest = later;
    }
    None
}
