//! The request that is made of a file's text, to add its key or to remove it, and its line.

ghost use Rattle.std.specs.Prelude.{◌≡◌, ◌≢◌, [], Ok, Err, All, IfOk, OnOk, MatchResult};
ghost use Rattle.add_core.specs.Exchanges.{Tells, sized};
ghost use Rattle.add_core.specs.Sendings.{added_line, addition_of, body_stop, line_stop, removal_of, removed_line, sending_of, sent_for, IsDoable};
ghost use Rattle.add_core.specs.Steps.{IsOwn};
ghost use Rattle.agent_msg.specs.Requests.{Add};
ghost use Rattle.agent_msg.specs.Writing.{request_body};
ghost use Rattle.constraint_rec.specs.Writing.{MeetsRules};
ghost use Rattle.key_blob.specs.AddedKeys.{IsAddedKey};
ghost use Rattle.key_file.specs.BodyReading.{file_of};
ghost use Rattle.key_file.specs.PublicLines.{line_key};

use crate::fault::{AddFault, Stop};
use add_rules::constraints_len;
use agent_msg::{Request, write_request};
use constraint_rec::Terms;
use frame_core::LONGEST_BODY;
use key_blob::AddedKey;
use key_file::{KeyFile, KeyFileFault, PubFault, read_body, read_pub_line};
use secret_buf::ScrubBuf;
use std::alloc::{AllocError, Global};
use std::mem;

/// What is done with the keys of files.
#[derive(Drop)]
pub enum FileTask {
    /// They are added under these constraints.
    Add(Terms),
    /// They are removed.
    Remove,
}

/// A frame for the agent, and the line that is written where it answers SUCCESS.
#[derive(Drop)]
pub struct Sending {
    pub frame: ScrubBuf,
    pub line: Vec<u8>,
}

impl From<KeyFileFault> for Stop {
    ghost from_gives = { λ fault stop. stop ≡ body_stop fault };

    fn from(fault: KeyFileFault) -> Stop {
        match fault {
            KeyFileFault::Memory => Stop::Memory,
            other => Stop::Fault(AddFault::Body(other)),
        }
    }
}

impl From<PubFault> for Stop {
    ghost from_gives = { λ fault stop. stop ≡ line_stop fault };

    fn from(fault: PubFault) -> Stop {
        match fault {
            PubFault::Memory => Stop::Memory,
            other => Stop::Fault(AddFault::Public(other)),
        }
    }
}

fn removed_line(alloc: Global, path: &str) -> Result<Vec<u8>, AllocError>
    ensures { IfOk result (λ line. line.items ≡ removed_line path.now) }
{
    let mut line = Vec::from_slice(alloc, b"Identity removed: ")?;
    line.extend_from_slice(path.as_bytes())?;
    line.extend_from_slice(b"\n")?;
    Ok(line)
}

fn added_line(alloc: Global, path: &str, comment: &[u8]) -> Result<Vec<u8>, AllocError>
    ensures { IfOk result (λ line. line.items ≡ added_line path.now comment.now) }
{
    let mut line = Vec::from_slice(alloc, b"Identity added: ")?;
    line.extend_from_slice(path.as_bytes())?;
    line.extend_from_slice(b" (")?;
    line.extend_from_slice(comment)?;
    line.extend_from_slice(b")\n")?;
    Ok(line)
}

/// The request to remove the public key of this text.
fn removal(alloc: Global, path: &str, text: &[u8]) -> Result<Sending, Stop>
    ensures told { Tells sending_of result (removal_of path.now (line_key text.now)) }
    ensures own { IsOwn result }
{
    let blob = read_pub_line(alloc, text)?;
    if blob.len() > LONGEST_BODY as usize - 5 {
        return Err(Stop::Fault(AddFault::TooLong));
    }
    let mut frame = ScrubBuf::new(alloc);
    write_request(alloc, &mut frame, &Request::Remove { blob: &blob })?;
    let line = removed_line(alloc, path)?;
    Ok(Sending { frame, line })
}

/// The constraints of an addition.
fn given_back(alloc: Global, request: Request<'_>) -> Terms
    ensures { (key : _) (comment : _) (terms : _) → request.entry ≡ Request.Add key comment terms
        → result ≡ terms }
{
    match request {
        Request::Add {
            key: _key,
            comment: _comment,
            terms,
        } => terms,
        _other => Terms::new(alloc),
    }
}

/// The frame of an addition. The constraints are lent to the request, and given back.
fn addition_frame(
    alloc: Global,
    key: AddedKey,
    comment: &[u8],
    terms: &mut Terms,
) -> Result<ScrubBuf, Stop>
    requires key { IsAddedKey key }
    requires terms { MeetsRules terms.old }
    ensures told { MatchResult result
        (λ frame. sized (request_body (Add record { key = key; comment = comment.now; terms = terms.old })) []
        ≡ Ok (frame.live, []))
        (λ stop. stop ≢ Stop.Memory → (stop ≡ Stop.Fault AddFault.TooLong)
        × (sized (request_body (Add record { key = key; comment = comment.now; terms = terms.old })) []
        ≡ Err AddFault.TooLong)) }
    ensures own { IsOwn result }
    ensures kept { OnOk result (terms.new ≡ terms.old) }
{
    let fields = key.private.len().saturating_add(comment.len());
    if fields.saturating_add(constraints_len(terms)) > LONGEST_BODY as usize - 5 {
        return Err(Stop::Fault(AddFault::TooLong));
    }
    let mut frame = ScrubBuf::new(alloc);
    let request = Request::Add {
        key,
        comment,
        terms: mem::replace(terms, Terms::new(alloc)),
    };
    write_request(alloc, &mut frame, &request)?;
    *terms = given_back(alloc, request);
    Ok(frame)
}

/// The request to add the private key of this text.
fn addition(alloc: Global, path: &str, text: &[u8], terms: &mut Terms) -> Result<Sending, Stop>
    requires { MeetsRules terms.old }
    ensures told { Tells sending_of result (addition_of terms.old path.now (file_of text.now)) }
    ensures own { IsOwn result }
    ensures kept { OnOk result (terms.new ≡ terms.old) }
{
    let KeyFile { key, comment } = read_body(alloc, text)?;
    let frame = addition_frame(alloc, key, comment.as_slice(), terms)?;
    let line = added_line(alloc, path, comment.as_slice())?;
    Ok(Sending { frame, line })
}

impl FileTask {
    /// The request for a file of this text.
    pub fn sending(&mut self, alloc: Global, path: &str, text: &[u8]) -> Result<Sending, Stop>
        requires { IsDoable self.old }
        ensures told { Tells sending_of result (sent_for self.old path.now text.now) }
        ensures own { IsOwn result }
        ensures kept { OnOk result (self.new ≡ self.old) }
    {
        match self {
            FileTask::Add(terms) => addition(alloc, path, text, terms),
            FileTask::Remove => removal(alloc, path, text),
        }
    }
}
