//! What a client is owed.

ghost use Rattle.std.specs.Prelude.{◌≡◌, ◌+◌, ◌≤◌, [], ◌++◌, drop, length, map, OnOk, IfOk};
ghost use Rattle.wire_text.specs.Bounds.{longest_body};
ghost use Rattle.secret_buf.specs.Buffers.{KeepsRoom};
ghost use Rattle.agent_msg.specs.Replies.{entries, identities_answer, sign_response, status};
ghost use Rattle.identity_table.specs.Identities.{max_answer};
ghost use Rattle.agent_model.specs.KeyStates.{shown};
ghost use Rattle.agent_core.specs.Seen.{entry_if, is_seen, seen};

use crate::asker::Asker;
use crate::seen::{seen_size, sees};
use agent_msg::{put_list_entry, put_list_head, put_signature, put_status};
use identity_table::{Identity, Table};
use secret_buf::ScrubBuf;
use std::alloc::{AllocError, Global};
use std::marker::Model;

/// How many bytes SUCCESS and FAILURE have as they are sent.
const STATUS_LEN: usize = 5;

/// The storage of a reply with a longer body isn't kept for the next one, in bytes.
const LONG: u32 = 4096;

/// Bytes that a client is owed, seen as the list of them.
///
/// Where there are none, there is room for a status reply. Dropping it wipes it.
#[derive(Drop)]
pub struct Owed {
    alloc: Global,
    bytes: ScrubBuf,
    is_long: bool,
}

impl Model for Owed {
    ghost use Rattle.std.specs.Prelude.{ℕ, List, ◌+◌, ◌≤◌, length};

    ghost Value = { List ℕ };

    ghost view = { λ owed. owed.bytes.live };

    ghost invariant = { λ owed. 5 ≤ owed.bytes.spare + length owed.bytes.live };
}

impl Owed {
    /// Nothing.
    pub fn new(alloc: Global) -> Result<Owed, AllocError>
        ensures { IfOk result (λ owed. owed ≡ []) }
    {
        let mut bytes = ScrubBuf::new(alloc);
        bytes.reserve(STATUS_LEN)?;
        Ok(Owed {
            alloc,
            bytes,
            is_long: false,
        })
    }

    pub fn allocator(&self) -> Global {
        self.alloc
    }

    pub fn bytes(&self) -> &[u8]
        ensures { result.now ≡ self.now }
    {
        self.bytes.live()
    }

    /// The first `count` bytes are sent, and with the last of them the storage of a long reply is
    /// given back.
    pub fn consume(&mut self, count: usize)
        requires { count ≤ length self.old }
        ensures { self.new ≡ drop count self.old }
    {
        self.bytes.consume(count);
        if self.is_long && self.bytes.live().is_empty() {
            self.give_back();
        }
    }

    /// SUCCESS or FAILURE. Takes no memory.
    pub fn put_status(&mut self, success: bool)
        requires { self.old ≡ [] }
        ensures { self.new ≡ status success }
    {
        put_status(&mut self.bytes, success);
    }

    /// SUCCESS or FAILURE, behind what is owed. Takes no memory where nothing is.
    pub fn append_status(&mut self, success: bool) -> Result<(), AllocError>
        ensures { OnOk result (self.new ≡ self.old ++ status success) }
    {
        self.bytes.reserve(STATUS_LEN)?;
        put_status(&mut self.bytes, success);
        Ok(())
    }

    /// The signature, behind what is owed.
    pub fn append_signature(&mut self, signature: &[u8]) -> Result<(), AllocError>
        requires { 5 + length signature.now ≤ longest_body }
        ensures { OnOk result (self.new ≡ self.old ++ sign_response signature.now) }
    {
        if signature.len() > LONG as usize {
            self.is_long = true;
        }
        put_signature(&mut self.bytes, signature)
    }

    /// A list without any identity.
    pub fn put_empty_list(&mut self) -> Result<(), AllocError>
        requires { self.old ≡ [] }
        ensures { OnOk result (self.new ≡ identities_answer []) }
    {
        put_list_head(&mut self.bytes, 5, 0)?;
        Ok(())
    }

    /// The list of those of the table's identities that the asker sees.
    pub fn put_list(&mut self, asker: &Asker<'_>, table: &Table) -> Result<(), AllocError>
        requires { self.old ≡ [] }
        ensures { OnOk result
            (self.new ≡ identities_answer (map shown (seen asker.now table.now.identities))) }
    {
        let size = seen_size(asker, table);
        let body = size.body as u32;
        self.is_long = body > LONG;
        put_list_head(&mut self.bytes, body, size.count as u32)?;
        put_entries(&mut self.bytes, asker, table)?;
        Ok(())
    }
}

impl Owed {
    // Takes room for a status reply in the place of the storage, where there is memory for it.
    fn give_back(&mut self)
        requires { self.old ≡ [] }
        ensures { self.new ≡ [] }
    {
        if let Ok(owed) = Owed::new(self.alloc) {
            *self = owed;
        }
    }
}

// Appends those of the table's identities that the asker sees.
fn put_entries(out: &mut ScrubBuf, asker: &Asker<'_>, table: &Table) -> Result<(), AllocError>
    ensures ok { OnOk result (out.new.live
        ≡ out.old.live ++ entries (map shown (seen asker.now table.now.identities))) }
    ensures keeps_room { KeepsRoom out.old out.new }
{
    for identity in table.iter() {
        put_entry(out, asker, identity)?;
    }
    Ok(())
}

// Appends an identity where it is seen.
fn put_entry(out: &mut ScrubBuf, asker: &Asker<'_>, identity: &Identity) -> Result<(), AllocError>
    requires { 8 + length identity.now.blob + length identity.now.comment ≤ max_answer }
    ensures ok { OnOk result (out.new.live
        ≡ out.old.live ++ entry_if (is_seen asker.now identity.now) identity.now) }
    ensures keeps_room { KeepsRoom out.old out.new }
{
    if sees(asker, identity) {
        put_list_entry(out, identity.blob(), identity.comment())?;
    }
    Ok(())
}
