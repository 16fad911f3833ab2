//! A private key that is held, with its constraints.

ghost use Rattle.std.specs.Prelude.{◌≡◌, Some, IfOk};
ghost use Rattle.identity_table.specs.Identities.{identity_of};
ghost use Rattle.identity_table.specs.Deaths.{on_clock};

use crate::deadline::Deadline;
use constraint_rec::{Constraint, Terms};
use key_blob::AddedKey;
use key_purposes::Purpose;
use plain_lists::{Bytes, PlainList};
use secret_buf::SecretBytes;
use std::alloc::{AllocError, Global};
use std::marker::Model;

/// A key that an agent holds, with its comment and its constraints.
///
/// Dropping it wipes its private bytes.
#[derive(Drop)]
pub struct Identity {
    // In a box, since the map's nodes have room for more keys than stand in them.
    held: Box<Held>,
}

#[derive(Drop)]
struct Held {
    number: u64,
    blob: Bytes,
    private: SecretBytes,
    comment: Bytes,
    deadline: Option<Deadline>,
    confirm: bool,
    uses: Option<u32>,
    rules: PlainList<Constraint>,
    purposes: PlainList<Purpose>,
}

impl Model for Identity {
    ghost use Rattle.identity_table.specs.Identities.{HeldKey};

    ghost Value = { HeldKey };

    ghost view = { λ identity. record {
      number = identity.held.value.number;
      blob = identity.held.value.blob;
      private = identity.held.value.private;
      comment = identity.held.value.comment;
      death = identity.held.value.deadline;
      confirm = identity.held.value.confirm;
      uses = identity.held.value.uses;
      rules = identity.held.value.rules;
      purposes = identity.held.value.purposes;
    } };
}

impl Identity {
    /// An identity of these parts.
    pub(crate) fn of(
        alloc: Global,
        number: u64,
        key: AddedKey,
        comment: Bytes,
        deadline: Option<Deadline>,
        terms: Terms,
    ) -> Result<Identity, AllocError>
        ensures { IfOk result (λ one. one ≡ identity_of number key comment deadline terms) }
    {
        let AddedKey { blob, private } = key;
        let Terms {
            life: _,
            confirm,
            uses,
            rules,
            purposes,
        } = terms;
        let held = Box::new(
            alloc,
            Held {
                number,
                blob,
                private,
                comment,
                deadline,
                confirm,
                uses,
                rules,
                purposes,
            },
        )?;
        Ok(Identity { held })
    }

    /// The number of its addition.
    pub fn addition(&self) -> u64
        ensures { result ≡ self.now.number }
    {
        self.held.number
    }

    /// The blob of its public key.
    pub fn blob(&self) -> &[u8]
        ensures { result.now ≡ self.now.blob }
    {
        self.held.blob.as_slice()
    }

    /// The comment that it was added with.
    pub fn comment(&self) -> &[u8]
        ensures { result.now ≡ self.now.comment }
    {
        self.held.comment.as_slice()
    }

    /// The key type and the fields as they were added, the private ones with them.
    pub fn private(&self) -> &SecretBytes
        ensures { result.now ≡ self.now.private }
    {
        &self.held.private
    }

    /// Whether each use is to be confirmed.
    pub fn confirm(&self) -> bool
        ensures { result ≡ self.now.confirm }
    {
        self.held.confirm
    }

    /// How often it may still be used, where that is limited.
    pub fn uses(&self) -> Option<u32>
        ensures { result ≡ self.now.uses }
    {
        self.held.uses
    }

    /// Leaves it so many uses.
    pub(crate) fn leave_uses(&mut self, uses: u32)
        ensures { self.new ≡ record self.old { uses = Some uses } }
    {
        self.held.uses = Some(uses);
    }

    /// Where it may be used. Empty where it may be used anywhere.
    pub fn rules(&self) -> &[Constraint]
        ensures { result.now ≡ self.now.rules }
    {
        self.held.rules.as_slice()
    }

    /// What its signatures may be for. Empty where they may be for anything.
    pub fn purposes(&self) -> &[Purpose]
        ensures { result.now ≡ self.now.purposes }
    {
        self.held.purposes.as_slice()
    }

    /// The second from which it is dead, where the clock comes to it.
    pub(crate) fn death(&self) -> Option<u64>
        ensures { result ≡ on_clock self.now.death }
    {
        match &self.held.deadline {
            Some(deadline) => deadline.second(),
            None => None,
        }
    }
}
