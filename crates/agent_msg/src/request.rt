//! The requests of a client to an agent, as values (draft-miller-ssh-agent).

use constraint_rec::Terms;
use key_blob::AddedKey;

/// What a client asks of an agent.
///
/// Has no `Debug`, since it may hold a private key or lend a passphrase.
#[derive(Drop)]
pub enum Request<'a> {
    /// List the identities.
    List,
    /// Sign `message` with the key of this public key blob. Flags are as the client sent them.
    Sign {
        blob: &'a [u8],
        message: &'a [u8],
        flags: u32,
    },
    /// Hold a key. Where it has no constraints, either of the two numbers may have been used.
    Add {
        key: AddedKey,
        comment: &'a [u8],
        terms: Terms,
    },
    /// Remove the key of this public key blob.
    Remove {
        blob: &'a [u8],
    },
    /// Remove all keys.
    RemoveAll,
    /// Lock the agent.
    Lock {
        passphrase: &'a [u8],
    },
    /// Unlock the agent.
    Unlock {
        passphrase: &'a [u8],
    },
    /// Bind the connection to the host of this key, which signed `session`.
    ///
    /// The key and the signature are as the client sent them: neither is read or verified.
    Bind {
        host_key: &'a [u8],
        session: &'a [u8],
        signature: &'a [u8],
        forwarding: bool,
    },
    /// Another extension, whose contents are not looked at.
    OtherExtension {
        name: &'a [u8],
    },
    /// A request of another number, whose contents are not looked at.
    Unsupported {
        number: u8,
    },
}
