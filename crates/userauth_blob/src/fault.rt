//! Why a message is not what a key signs for a login (RFC 4252, section 7).

ghost use Rattle.std.specs.Prelude.{◌≡◌};
ghost use Rattle.userauth_blob.specs.declared.fault.AuthFault.TheVariants.{Short as TooShort};

use wire_core::Short;

/// Why a message is not what a key signs for a login: the first fault in the order of the bytes.
#[derive(Clone, Copy, Debug, PartialEq, Eq)]
pub enum AuthFault {
    /// A field passes the end of the bytes.
    Short = 1,
    /// The session identifier is empty.
    EmptySession = 2,
    /// The message number is not 50, SSH_MSG_USERAUTH_REQUEST.
    NotRequest = 3,
    /// The service is not `ssh-connection`.
    Service = 4,
    /// The method is not `publickey` and not `publickey-hostbound-v00@openssh.com`.
    Method = 5,
    /// The byte that says that a signature follows is not 1.
    NoSignatureFlag = 6,
    /// The key blob is not that of the key that is to sign.
    OtherKey = 7,
    /// The key cannot be used with the algorithm, or its blob is no key's. Found behind the blob.
    Algorithm = 8,
    /// The host key is no public key.
    HostKey = 9,
    /// Bytes stand behind the last field.
    Trailing = 10,
}

impl From<Short> for AuthFault {
    ghost from_gives = { λ _ fault. fault ≡ TooShort };

    fn from(_short: Short) -> AuthFault {
        AuthFault::Short
    }
}
