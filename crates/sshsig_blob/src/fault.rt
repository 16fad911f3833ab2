//! Why a message is not the signed data of a file's signature.

ghost use Rattle.std.specs.Prelude.{◌≡◌};
ghost use Rattle.sshsig_blob.specs.declared.fault.SshsigFault.TheVariants.{Short as TooShort};

use wire_core::Short;

/// Why a message is not what a key signs for a file: the first fault in the order of the bytes.
#[derive(Clone, Copy, Debug, PartialEq, Eq)]
pub enum SshsigFault {
    /// The message does not begin with `SSHSIG`.
    Preamble = 1,
    /// A field passes the end of the bytes.
    Short = 2,
    /// The namespace is empty.
    EmptyNamespace = 3,
    /// The hash algorithm is neither `sha256` nor `sha512`.
    HashAlgorithm = 4,
    /// The digest has not the length of one of the hash algorithm.
    Digest = 5,
    /// Bytes stand behind the digest.
    Trailing = 6,
}

impl From<Short> for SshsigFault {
    ghost from_gives = { λ _ fault. fault ≡ TooShort };

    fn from(_short: Short) -> SshsigFault {
        SshsigFault::Short
    }
}
