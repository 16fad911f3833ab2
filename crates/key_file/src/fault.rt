//! Why a private key's body or a public key's line was refused.

ghost use Rattle.std.specs.Prelude.{◌≡◌};
ghost use Rattle.key_file.specs.declared.fault.KeyFileFault.TheVariants.{Short as TooShort, Memory as NoMemory};
ghost use Rattle.key_file.specs.declared.fault.PubFault.TheVariants.{Memory as NoMemoryForLine};
ghost use Rattle.key_file.specs.Faults.{body_fault, line_fault};

use key_blob::KeyFault;
use std::alloc::AllocError;
use wire_core::Short;

/// Why a private key's body was refused: the first fault in the order of the bytes.
#[derive(Clone, Copy, Debug, PartialEq, Eq)]
pub enum KeyFileFault {
    /// The text without its blanks is not base64.
    Base64,
    /// The bytes don't begin with `openssh-key-v1` and a zero byte.
    Magic,
    /// A field passes the end of the bytes.
    Short,
    /// The cipher or the key derivation is not `none`, or the options are not empty.
    Cipher,
    /// The number of keys is not 1.
    Count,
    /// The length of the private part is not a multiple of 8.
    Block,
    /// The two check numbers differ.
    Check,
    /// What stands behind the comment is not 1, 2, 3 and so on, of at most 7 bytes.
    Padding,
    /// The key in the private part is refused. `Memory` is never carried.
    Key(KeyFault),
    /// The key in the private part has another blob than the public key in front of it. Found last.
    OtherKey,
    /// Bytes stand behind the private part. Found before it is read.
    Trailing,
    /// Memory ran out. Says nothing of the bytes.
    Memory,
}

impl From<Short> for KeyFileFault {
    ghost from_gives = { λ _ fault. fault ≡ TooShort };

    fn from(_short: Short) -> KeyFileFault {
        KeyFileFault::Short
    }
}

impl From<KeyFault> for KeyFileFault {
    ghost from_gives = { λ of_key fault. fault ≡ body_fault of_key };

    fn from(fault: KeyFault) -> KeyFileFault {
        match fault {
            KeyFault::Memory => KeyFileFault::Memory,
            other => KeyFileFault::Key(other),
        }
    }
}

impl From<AllocError> for KeyFileFault {
    ghost from_gives = { λ _ fault. fault ≡ NoMemory };

    fn from(_error: AllocError) -> KeyFileFault {
        KeyFileFault::Memory
    }
}

/// Why a public key's line was refused: the first fault from left to right.
#[derive(Clone, Copy, Debug, PartialEq, Eq)]
pub enum PubFault {
    /// The line has fewer than two words.
    Words,
    /// The second word is not base64.
    Base64,
    /// The blob is no public key's. `Memory` is never carried.
    Key(KeyFault),
    /// The blob is that of a key of another type than the first word.
    OtherType,
    /// Memory ran out. Says nothing of the line.
    Memory,
}

impl From<KeyFault> for PubFault {
    ghost from_gives = { λ of_key fault. fault ≡ line_fault of_key };

    fn from(fault: KeyFault) -> PubFault {
        match fault {
            KeyFault::Memory => PubFault::Memory,
            other => PubFault::Key(other),
        }
    }
}

impl From<AllocError> for PubFault {
    ghost from_gives = { λ _ fault. fault ≡ NoMemoryForLine };

    fn from(_error: AllocError) -> PubFault {
        PubFault::Memory
    }
}
