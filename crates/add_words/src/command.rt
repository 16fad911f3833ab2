//! The commands of ssh-add(1), what its words say as a whole, and why words are refused.

ghost use Rattle.std.specs.Prelude.{◌≡◌};
ghost use Rattle.add_words.specs.declared.command.WordsFault.TheVariants.{Memory};

use std::alloc::AllocFailed;

/// What is to be done.
#[derive(Clone, Copy, Debug, PartialEq, Eq)]
pub enum Command {
    /// Add the private keys of files.
    Add,
    /// `-l`: list identities by their fingerprints.
    List,
    /// `-L`: list the public keys of identities.
    ListKeys,
    /// `-d`: remove the public keys of files.
    Remove,
    /// `-D`: remove all identities.
    RemoveAll,
    /// `-x`: lock the agent.
    Lock,
    /// `-X`: unlock the agent.
    Unlock,
}

/// The words, as far as they matter.
#[derive(Debug, Drop)]
pub struct AddWords<'a> {
    pub command: Command,
    /// `-c`: each use is to be confirmed.
    pub confirm: bool,
    /// `-t LIFE`, in seconds. A lifetime of 0 is none.
    pub life: Option<u32>,
    /// `-u COUNT`: how often the keys may be used, at least once.
    pub uses: Option<u32>,
    /// `-h DEST`, as they were typed.
    pub destinations: Vec<&'a str>,
    /// `-H FILE`: files of known hosts.
    pub hosts: Vec<&'a str>,
    /// `-p WORD`: what signatures may be for, as it was typed.
    pub purposes: Vec<&'a str>,
    /// Files of keys.
    pub files: Vec<&'a str>,
}

/// Why words are none of the tool's.
#[derive(Clone, Copy, Debug, PartialEq, Eq)]
pub enum WordsFault {
    /// They aren't of its form.
    Usage,
    /// Memory ran out. Says nothing of the words.
    Memory,
}

impl<T: Drop> From<AllocFailed<T>> for WordsFault {
    ghost from_gives = { λ _ fault. fault ≡ Memory };

    fn from(_: AllocFailed<T>) -> WordsFault {
        WordsFault::Memory
    }
}
