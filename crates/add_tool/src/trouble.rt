//! The messages of a failure, from the program's status and the file that was read last.

use add_core::{AddFault, AddStatus, DestFault, PurposeFault};
use key_file::{KeyFileFault, PubFault};
use std::fmt;
use std::io::ErrorKind;

/// Why the program ended with a status other than 0, in words.
#[derive(Debug, Drop)]
pub struct Trouble {
    status: AddStatus,
    /// The file that was read last.
    file: Option<String>,
    /// Why the last file that couldn't be read couldn't.
    reason: Option<ErrorKind>,
}

impl Trouble {
    /// The words for a status other than `Done`; none for an agent without identities.
    pub fn of(
        status: AddStatus,
        file: Option<String>,
        reason: Option<ErrorKind>,
    ) -> Option<Trouble> {
        match status {
            AddStatus::Done | AddStatus::Failed(AddFault::NoIdentities) => None,
            other => Some(Trouble {
                status: other,
                file,
                reason,
            }),
        }
    }
}

impl fmt::Display for Trouble {
    fn fmt<W: fmt::Write>(&self, f: &mut fmt::Formatter<W>) -> fmt::Result {
        if is_of_a_file(self.status) {
            if let Some(file) = &self.file {
                f.write_str(file.as_str())?;
                f.write_str(": ")?;
            }
        }
        f.write_str(words(self.status, self.reason))
    }
}

// The file that was read last is the one that failed, or whose key the request was about.
fn is_of_a_file(status: AddStatus) -> bool {
    matches!(
        status,
        AddStatus::Failed(
            AddFault::File { .. }
                | AddFault::FileTooLong { .. }
                | AddFault::Body(_)
                | AddFault::Public(_)
                | AddFault::TooLong
                | AddFault::Refused
        )
    )
}

fn words(status: AddStatus, reason: Option<ErrorKind>) -> &'static str {
    match status {
        AddStatus::Done => "done",
        AddStatus::NoAgent => {
            "no agent can be reached: is one running, and does SSH_AUTH_SOCK name its socket?"
        }
        AddStatus::Memory => "out of memory",
        AddStatus::Failed(AddFault::File { .. }) => unread(reason),
        AddStatus::Failed(AddFault::Body(fault)) => body(fault),
        AddStatus::Failed(AddFault::Public(fault)) => public(fault),
        AddStatus::Failed(AddFault::Destination(fault)) => destination(fault),
        AddStatus::Failed(AddFault::Purpose(fault)) => purpose(fault),
        AddStatus::Failed(fault) => plain(fault),
    }
}

fn unread(reason: Option<ErrorKind>) -> &'static str {
    match reason {
        Some(ErrorKind::NotFound) => "there is no such file: is the path right?",
        Some(ErrorKind::PermissionDenied) =>
            "may not be read: whose file is it, and what is its mode?",
        Some(ErrorKind::IsADirectory) => "is a directory: name a file in it",
        _ => "can't be read: is it a file, and is its disk there?",
    }
}

fn plain(fault: AddFault) -> &'static str {
    match fault {
        AddFault::Usage => {
            "usage: ssh-add [-c] [-t LIFE] [-u COUNT] [-p PURPOSE]... [-H HOSTS]... [-h DEST]... FILE... | -d FILE... | -D | -l | -L | -x | -X"
        }
        AddFault::EmptyPassphrase =>
            "the passphrase is empty: give it in the first line of the input",
        AddFault::LongPassphrase => "the passphrase has more than 1024 bytes: give a shorter one",
        AddFault::FileTooLong { .. } => "is too long for a file of its kind: is it the right one?",
        AddFault::TooLong => {
            "the request would be too long: are there many destinations, or many known hosts?"
        }
        AddFault::Refused => "the agent refused: is it locked, or does it not hold the key?",
        AddFault::BadReply =>
            "the agent gave no proper answer: does SSH_AUTH_SOCK name an agent's socket?",
        AddFault::PeerFault => "the connection to the agent failed: is it still running?",
        AddFault::InputFault => "the input can't be read",
        AddFault::OutputFault => "the output can't be written",
        _ => "failed",
    }
}

fn body(fault: KeyFileFault) -> &'static str {
    match fault {
        KeyFileFault::Cipher => {
            "the key is encrypted: OpenSSH's ssh-add adds such keys, or ssh-keygen -p removes the passphrase"
        }
        KeyFileFault::Base64 | KeyFileFault::Magic => {
            "no private key of OpenSSH's format: give the text between the two armour lines alone"
        }
        KeyFileFault::Count => "the file holds more than one key: give each a file of its own",
        KeyFileFault::Key(_) =>
            "the key's type is none of those that are added, or its fields are broken",
        _ => "the private key is broken: is the file whole?",
    }
}

fn public(fault: PubFault) -> &'static str {
    match fault {
        PubFault::Words => "no public key: a line has a type, the key in base64, and a comment",
        PubFault::Base64 => "the public key isn't base64: is the file whole?",
        PubFault::OtherType => "the line names another type than the public key's",
        _ => "the public key's type is none of those that are known, or its fields are broken",
    }
}

fn purpose(fault: PurposeFault) -> &'static str {
    match fault {
        PurposeFault::Long => "a purpose has more than 255 bytes: give a shorter namespace",
        PurposeFault::Twice => "a purpose is named twice: give each once",
        PurposeFault::Many => "there are more than 64 purposes: give fewer",
        _ => "a purpose is none: give login, sshsig:NAMESPACE, sshsig or other",
    }
}

fn destination(fault: DestFault) -> &'static str {
    match fault {
        DestFault::SourceUser => "a source host has no user: write HOST>[USER@]HOST",
        DestFault::EmptyHost =>
            "a host is missing in a destination: write [USER@]HOST or HOST>[USER@]HOST",
        DestFault::EmptyUser =>
            "a user is missing before an @: leave out the @ where any user may be",
        DestFault::NoKeys =>
            "the files of known hosts have no key for a host: connect once, or name another -H",
    }
}
