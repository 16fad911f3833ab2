//! What was seen of a run, as far as it decides what is told next.

ghost use Rattle.std.specs.Prelude.{◌≡◌, ◌++◌, IfOk, OnOk};
ghost use Rattle.log_book.specs.Books.{change_peer, ends_at, fate_by, find_peer, gives, named_by, new_book, open_in, refused_by, see, see_all, told_by, told_leaving};
ghost use Rattle.log_book.specs.Peers.{answered};

use crate::asked::copied;
use crate::list::{NamedKey, comment_of, leave, name, place_of, put, raise, send};
use crate::peer::{Ended, Peer};
use crate::sight::{Sight, What};
use crate::told::{Asked, Course, Fate, Told};
use std::alloc::{AllocError, Global};
use std::marker::Model;

/// The numbers of two replies (draft-miller-ssh-agent, "Message numbers").
const SUCCESS: u8 = 6;

const SIGN_RESPONSE: u8 = 14;

/// The clients whose ports are open, each with the request that it waits for, and the keys that were added.
///
/// Its size is that of what these clients sent that isn't answered yet, and of the blobs and comments of keys that were
/// added: a key that was added again counts once.
#[derive(Drop)]
pub struct Book {
    alloc: Global,
    peers: Vec<Peer>,
    keys: Vec<NamedKey>,
}

impl Model for Book {
    ghost use Rattle.log_book.specs.Books.{Book as ABook};

    ghost Value = { ABook };

    ghost view = { λ book. record { peers = book.peers.items; keys = book.keys.items } };
}

// The fate of a request that was refused.
fn refused_by(put: Option<u64>, faults: u64) -> Fate
    ensures { result ≡ refused_by put faults }
{
    match put {
        None => Fate::Refused,
        Some(before) if before == faults => Fate::HelperRefused,
        Some(_) => Fate::HelperLost,
    }
}

// The fate of a signing request by the number of its reply.
fn fate_by(reply: u8, course: Course, faults: u64) -> Fate
    ensures { result ≡ fate_by reply course faults }
{
    match reply {
        SIGN_RESPONSE => Fate::Signed,
        _ => refused_by(course.put, faults),
    }
}

/// What is told of a request besides itself and its key.
#[derive(Clone, Copy)]
struct Facts {
    wall: u64,
    port: u64,
    course: Course,
    fate: Fate,
}

// Tells of a signing request.
fn tell(
    alloc: Global,
    facts: Facts,
    asked: &Asked,
    keys: &[NamedKey],
    told: &mut Vec<Told>,
) -> Result<(), AllocError>
    ensures { OnOk result (told.new.items ≡ told.old.items
        ++ told_by facts.wall facts.port asked.now facts.course facts.fate keys.now) }
{
    let Asked::Signing { blob, message } = asked else {
        return Ok(());
    };
    let comment = comment_of(alloc, keys, blob.as_slice())?;
    let blob = copied(alloc, blob.as_slice())?;
    let message = copied(alloc, message.as_slice())?;
    told.push(Told {
        wall: facts.wall,
        port: facts.port,
        blob,
        comment,
        message,
        course: facts.course,
        fate: facts.fate,
    })?;
    Ok(())
}

// Tells of the request for whose answer a client waits, where its port is closed.
fn tell_leaving(
    alloc: Global,
    wall: u64,
    keys: &[NamedKey],
    left: Option<Peer>,
    told: &mut Vec<Told>,
) -> Result<(), AllocError>
    ensures { OnOk result (told.new.items ≡ told.old.items ++ told_leaving wall keys.now left) }
{
    let Some(peer) = left else {
        return Ok(());
    };
    let facts = Facts {
        wall,
        port: peer.port(),
        course: peer.course(),
        fate: Fate::Left,
    };
    tell(alloc, facts, peer.asked(), keys, told)
}

// The request that was answered added a key.
fn learn(keys: &mut Vec<NamedKey>, asked: Asked, reply: u8) -> Result<(), AllocError>
    ensures { OnOk result (keys.new.items ≡ named_by asked reply keys.old.items) }
{
    match asked {
        Asked::Adding { blob, comment } => {
            if reply == SUCCESS {
                name(keys, blob, comment)?;
            }
            Ok(())
        }
        Asked::Nothing | Asked::Signing { .. } | Asked::Other => Ok(()),
    }
}

// A client is given bytes. Gives the request that they end.
fn give(
    alloc: Global,
    peers: &mut Vec<Peer>,
    wall: u64,
    port: u64,
    bytes: &[u8],
) -> Result<Option<Ended>, AllocError>
    ensures peers { OnOk result
        (peers.new.items ≡ change_peer port (answered wall bytes.now) peers.old.items) }
    ensures ended { IfOk result (λ ended. ended
        ≡ ends_at bytes.now (find_peer port peers.old.items)) }
{
    let Some(place) = place_of(peers, port) else {
        return Ok(None);
    };
    let one = &mut peers[place];
    one.give(alloc, wall, bytes)
}

impl Book {
    /// Takes no memory.
    pub fn new(alloc: Global) -> Book
        ensures { result ≡ new_book }
    {
        Book {
            alloc,
            peers: Vec::new(alloc),
            keys: Vec::new(alloc),
        }
    }

    /// Sees one thing more, and appends what that tells: a signing request whose fate came.
    #[tactic(auto, unfolding(crate::specs::Books::see))]
    pub fn see(&mut self, sight: &Sight, told: &mut Vec<Told>) -> Result<(), AllocError>
        ensures book { OnOk result (self.new ≡ (see sight.now self.old).book) }
        ensures told { OnOk result (told.new.items ≡ told.old.items ++ (see sight.now self.old).told) }
    {
        match &sight.what {
            What::Sent { port, piece } => send(
                self.alloc,
                &mut self.peers,
                sight.wall,
                *port,
                piece.as_slice(),
            ),
            What::Given { port, bytes } => self.give(
                sight.wall,
                sight.faults,
                *port,
                bytes.as_slice(),
                told,
            ),
            What::Raised { port } => {
                raise(&mut self.peers, *port);
                Ok(())
            }
            What::Put { port } => {
                put(&mut self.peers, *port, sight.faults);
                Ok(())
            }
            What::Closed { port } => {
                let left = leave(&mut self.peers, *port);
                tell_leaving(self.alloc, sight.wall, &self.keys, left, told)
            }
        }
    }

    // A client is given bytes.
    fn give(
        &mut self,
        wall: u64,
        faults: u64,
        port: u64,
        bytes: &[u8],
        told: &mut Vec<Told>,
    ) -> Result<(), AllocError>
        ensures book { OnOk result (self.new ≡ (gives wall faults port bytes.now self.old).book) }
        ensures told { OnOk result (told.new.items ≡ told.old.items
            ++ (gives wall faults port bytes.now self.old).told) }
    {
        let Some(ended) = give(self.alloc, &mut self.peers, wall, port, bytes)? else {
            return Ok(());
        };
        let facts = Facts {
            wall,
            port,
            course: ended.course,
            fate: fate_by(ended.reply, ended.course, faults),
        };
        tell(self.alloc, facts, &ended.asked, &self.keys, told)?;
        learn(&mut self.keys, ended.asked, ended.reply)
    }

    /// Sees one thing after another.
    #[tactic(auto, unfolding(crate::specs::Books::see_all))]
    pub fn see_all(&mut self, sights: &[Sight], told: &mut Vec<Told>) -> Result<(), AllocError>
        ensures book { OnOk result (self.new ≡ (see_all sights.now self.old).book) }
        ensures told { OnOk result (told.new.items ≡ told.old.items
            ++ (see_all sights.now self.old).told) }
    {
        'sights: for sight in sights {
            self.see(sight, told)?;
        }
        Ok(())
    }

    /// Appends the signing requests for whose answer clients wait.
    #[tactic(auto, unfolding(crate::specs::Books::open_in))]
    pub fn tell_open(&self, told: &mut Vec<Told>) -> Result<(), AllocError>
        ensures { OnOk result (told.new.items ≡ told.old.items ++ open_in self.now) }
    {
        'peers: for peer in &self.peers {
            let facts = Facts {
                wall: peer.course().since,
                port: peer.port(),
                course: peer.course(),
                fate: Fate::Open,
            };
            tell(self.alloc, facts, peer.asked(), &self.keys, told)?;
        }
        Ok(())
    }
}
