//! A recorder's memory between two calls: its connections, its passphrases, and a line due.

ghost use Rattle.std.specs.Prelude.{◌≡◌, ◌++◌, Err, MatchOption, None, OnOk, [], ◌∷◌, false, not, length, true};
ghost use Rattle.std.specs.List.{position};
ghost use Rattle.lists.specs.Firsts.{IsFirst};
ghost use Rattle.lists.specs.Keyed.{has_key, remove_by};
ghost use Rattle.schedule_text.specs.declared.step.Step.TheVariants as steps;
ghost use Rattle.redact_core.specs.Redaction.{is_over};
ghost use Rattle.redact_core.specs.declared.fault.RedactFault.TheVariants.{Full};
ghost use Rattle.record_world.specs.Dues.{due_text};
ghost use Rattle.record_world.specs.Recording.{find_port, first_recording, hear_lines, heard, held, is_full, lines, new_port, number_of, only, taken, with_due};

use crate::due::Due;
use crate::hears::put_hearing;
use crate::peer::Peer;
use redact_core::{Passphrases, RedactFault};
use std::alloc::{AllocError, Global};
use std::marker::Model;
use world_ports::Door;

/// What a recorder keeps between two calls. Dropping it wipes the bytes that aren't recorded, and
/// the passphrases.
#[derive(Drop)]
pub struct Notes {
    alloc: Global,
    is_bound: bool,
    peers: Vec<Peer>,
    passphrases: Passphrases,
    due: Due,
    // The lines of what was heard last.
    hearing: Vec<u8>,
}

impl Model for Notes {
    ghost use Rattle.std.specs.Prelude.{◌++◌};
    ghost use Rattle.record_world.specs.Dues.{due_text};
    ghost use Rattle.record_world.specs.Recording.{Recording};

    ghost Value = { Recording };

    ghost view = { λ n. record {
      is_bound = n.is_bound;
      ports = n.peers.items;
      passphrases = n.passphrases;
      due = due_text n.due ++ n.hearing.items;
    } };
}

// Where the connection of this number stands.
#[tactic(auto, using(lists::proofs::FirstLemmas::is_place))]
fn place_of(peers: &[Peer], number: u64) -> Option<usize>
    ensures { MatchOption result (find_port number peers.now ≡ None)
        (IsFirst (has_key number_of number) peers.now) }
{
    first_of(peers, number)
}

fn first_of(peers: &[Peer], number: u64) -> Option<usize>
    ensures { result ≡ position (has_key number_of number) peers.now }
{
    peers.iter().position(|peer| peer.number() == number)
}

// What is kept of a closed connection goes, and is wiped.
#[tactic(auto, using(lists::proofs::FirstLemmas::removed_there, lists::proofs::FirstLemmas::removed_nowhere))]
fn forget(peers: &mut Vec<Peer>, number: u64)
    ensures { peers.new.items ≡ remove_by number_of number peers.old.items }
{
    if let Some(place) = place_of(peers, number) {
        peers.remove(place);
    }
}

impl Notes {
    /// Takes no memory.
    pub fn new(alloc: Global) -> Notes
        ensures { result ≡ first_recording }
    {
        Notes {
            alloc,
            is_bound: false,
            peers: Vec::new(alloc),
            passphrases: Passphrases::new(alloc),
            due: Due::Nothing,
            hearing: Vec::new(alloc),
        }
    }

    /// What waits for a moment: a short line, and the lines of what was heard.
    pub fn due(&self) -> (&Due, &[u8])
        ensures { self.now.due ≡ due_text result.0.now ++ result.1.now }
    {
        (&self.due, &self.hearing)
    }

    // Nothing waits but this.
    fn wait(&mut self, due: Due)
        ensures { self.new ≡ record self.old { due = due_text due } }
    {
        self.hearing.clear();
        self.due = due;
    }

    /// A bind; tells whether it is the first.
    pub fn bind(&mut self) -> bool
        ensures first { result ≡ not self.old.is_bound }
        ensures kept { self.new ≡ with_due (only [] (record self.old { is_bound = true })) }
    {
        let is_first = !self.is_bound;
        self.is_bound = true;
        self.wait(Due::Nothing);
        is_first
    }

    /// A call without lines.
    pub fn pass(&mut self)
        ensures { self.new ≡ with_due (only [] self.old) }
    {
        self.wait(Due::Nothing);
    }

    /// Makes room for one connection more.
    pub fn make_place(&mut self) -> Result<(), AllocError>
        ensures { self.new ≡ self.old }
    {
        self.peers.reserve(1)
    }

    /// A connection was accepted.
    pub fn join(&mut self, door: Door, number: u64) -> Result<(), AllocError>
        ensures { OnOk result (self.new ≡ with_due (only (steps.Join door ∷ [])
            (record self.old { ports = self.old.ports ++ new_port number door ∷ [] }))) }
    {
        self.peers.push(Peer::new(self.alloc, number, door))?;
        self.wait(Due::Join(door));
        Ok(())
    }

    /// Makes room for so many bytes of a connection.
    pub fn make_room(&mut self, number: u64, room: usize) -> Result<(), AllocError>
        ensures { self.new ≡ self.old }
    {
        match place_of(&self.peers, number) {
            Some(place) => {
                let peer = &mut self.peers[place];
                peer.reserve(room)
            }
            None => Ok(()),
        }
    }

    /// Bytes came from a connection.
    pub fn hear(&mut self, number: u64, piece: &[u8]) -> Result<(), RedactFault>
        ensures kept { OnOk result
            (self.new ≡ with_due (heard (find_port number self.old.ports) piece.now self.old)) }
        ensures full { result ≡ Err Full
            → is_full (heard (find_port number self.old.ports) piece.now self.old).kept ≡ true }
        ensures fits { OnOk result (is_full self.old ≡ false → is_full self.new ≡ false) }
    {
        self.wait(Due::Nothing);
        match place_of(&self.peers, number) {
            Some(place) => {
                let peer = &mut self.peers[place];
                let mut leaving = Vec::new(self.alloc);
                hear(
                    peer,
                    piece,
                    &mut self.passphrases,
                    &mut leaving,
                    &mut self.hearing,
                )
            }
            None => Ok(()),
        }
    }

    /// A connection took bytes.
    pub fn take(&mut self, port: u64, count: u32)
        ensures { self.new ≡ with_due (only (steps.Take port count ∷ []) self.old) }
    {
        self.wait(Due::Take { port, count });
    }

    /// A connection sends no more, or failed.
    pub fn end(&mut self, port: u64)
        ensures { self.new ≡ with_due (only (steps.End port ∷ []) self.old) }
    {
        self.wait(Due::End(port));
    }

    /// A connection was closed.
    pub fn close(&mut self, port: u64)
        ensures { self.new ≡ with_due (only [] (record self.old { ports = remove_by number_of port self.old.ports })) }
    {
        forget(&mut self.peers, port);
        self.wait(Due::Nothing);
    }

    /// A child process was started.
    pub fn start(&mut self, job: u64, ticket: [u8; 16])
        ensures { self.new ≡ with_due (only (steps.Started job ticket ∷ []) self.old) }
    {
        self.wait(Due::Started { job, ticket });
    }

    /// A child process couldn't be started.
    pub fn fail(&mut self, job: u64)
        ensures { self.new ≡ with_due (only (steps.Failed job ∷ []) self.old) }
    {
        self.wait(Due::Failed(job));
    }
}

// A connection takes in a piece, and the lines of what may be recorded of it by now are appended to
// `text`.
fn hear(
    peer: &mut Peer,
    piece: &[u8],
    passphrases: &mut Passphrases,
    leaving: &mut Vec<u8>,
    text: &mut Vec<u8>,
) -> Result<(), RedactFault>
    requires { leaving.old.items ≡ [] }
    ensures port { OnOk result (peer.new
        ≡ held (taken peer.old piece.now passphrases.old).bytes (taken peer.old piece.now passphrases.old).port) }
    ensures passphrases { OnOk result (passphrases.new ≡ (taken peer.old piece.now passphrases.old).passphrases) }
    ensures text { OnOk result (text.new.items ≡ text.old.items
        ++ lines (hear_lines (taken peer.old piece.now passphrases.old))) }
    ensures full { result ≡ Err Full → is_over (taken peer.old piece.now passphrases.old).passphrases ≡ true }
    ensures fits { OnOk result (is_over passphrases.old ≡ false → is_over passphrases.new ≡ false) }
{
    peer.take_in(piece, passphrases, leaving)?;
    put_hearing(text, peer.is_held(), peer.number(), leaving)?;
    peer.hold(leaving);
    Ok(())
}
