//! An accepted connection, with the bytes that came of it and aren't recorded yet.

ghost use Rattle.std.specs.Prelude.{◌≡◌, ◌++◌, Err, OnOk, OnErr, false, length, true, []};
ghost use Rattle.redact_core.specs.Redaction.{is_over};
ghost use Rattle.redact_core.specs.declared.fault.RedactFault.TheVariants.{Full};
ghost use Rattle.record_world.specs.Recording.{held, new_port, number_of, taken};

use crate::frames::take_frames;
use redact_core::{Passphrases, RedactFault};
use secret_buf::ScrubBuf;
use std::alloc::{AllocError, Global};
use std::marker::Model;
use world_ports::Door;

/// A connection that was accepted and isn't closed. What came of a client and isn't recorded may hold
/// secrets: it stands in a buffer that is wiped.
#[derive(Drop)]
pub struct Peer {
    number: u64,
    door: Door,
    unrecorded: ScrubBuf,
    is_held: bool,
    is_bad: bool,
}

impl Model for Peer {
    ghost use Rattle.record_world.specs.Recording.{Port};

    ghost Value = { Port };

    ghost view = { λ p. record {
      number = p.number;
      door = p.door;
      unrecorded = p.unrecorded.live;
      is_held = p.is_held;
      is_bad = p.is_bad;
    } };
}

impl Peer {
    /// Takes no memory.
    pub fn new(alloc: Global, number: u64, door: Door) -> Peer
        ensures { result ≡ new_port number door }
    {
        Peer {
            number,
            door,
            unrecorded: ScrubBuf::new(alloc),
            is_held: false,
            is_bad: false,
        }
    }

    pub fn number(&self) -> u64
        ensures { result ≡ number_of self.now }
    {
        self.number
    }

    pub fn is_held(&self) -> bool
        ensures { result ≡ self.now.is_held }
    {
        self.is_held
    }

    /// Makes room for a client's piece of so many bytes.
    pub fn reserve(&mut self, room: usize) -> Result<(), AllocError>
        ensures { self.new ≡ self.old }
    {
        match self.door {
            Door::Clients => self.unrecorded.reserve(room),
            Door::Children => Ok(()),
        }
    }

    /// Takes in a piece, and appends to `leaving` what may be recorded of it by now.
    #[tactic(auto, using(crate::proofs::FrameLemmas::client_bad, crate::proofs::FrameLemmas::client_good, crate::proofs::FrameLemmas::client_full))]
    pub fn take_in(
        &mut self,
        piece: &[u8],
        passphrases: &mut Passphrases,
        leaving: &mut Vec<u8>,
    ) -> Result<(), RedactFault>
        ensures port { OnOk result (self.new ≡ (taken self.old piece.now passphrases.old).port) }
        ensures passphrases { OnOk result
            (passphrases.new ≡ (taken self.old piece.now passphrases.old).passphrases) }
        ensures leaving { OnOk result (leaving.new.items
            ≡ leaving.old.items ++ (taken self.old piece.now passphrases.old).bytes) }
        ensures full { result ≡ Err Full → is_over (taken self.old piece.now passphrases.old).passphrases ≡ true }
        ensures fits { OnOk result (is_over passphrases.old ≡ false → is_over passphrases.new ≡ false) }
    {
        match self.door {
            Door::Children => {
                leaving.extend_from_slice(piece)?;
                Ok(())
            }
            Door::Clients if self.is_bad => Ok(()),
            Door::Clients => {
                self.unrecorded.push_slice(piece)?;
                if take_frames(&mut self.unrecorded, passphrases, leaving)? {
                    self.unrecorded.wipe();
                    self.is_bad = true;
                }
                Ok(())
            }
        }
    }

    /// These bytes are recorded.
    pub fn hold(&mut self, bytes: &[u8])
        ensures { self.new ≡ held bytes.now self.old }
    {
        self.is_held = self.is_held || !bytes.is_empty();
    }
}
