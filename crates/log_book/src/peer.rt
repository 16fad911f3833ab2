//! A client, as far as it was seen.

ghost use Rattle.std.specs.Prelude.{◌≡◌, ◌++◌, IfOk, OnOk};
ghost use Rattle.log_book.specs.Peers.{answered, ended_by, looked, new_peer, put_at, raised_at, sent_more};

use crate::asked::{asked_in, first_byte, next_in};
use crate::told::{Asked, Course};
use std::alloc::{AllocError, Global};
use std::marker::Model;
use std::mem;

/// A client: what it sent and nothing has read yet, what it was given of a reply, and the request that it waits for.
#[derive(Drop)]
pub struct Peer {
    port: u64,
    sent: Vec<u8>,
    given: Vec<u8>,
    asked: Asked,
    course: Course,
}

impl Model for Peer {
    ghost use Rattle.log_book.specs.Peers.{Peer as APeer};

    ghost Value = { APeer };

    ghost view = { λ p. record {
      port = p.port;
      sent = p.sent.items;
      given = p.given.items;
      asked = p.asked;
      course = p.course;
    } };
}

/// A request that a client was answered, and the number of the reply.
#[derive(Drop)]
pub struct Ended {
    pub asked: Asked,
    pub course: Course,
    pub reply: u8,
}

impl Peer {
    pub fn new(alloc: Global, port: u64) -> Peer
        ensures { result ≡ new_peer port }
    {
        Peer {
            port,
            sent: Vec::new(alloc),
            given: Vec::new(alloc),
            asked: Asked::Nothing,
            course: Course {
                since: 0,
                raised: false,
                put: None,
            },
        }
    }

    pub fn port(&self) -> u64
        ensures { result ≡ self.now.port }
    {
        self.port
    }

    pub fn asked(&self) -> &Asked
        ensures { result.now ≡ self.now.asked }
    {
        &self.asked
    }

    pub fn course(&self) -> Course
        ensures { result ≡ self.now.course }
    {
        self.course
    }

    /// The client sent more.
    pub fn send(&mut self, alloc: Global, wall: u64, piece: &[u8]) -> Result<(), AllocError>
        ensures { OnOk result (self.new ≡ looked wall (sent_more piece.now self.old)) }
    {
        self.sent.extend_from_slice(piece)?;
        self.look(alloc, wall)
    }

    // Reads the next request, where none is under way and one is whole.
    #[tactic(auto, unfolding(crate::specs::Peers::looked))]
    fn look(&mut self, alloc: Global, wall: u64) -> Result<(), AllocError>
        ensures { OnOk result (self.new ≡ looked wall self.old) }
    {
        let Asked::Nothing = self.asked else {
            return Ok(());
        };
        let Some((body, rest)) = next_in(&self.sent) else {
            return Ok(());
        };
        let asked = asked_in(alloc, body)?;
        let rest = Vec::from_slice(alloc, rest)?;
        self.asked = asked;
        self.sent = rest;
        self.course = Course {
            since: wall,
            raised: false,
            put: None,
        };
        Ok(())
    }

    /// The client was given more of a reply. A whole one ends its request, and the next one is read.
    #[tactic(auto, unfolding(crate::specs::Peers::answered, crate::specs::Peers::ended_by))]
    pub fn give(
        &mut self,
        alloc: Global,
        wall: u64,
        bytes: &[u8],
    ) -> Result<Option<Ended>, AllocError>
        ensures peer { OnOk result (self.new ≡ answered wall bytes.now self.old) }
        ensures ended { IfOk result (λ ended. ended ≡ ended_by bytes.now self.old) }
    {
        self.given.extend_from_slice(bytes)?;
        let Some((body, rest)) = next_in(&self.given) else {
            return Ok(None);
        };
        let reply = first_byte(body);
        let rest = Vec::from_slice(alloc, rest)?;
        self.given = rest;
        let asked = mem::replace(&mut self.asked, Asked::Nothing);
        let course = self.course;
        self.look(alloc, wall)?;
        Ok(Some(Ended {
            asked,
            course,
            reply,
        }))
    }

    /// The user is asked about the request.
    pub fn raise(&mut self)
        ensures { self.new ≡ raised_at self.old }
    {
        self.course.raised = true;
    }

    /// The request was put to the helper, when so many were lost.
    pub fn put(&mut self, faults: u64)
        ensures { self.new ≡ put_at faults self.old }
    {
        self.course.put = Some(faults);
    }
}
