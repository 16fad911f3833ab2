//! What a scripted world has outside, as its cues change it and its calls find it.

ghost use Rattle.std.specs.Prelude.{◌≡◌, ◌++◌, ◌+◌, ◌-◌, ◌^◌, ◌<◌, ◌≤◌, IfOk, length, min, take};
ghost use Rattle.world_ports.specs.Script.{next_accepted, next_got, next_ticket, next_wrote, pipe_of, waiting_at};

use crate::pipe::Pipe;
use crate::{Accepted, Cue, Door, Got, Moment, Ready, Spot, Wrote};
use std::alloc::{AllocError, Global};
use std::collections::{BTreeMap, VecDeque};

#[derive(Drop)]
pub struct Outside {
    alloc: Global,
    pub waiting_clients: u64,
    pub waiting_children: u64,
    pub pipes: BTreeMap<u64, Pipe>,
    pub last_port: u64,
    pub moment: Moment,
    pub tickets: VecDeque<[u8; 16]>,
}

impl Outside {
    pub fn new(alloc: Global) -> Self
        ensures ports { result.last_port ≡ 0 }
        ensures moment { result.moment.mono ≡ 0 }
    {
        Outside {
            alloc,
            waiting_clients: 0,
            waiting_children: 0,
            pipes: BTreeMap::new(alloc),
            last_port: 0,
            moment: Moment { mono: 0, wall: 0 },
            tickets: VecDeque::new(alloc),
        }
    }

    // Lets these things happen in turn, and names in `out` what they made ready.
    pub fn play_all(&mut self, cues: Vec<Cue>, out: &mut Vec<Ready>) -> Result<(), AllocError>
        ensures ports { self.new.last_port ≡ self.old.last_port }
        ensures later { self.old.moment.mono ≤ self.new.moment.mono }
    {
        'cues: for cue in cues {
            self.play(cue, out)?;
        }
        Ok(())
    }

    // Lets one thing happen, and names in `out` what that made ready.
    fn play(&mut self, cue: Cue, out: &mut Vec<Ready>) -> Result<(), AllocError>
        ensures ports { self.new.last_port ≡ self.old.last_port }
        ensures later { self.old.moment.mono ≤ self.new.moment.mono }
    {
        match cue {
            Cue::Connect(door) => {
                self.wait_at(door);
                out.push(Ready {
                    spot: Spot::Door(door),
                    readable: true,
                    writable: false,
                })?;
            }
            Cue::Send { port, bytes } => {
                self.make_pipe(port)?;
                if let Some(pipe) = self.pipes.get_mut(&port) {
                    pipe.send(bytes.as_slice())?;
                    self.tell(port, true, false, out)?;
                }
            }
            Cue::Shut { port } => {
                self.make_pipe(port)?;
                if let Some(pipe) = self.pipes.get_mut(&port) {
                    pipe.shut();
                    self.tell(port, true, false, out)?;
                }
            }
            Cue::Room { port, count } => {
                self.make_pipe(port)?;
                if let Some(pipe) = self.pipes.get_mut(&port) {
                    pipe.add_room(count);
                    self.tell(port, false, true, out)?;
                }
            }
            Cue::Clock { mono, wall } => {
                self.moment = Moment {
                    mono: mono.max(self.moment.mono),
                    wall,
                };
            }
            Cue::Ticket(ticket) => self.tickets.push_back(ticket)?,
        }
        Ok(())
    }

    // A connection that isn't accepted yet is known from the first cue that names it.
    fn make_pipe(&mut self, port: u64) -> Result<(), AllocError>
        ensures { self.new ≡ record self.old { pipes = self.new.pipes } }
    {
        if port > self.last_port && !self.pipes.contains_key(&port) {
            self.pipes.insert(port, Pipe::new(self.alloc))?;
        }
        Ok(())
    }

    fn tell(
        &self,
        port: u64,
        readable: bool,
        writable: bool,
        out: &mut Vec<Ready>,
    ) -> Result<(), AllocError> {
        if port <= self.last_port {
            out.push(Ready {
                spot: Spot::Port(port),
                readable,
                writable,
            })?;
        }
        Ok(())
    }

    fn wait_at(&mut self, door: Door)
        ensures ports { self.new.last_port ≡ self.old.last_port }
        ensures moment { self.new.moment ≡ self.old.moment }
    {
        match door {
            Door::Clients => self.waiting_clients = self.waiting_clients.saturating_add(1),
            Door::Children => self.waiting_children = self.waiting_children.saturating_add(1),
        }
    }

    fn waiting(&self, door: Door) -> u64
        ensures { result ≡ waiting_at self.now.waiting_clients self.now.waiting_children door }
    {
        match door {
            Door::Clients => self.waiting_clients,
            Door::Children => self.waiting_children,
        }
    }

    // What an accept is answered.
    pub fn next_accepted(&self, door: Door) -> Accepted
        requires { self.now.last_port < 2 ^ 64 - 1 }
        ensures { result ≡ next_accepted
            (waiting_at self.now.waiting_clients self.now.waiting_children door)
            self.now.last_port }
    {
        match self.waiting(door) {
            0 => Accepted::NotNow,
            _ => Accepted::Port(self.last_port + 1),
        }
    }

    // Makes the connection's place, if no cue did.
    pub fn make_room(&mut self) -> Result<(), AllocError>
        requires { self.old.last_port < 2 ^ 64 - 1 }
        ensures { self.new ≡ record self.old { pipes = self.new.pipes } }
    {
        self.make_pipe(self.last_port + 1)
    }

    // Takes the connection that waits at a door.
    pub fn admit(&mut self, door: Door)
        requires { self.old.last_port < 2 ^ 64 - 1 }
        ensures ports { self.new.last_port ≡ self.old.last_port + 1 }
        ensures moment { self.new.moment ≡ self.old.moment }
    {
        self.last_port += 1;
        match door {
            Door::Clients => self.waiting_clients = self.waiting_clients.saturating_sub(1),
            Door::Children => self.waiting_children = self.waiting_children.saturating_sub(1),
        }
    }

    // What a read is answered.
    pub fn next_got(&self, port: u64, room: usize) -> Got
        requires { 0 < room }
        ensures { result ≡ next_got (pipe_of self.now.pipes port) room }
    {
        match self.pipes.get(&port) {
            Some(pipe) => pipe.next_got(room),
            None => Got::NotNow,
        }
    }

    // A copy of the first bytes that a port's peer sent and that weren't read yet.
    pub fn front(&self, port: u64, most: usize) -> Result<Vec<u8>, AllocError>
        ensures { IfOk result (λ piece. piece.items ≡ take most (pipe_of self.now.pipes port).left) }
    {
        match self.pipes.get(&port) {
            Some(pipe) => {
                let left = pipe.left();
                Vec::from_slice(self.alloc, &left[..most.min(left.len())])
            }
            None => Ok(Vec::new(self.alloc)),
        }
    }

    // So many bytes of a port are read.
    pub fn skip(&mut self, port: u64, n: usize)
        ensures { self.new ≡ record self.old { pipes = self.new.pipes } }
    {
        if let Some(pipe) = self.pipes.get_mut(&port) {
            pipe.skip(n);
        }
    }

    // What a write is answered.
    pub fn next_wrote(&self, port: u64, len: usize) -> Wrote
        ensures { result ≡ next_wrote (pipe_of self.now.pipes port) len }
    {
        match self.pipes.get(&port) {
            Some(pipe) => pipe.next_wrote(len),
            None => Pipe::new(self.alloc).next_wrote(len),
        }
    }

    // A port takes so many bytes.
    pub fn fill(&mut self, port: u64, n: u32)
        ensures { self.new ≡ record self.old { pipes = self.new.pipes } }
    {
        if let Some(pipe) = self.pipes.get_mut(&port) {
            pipe.fill(n);
        }
    }

    pub fn close(&mut self, port: u64)
        ensures { self.new ≡ record self.old { pipes = self.new.pipes } }
    {
        let _ = self.pipes.remove(&port);
    }

    // The token of the next start.
    pub fn next_ticket(&self) -> [u8; 16]
        ensures { result ≡ next_ticket self.now.tickets.items }
    {
        self.tickets.front().copied().unwrap_or([0; 16])
    }

    pub fn drop_ticket(&mut self)
        ensures { self.new ≡ record self.old { tickets = self.new.tickets } }
    {
        let _ = self.tickets.pop_front();
    }
}
