//! A client's connection with the one behind it, and the tokens by which epoll names them.

use mio::Token;
use pair_ports::Side;
use unix_world::Port;

/// The listener's token. No pair has the number 0.
pub const LISTENER: Token = Token(0);

// No pair has a number from here on: each side has a token.
pub const PAST_LAST: u64 = 1 << 62;

/// A client's connection, and at times one to the agent behind.
#[derive(Drop)]
pub struct Connected {
    client: Port,
    upstream: Option<Port>,
}

impl Connected {
    pub fn new(client: Port) -> Connected {
        Connected {
            client,
            upstream: None,
        }
    }

    /// The connection of a side, where there is one.
    pub fn side(&mut self, side: Side) -> Option<&mut Port> {
        match side {
            Side::Client => Some(&mut self.client),
            Side::Upstream => self.upstream.as_mut(),
        }
    }

    /// The connection to the agent behind was made.
    pub fn link(&mut self, upstream: Port) {
        self.upstream = Some(upstream);
    }

    /// The connection to the agent behind is closed.
    pub fn part(&mut self) {
        self.upstream = None;
    }
}

/// The token of a side.
pub fn token_of(pair: u64, side: Side) -> Token {
    let bit = match side {
        Side::Client => 0,
        Side::Upstream => 1,
    };
    Token((pair % PAST_LAST * 2 + bit) as usize)
}

/// The pair and the side of a token.
pub fn side_of(token: Token) -> (u64, Side) {
    let Token(number) = token;
    let side = match number % 2 {
        0 => Side::Client,
        _ => Side::Upstream,
    };
    ((number / 2) as u64, side)
}
