//! The events that a filter handles one by one: of its clients and of the agent behind.

use pair_ports::Side;

/// What happens to a filter: the atomic step of its pairs. Prints nothing, since it carries what clients sent.
#[derive(Clone, Copy)]
pub enum FilterEvent<'a> {
    /// A client connected. The new pair has the next number, from 1.
    Joined,
    /// The pair was connected to the agent behind.
    Connected {
        pair: u64,
    },
    /// The next bytes of a side, in a piece of any length.
    Heard {
        pair: u64,
        side: Side,
        piece: &'a [u8],
    },
    /// A side took so many bytes of those that it is owed, from their front.
    Took {
        pair: u64,
        side: Side,
        count: usize,
    },
    /// The connection to the agent behind has ended, or could not be read or written.
    Lost {
        pair: u64,
    },
    /// The client has ended, or could not be read or written, or the agent behind refused a connection.
    Ended {
        pair: u64,
    },
}
