//! How the program ends.

ghost use Rattle.std.specs.Prelude.{◌≡◌};
ghost use Rattle.agent_top.specs.Program.{code_of};

use schedule_text::LineFault;
use thiserror::Error;

/// How a run of the program ended, in words for whoever started it. The exit statuses are 0 to 8 in this order.
#[derive(Clone, Copy, Debug, PartialEq, Eq, Error)]
pub enum Status {
    /// All was done.
    #[error("done")]
    Done,
    /// This line of the schedule, counted from 1, is refused.
    #[error("line {line} is refused: {}", told(.fault))]
    ScheduleRefused { line: u64, fault: LineFault },
    /// The words are none that the program takes.
    #[error("usage: agent_prog serve -a PATH --helper PROGRAM [--helper-data PATH] [--relay PROGRAM --askpass PROGRAM] [-t LIFE] [--confirm-limit SECONDS] [--record [--record-or-stop]] [--until-idle], or agent_prog replay [-t LIFE] [--confirm-limit SECONDS], or agent_prog drill N SEED")]
    Usage,
    /// A socket could not be bound.
    #[error("a socket could not be bound")]
    BindFault,
    /// Waiting for the sockets failed.
    #[error("waiting for the sockets failed")]
    PollFault,
    /// Memory ran out. Says nothing of the input.
    #[error("out of memory")]
    Memory,
    /// The input could not be read.
    #[error("the input could not be read")]
    ReadFault,
    /// The output could not be written.
    #[error("the output could not be written")]
    WriteFault,
    /// The record ended, and the agent with it: memory ran out in one of its calls, or it could hold no more and the
    /// agent was to stop then.
    #[error("the record ended, and the agent with it")]
    RecordFault,
}

// What a line's fault is.
fn told(fault: &LineFault) -> &'static str {
    match fault {
        LineFault::Word => "no such line",
        LineFault::Number => "not a number",
        LineFault::Hex => "not hexadecimal",
        LineFault::UnknownPort => "no such port",
        LineFault::Order => "more than the port is owed",
        LineFault::TooLong => "too long",
        LineFault::Memory => "out of memory",
    }
}

impl Status {
    /// The exit status.
    pub fn code(self) -> u8
        ensures { result ≡ code_of self }
    {
        match self {
            Status::Done => 0,
            Status::ScheduleRefused { .. } => 1,
            Status::Usage => 2,
            Status::BindFault => 3,
            Status::PollFault => 4,
            Status::Memory => 5,
            Status::ReadFault => 6,
            Status::WriteFault => 7,
            Status::RecordFault => 8,
        }
    }
}
