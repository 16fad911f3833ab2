//! Writes the lines of a record that fit 128 bytes: `at`, and that of the last call.

ghost use Rattle.std.specs.Prelude.{◌≡◌, ◌≤◌, ◌+◌, ◌++◌, codes, decimal, length};
ghost use Rattle.arrayvec.specs.ArrayVec.{array_vec_len};
ghost use Rattle.hex.specs.Hex.{encode_lower};
ghost use Rattle.schedule_text.specs.declared.step.Step.TheVariants as steps;
ghost use Rattle.schedule_text.specs.Steps.{step_line};
ghost use Rattle.record_world.specs.Dues.{due_text};

use crate::due::Due;
use arrayvec::ArrayVec;
use itoa::Buffer;
use world_ports::{Door, Moment};

/// Room for a line `at` and a line of the last call, in bytes.
pub type Line = ArrayVec<u8, 128>;

// Appends bytes, for which there is room.
fn put(line: &mut ArrayVec<u8, 128>, bytes: &[u8])
    requires { array_vec_len line.old + length bytes.now ≤ 128 }
    ensures items { line.new.items ≡ line.old.items ++ bytes.now }
    ensures len { array_vec_len line.new ≡ array_vec_len line.old + length bytes.now }
{
    let Ok(()) = line.try_extend_from_slice(bytes) else {
        unreachable!()
    };
}

// Appends a number in decimal, which has at most 20 digits.
fn put_number(line: &mut ArrayVec<u8, 128>, number: u64)
    requires { array_vec_len line.old + 20 ≤ 128 }
    ensures items { line.new.items ≡ line.old.items ++ decimal number }
    ensures len { array_vec_len line.new ≤ array_vec_len line.old + 20 }
{
    let mut digits = Buffer::new();
    put(line, digits.format(number).as_bytes());
}

// Appends a one-time token in hexadecimal.
fn put_ticket(line: &mut ArrayVec<u8, 128>, ticket: &[u8; 16])
    requires { array_vec_len line.old + 32 ≤ 128 }
    ensures items { line.new.items ≡ line.old.items ++ encode_lower ticket.now }
    ensures len { array_vec_len line.new ≡ array_vec_len line.old + 32 }
{
    let mut digits = [0; 32];
    let Ok(()) = hex::encode_to_slice(ticket, &mut digits) else {
        unreachable!()
    };
    put(line, &digits);
}

/// Appends the line of a moment, of at most 45 bytes.
#[tactic(auto, unfolding(schedule_text::specs::Steps::step_line))]
pub fn put_at(line: &mut ArrayVec<u8, 128>, moment: Moment)
    requires { array_vec_len line.old + 45 ≤ 128 }
    ensures items { line.new.items ≡ line.old.items ++ step_line (steps.At moment) }
    ensures len { array_vec_len line.new ≤ array_vec_len line.old + 45 }
{
    put(line, b"at ");
    put_number(line, moment.mono);
    put(line, b" ");
    put_number(line, moment.wall);
    put(line, b"\n");
}

// Appends a word of at most 8 bytes, a number and the line's end.
fn put_one(line: &mut ArrayVec<u8, 128>, word: &[u8], number: u64)
    requires room { array_vec_len line.old + 29 ≤ 128 }
    requires short { length word.now ≤ 8 }
    ensures items { line.new.items ≡ (line.old.items ++ word.now ++ decimal number) ++ codes "\n" }
{
    put(line, word);
    put_number(line, number);
    put(line, b"\n");
}

/// Appends the line of the last call.
#[tactic(auto, unfolding(schedule_text::specs::Steps::step_line))]
pub fn put_due(line: &mut ArrayVec<u8, 128>, due: &Due)
    requires { array_vec_len line.old + 62 ≤ 128 }
    ensures { line.new.items ≡ line.old.items ++ due_text due.now }
{
    match *due {
        Due::Nothing => {}
        Due::Join(Door::Clients) => put(line, b"join client\n"),
        Due::Join(Door::Children) => put(line, b"join child\n"),
        Due::End(port) => put_one(line, b"end ", port),
        Due::Take { port, count } => put_take(line, port, count),
        Due::Started { job, ticket } => put_started(line, job, &ticket),
        Due::Failed(job) => put_one(line, b"failed ", job),
    }
}

#[tactic(auto, unfolding(schedule_text::specs::Steps::step_line))]
fn put_take(line: &mut ArrayVec<u8, 128>, port: u64, count: u32)
    requires { array_vec_len line.old + 47 ≤ 128 }
    ensures { line.new.items ≡ line.old.items ++ step_line (steps.Take port count) }
{
    put(line, b"take ");
    put_number(line, port);
    put(line, b" ");
    put_number(line, u64::from(count));
    put(line, b"\n");
}

#[tactic(auto, unfolding(schedule_text::specs::Steps::step_line))]
fn put_started(line: &mut ArrayVec<u8, 128>, job: u64, ticket: &[u8; 16])
    requires { array_vec_len line.old + 62 ≤ 128 }
    ensures { line.new.items ≡ line.old.items ++ step_line (steps.Started job ticket.now) }
{
    put(line, b"started ");
    put_number(line, job);
    put(line, b" ");
    put_ticket(line, ticket);
    put(line, b"\n");
}
