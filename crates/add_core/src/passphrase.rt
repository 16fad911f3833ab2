//! The passphrase that locks the agent, read from the input's first line into wiped memory.

ghost use Rattle.std.specs.Prelude.{◌≡◌, ◌≢◌, ◌⊎◌, ◌∷◌, [], ◌≤◌, ℕ, List, Some, Err, IfOk, MatchOption, MatchResult, length, take};
ghost use Rattle.add_core.specs.Exchanges.{Tells};
ghost use Rattle.add_core.specs.Passphrases.{first_line, passphrase_of};
ghost use Rattle.world_ports.specs.Causes.{Rose};

use crate::fault::{AddFault, Stop};
use secret_buf::ScrubBuf;
use std::alloc::Global;
use world_ports::{Pulled, Source};

/// The most bytes that a passphrase has.
const LONGEST: usize = 1024;

/// Reads a byte. `None` where the input has ended.
fn read_byte<I: Source>(input: &mut I) -> Result<Option<u8>, Stop>
    ensures read { (left : List ℕ) → (I.seen input.old).left ≡ Some left
        → IfOk result (λ read. MatchOption read (left ≡ [])
        (λ byte. (rest : List ℕ) × (left ≡ byte ∷ rest) × ((I.seen input.new).left ≡ Some rest))) }
    ensures later { (I.seen input.old).read_faults ≤ (I.seen input.new).read_faults }
    ensures cause { MatchResult result (λ _. Unit {0})
        (λ stop. (stop ≡ Stop.Fault AddFault.InputFault)
        × Rose (I.seen input.old).read_faults (I.seen input.new).read_faults) }
{
    let mut room = [0u8; 1];
    match input.read(&mut room) {
        Ok(Pulled::Bytes(_)) => Ok(Some(room[0])),
        Ok(Pulled::End) => Ok(None),
        Err(_) => Err(Stop::Fault(AddFault::InputFault)),
    }
}

/// The bytes up to the first LF, the end, or one byte more than a passphrase has.
fn read_line<I: Source>(alloc: Global, input: &mut I) -> Result<ScrubBuf, Stop>
    ensures read { (left : List ℕ) → (I.seen input.old).left ≡ Some left
        → IfOk result (λ line. line.live ≡ take 1025 (first_line left)) }
    ensures later { (I.seen input.old).read_faults ≤ (I.seen input.new).read_faults }
    ensures cause { MatchResult result (λ _. Unit {0}) (λ stop. (stop ≡ Stop.Memory)
        ⊎ ((stop ≡ Stop.Fault AddFault.InputFault)
        × Rose (I.seen input.old).read_faults (I.seen input.new).read_faults)) }
{
    let mut line = ScrubBuf::new(alloc);
    'bytes: while line.live().len() <= LONGEST {
        let Some(byte) = read_byte(input)? else {
            return Ok(line);
        };
        if byte == b'\n' {
            return Ok(line);
        }
        line.push_slice(&[byte])?;
    }
    Ok(line)
}

/// Reads the passphrase: the input's bytes up to its first LF or its end.
pub fn read_passphrase<I: Source>(alloc: Global, input: &mut I) -> Result<ScrubBuf, Stop>
    ensures told { (left : List ℕ) → (I.seen input.old).left ≡ Some left
        → Tells (λ passphrase. passphrase.live) result (passphrase_of left) }
    ensures later { (I.seen input.old).read_faults ≤ (I.seen input.new).read_faults }
    ensures cause { result ≡ Err (Stop.Fault AddFault.InputFault)
        → Rose (I.seen input.old).read_faults (I.seen input.new).read_faults }
    ensures fits { IfOk result (λ passphrase. length passphrase.live ≤ 1024) }
    ensures own { (result ≢ Err (Stop.Fault AddFault.OutputFault))
        × (result ≢ Err (Stop.Fault AddFault.PeerFault)) }
    ensures files { (place : ℕ) → result ≢ Err (Stop.Fault (AddFault.File place)) }
{
    let line = read_line(alloc, input)?;
    let len = line.live().len();
    if len == 0 {
        Err(Stop::Fault(AddFault::EmptyPassphrase))
    } else if len > LONGEST {
        Err(Stop::Fault(AddFault::LongPassphrase))
    } else {
        Ok(line)
    }
}
