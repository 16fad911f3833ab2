//! The frames of the helper's stream, one after another.

ghost use Rattle.std.specs.Prelude.{◌≡◌, ◌<◌, ◌≤◌, IfOk, IfErr, MatchOption, MatchResult, OnErr, drop, length, vec_len};
ghost use Rattle.helper_link.specs.Settling.{Settles, Stops, answer_to, find_ask, number_of, settled_ask, settling, verdict};
ghost use Rattle.std.specs.List.{position, remove};
ghost use Rattle.helper_link.specs.HelperLink.{asked_len};
ghost use Rattle.lists.specs.Firsts.{IsFirst};
ghost use Rattle.lists.specs.Keyed.{has_key};
ghost use Rattle.helper_link.specs.Stream.{StopsAt, settled_to};
ghost use Rattle.helper_link.specs.declared.answer.Answer.{Answer as AnAnswer};

use crate::answer::{Answer, Settled};
use crate::ask::{Ask, AskKind};
use crate::fault::LinkFault;
use crate::stop::Stop;
use child_msg::{FromChild, read_from_child};
use frame_core::{Front, LONGEST_BODY, first};
use plain_lists::Bytes;
use std::alloc::{AllocError, Global};

/// What a stream settled.
#[derive(Drop)]
pub struct Settlement {
    pub settled: Vec<Settled>,
    /// How many bytes of the stream were read: all of them where it is faulty.
    pub read: usize,
    pub fault: Option<LinkFault>,
}

/// Settles the whole frames of `stream` in order, up to the first faulty one. `asked` is how many bytes the bodies of
/// the unanswered asks have together, before and afterwards.
pub fn settle_stream(
    alloc: Global,
    stream: &[u8],
    asks: &mut Vec<Ask>,
    asked: &mut usize,
) -> Result<Settlement, AllocError>
    requires { asked.old ≡ asked_len asks.old.items }
    ensures settled { IfOk result (λ end.
        settling stream.now asks.old.items ≡ settled_to stream.now end asks.new.items) }
    ensures read { IfOk result (λ end. end.read ≤ length stream.now) }
    ensures fewer { vec_len asks.new ≤ vec_len asks.old }
    ensures sum { asked.new ≡ asked_len asks.new.items }
{
    let mut settled = Vec::new(alloc);
    let mut at = 0;
    'frames: loop {
        match first(behind(stream, at), LONGEST_BODY) {
            Front::Whole { body, .. } => {
                match settle_frame(alloc, body, asks, asked) {
                    Ok(one) => settled.push(one)?,
                    Err(Stop::Fault(fault)) => return Ok(faulty(stream, settled, fault)),
                    Err(Stop::Memory) => return Err(AllocError),
                }
                at += 4 + body.len();
            }
            Front::Bad { .. } => return Ok(faulty(stream, settled, LinkFault::BadFrame)),
            Front::More => {
                return Ok(Settlement {
                    settled,
                    read: at,
                    fault: None,
                });
            }
        }
    }
}

// The stream behind its first `at` bytes.
fn behind(stream: &[u8], at: usize) -> &[u8]
    requires { at ≤ length stream.now }
    ensures { result.now ≡ drop at stream.now }
{
    &stream[at..]
}

// Nothing is read behind a faulty frame.
fn faulty(stream: &[u8], settled: Vec<Settled>, fault: LinkFault) -> Settlement
    ensures { result ≡ record { settled = settled; read = length stream.now; fault = Some fault } }
{
    Settlement {
        settled,
        read: stream.len(),
        fault: Some(fault),
    }
}

// Settles the ask that a frame of this body answers.
#[tactic(auto, unfolding(crate::specs::Settling::verdict))]
fn settle_frame(
    alloc: Global,
    body: &[u8],
    asks: &mut Vec<Ask>,
    asked: &mut usize,
) -> Result<Settled, Stop>
    requires { asked.old ≡ asked_len asks.old.items }
    ensures settled { IfOk result (λ one.
        verdict body.now asks.old.items ≡ Settles one asks.new.items) }
    ensures stops { IfErr result (λ stop. StopsAt stop (verdict body.now asks.old.items)
        (asks.new.items ≡ asks.old.items)) }
    ensures fewer { vec_len asks.new ≤ vec_len asks.old }
    ensures sum { asked.new ≡ asked_len asks.new.items }
{
    match read_from_child(body) {
        Ok(FromChild::Signed { ask, signature }) => {
            let asker = settle_ask(asks, asked, ask, AskKind::Signing)?;
            let signature = Bytes::from_vec(Vec::from_slice(alloc, signature)?);
            Ok(Settled {
                ask,
                asker,
                answer: Answer::Signed(signature),
            })
        }
        Ok(FromChild::Refused { ask }) => Ok(Settled {
            ask,
            asker: settle_ask(asks, asked, ask, AskKind::Signing)?,
            answer: Answer::Refused,
        }),
        Ok(FromChild::True { ask }) => Ok(Settled {
            ask,
            asker: settle_ask(asks, asked, ask, AskKind::Verifying)?,
            answer: Answer::True,
        }),
        Ok(FromChild::False { ask }) => Ok(Settled {
            ask,
            asker: settle_ask(asks, asked, ask, AskKind::Verifying)?,
            answer: Answer::False,
        }),
        Ok(FromChild::Hello { .. }) => Err(Stop::Fault(LinkFault::BadFrame)),
        Ok(FromChild::Granted { .. }) => Err(Stop::Fault(LinkFault::BadFrame)),
        Ok(FromChild::Denied { .. }) => Err(Stop::Fault(LinkFault::BadFrame)),
        Err(_) => Err(Stop::Fault(LinkFault::BadFrame)),
    }
}

// Takes the ask of this number from those that are unanswered, and gives its asker.
#[tactic(auto, using(lists::proofs::FirstLemmas::found_there, lists::proofs::FirstLemmas::removed_there))]
fn settle_ask(
    asks: &mut Vec<Ask>,
    asked: &mut usize,
    number: u64,
    kind: AskKind,
) -> Result<u64, LinkFault>
    requires { asked.old ≡ asked_len asks.old.items }
    ensures settled { IfOk result (λ asker. (answer : AnAnswer)
        → answer_to kind number answer asks.old.items
        ≡ Settles (settled_ask number asker answer) asks.new.items) }
    ensures stops { IfErr result (λ fault. (answer : AnAnswer)
        → answer_to kind number answer asks.old.items ≡ Stops fault) }
    ensures unchanged { OnErr result (asks.new.items ≡ asks.old.items) }
    ensures fewer { vec_len asks.new ≤ vec_len asks.old }
    ensures sum { asked.new ≡ asked_len asks.new.items }
{
    let Some(place) = place_of(asks, number) else {
        return Err(LinkFault::NotPending { ask: number });
    };
    let asker = asks[place].asker;
    if asks[place].kind != kind {
        return Err(LinkFault::WrongKind { ask: number });
    }
    take_out(asks, asked, place);
    Ok(asker)
}

// Takes out the ask at this place, and its size off the sum.
fn take_out(asks: &mut Vec<Ask>, asked: &mut usize, place: usize)
    requires place { place < vec_len asks.old }
    requires sum { asked.old ≡ asked_len asks.old.items }
    ensures left { asks.new.items ≡ remove asks.old.items place }
    ensures fewer { vec_len asks.new ≤ vec_len asks.old }
    ensures sum { asked.new ≡ asked_len asks.new.items }
{
    let ask = asks.remove(place);
    *asked -= ask.size;
}

// Where the first ask of this number stands.
#[tactic(auto, using(lists::proofs::FirstLemmas::is_place))]
fn place_of(asks: &[Ask], number: u64) -> Option<usize>
    ensures place { MatchOption result (find_ask number asks.now ≡ None)
        (IsFirst (has_key number_of number) asks.now) }
{
    first_of(asks, number)
}

fn first_of(asks: &[Ask], number: u64) -> Option<usize>
    ensures { result ≡ position (has_key number_of number) asks.now }
{
    asks.iter().position(|ask| ask.number == number)
}
