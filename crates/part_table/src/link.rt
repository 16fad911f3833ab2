//! The link to the helper.

ghost use Rattle.std.specs.Prelude.{◌≢◌, IsTrue};
ghost use Rattle.helper_link.specs.HelperLink.{ArePutBy};

use crate::input::{number, short};
use crate::streams;
use bstr::ByteSlice;
use helper_link::{Answer, Ask, AskFault, Link, LinkState, Settled, Told};
use secret_buf::SecretBytes;
use std::alloc::Global;

/// The longest field of an ask.
const LONGEST: usize = 1000;

pub(crate) fn of_link(
    alloc: Global,
    link: &mut Link,
    verb: &str,
    words: &[Vec<u8>],
) -> Option<String> {
    match verb {
        "new" => {
            *link = Link::new(alloc);
            String::from_str(alloc, "new").ok()
        }
        "sign" => said_asked(alloc, sign(alloc, link, words)?),
        "verify" => said_asked(alloc, verify(link, words)?),
        "tell" => tell(alloc, link, words.first()?),
        "lose" => lose(alloc, link),
        "owed" => format!(in alloc; "'{}'", link.owed().escape_bytes()).ok(),
        "state" => said_state(alloc, link),
        _ => by_number(alloc, link, verb, number(words.first()?)?),
    }
}

fn by_number(alloc: Global, link: &mut Link, verb: &str, value: u64) -> Option<String> {
    match verb {
        "begin" => {
            link.begin(value);
            said_how_far(alloc, link)
        }
        "linked" => linked(alloc, link, value),
        "took" => took(alloc, link, value as usize),
        "verified" => streams::verified(alloc, value as usize),
        "signed" => streams::signed(alloc, value as usize),
        _ => None,
    }
}

fn said_how_far(alloc: Global, link: &Link) -> Option<String> {
    format!(in alloc; "{:?}", link.state()).ok()
}

fn said_state(alloc: Global, link: &Link) -> Option<String> {
    format!(in alloc;
        "{:?} oldest: {:?} faults: {} spent: {}",
        link.state(),
        link.oldest(),
        link.faults(),
        link.spent()
    )
    .ok()
}

fn linked(alloc: Global, link: &mut Link, port: u64) -> Option<String> {
    match link.state() {
        LinkState::Starting { .. } => {
            link.linked(port);
            said_how_far(alloc, link)
        }
        _ => None,
    }
}

/// Whether an ask may be put in this second: a helper is there or coming, and no ask was put later.
pub(crate) fn may_ask(link: &Link, now: u64) -> bool
    ensures state { IsTrue result → link.now.state ≢ LinkState.None }
    ensures later { IsTrue result → ArePutBy now link.now.asks }
{
    if link.state() == LinkState::None {
        return false;
    }
    match link.newest() {
        None => true,
        Some(newest) => newest.put_at <= now,
    }
}

/// `ASKER PRIVATE BLOB MESSAGE FLAGS NOW`
fn sign(alloc: Global, link: &mut Link, words: &[Vec<u8>]) -> Option<Result<u64, AskFault>> {
    let [asker, private, blob, message, flags, now] = words else {
        return None;
    };
    let (asker, flags, now) = (number(asker)?, short(flags)?, number(now)?);
    if private.len() > LONGEST || blob.len() > LONGEST || message.len() > LONGEST {
        return None;
    }
    if !may_ask(link, now) {
        return None;
    }
    let private = SecretBytes::from_slice(alloc, private).ok()?;
    Some(link.ask_sign(asker, &private, blob, message, flags, now))
}

/// `ASKER BLOB SIGNATURE SESSION NOW`
fn verify(link: &mut Link, words: &[Vec<u8>]) -> Option<Result<u64, AskFault>> {
    let [asker, blob, signature, session, now] = words else {
        return None;
    };
    let (asker, now) = (number(asker)?, number(now)?);
    if blob.len() > LONGEST || signature.len() > LONGEST || session.len() > LONGEST {
        return None;
    }
    if !may_ask(link, now) {
        return None;
    }
    Some(link.ask_verify(asker, blob, signature, session, now))
}

fn said_asked(alloc: Global, asked: Result<u64, AskFault>) -> Option<String> {
    format!(in alloc; "{asked:?}").ok()
}

fn took(alloc: Global, link: &mut Link, count: usize) -> Option<String> {
    if count > link.owed().len() {
        return None;
    }
    link.took(count);
    String::from_str(alloc, "took").ok()
}

fn tell(alloc: Global, link: &mut Link, piece: &[u8]) -> Option<String> {
    match link.state() {
        LinkState::Linked { .. } => said_told(alloc, &link.told(piece).ok()?),
        _ => None,
    }
}

fn said_told(alloc: Global, told: &Told) -> Option<String> {
    let mut said = String::new(alloc);
    put_settled(alloc, &mut said, told.settled.as_slice())?;
    put_text(
        &mut said,
        format!(in alloc; "fault: {:?}", told.fault).ok()?,
    )?;
    Some(said)
}

fn put_text(said: &mut String, text: String) -> Option<()> {
    said.push_str(text.as_str()).ok()
}

fn put_settled(alloc: Global, said: &mut String, settled: &[Settled]) -> Option<()> {
    for one in settled {
        put_text(said, said_settled(alloc, one)?)?;
    }
    Some(())
}

fn said_settled(alloc: Global, one: &Settled) -> Option<String> {
    let (ask, asker) = (one.ask, one.asker);
    match &one.answer {
        Answer::Signed(signature) => {
            let text = signature.as_slice().escape_bytes();
            format!(in alloc; "{ask} of {asker}: signed '{text}', ").ok()
        }
        Answer::Refused => format!(in alloc; "{ask} of {asker}: refused, ").ok(),
        Answer::True => format!(in alloc; "{ask} of {asker}: true, ").ok(),
        Answer::False => format!(in alloc; "{ask} of {asker}: false, ").ok(),
    }
}

fn lose(alloc: Global, link: &mut Link) -> Option<String> {
    if link.state() == LinkState::None {
        return None;
    }
    said_askers(alloc, &link.lose())
}

fn said_askers(alloc: Global, failed: &[Ask]) -> Option<String> {
    let mut said = String::from_str(alloc, "failed:").ok()?;
    put_askers(alloc, &mut said, failed)?;
    Some(said)
}

fn put_askers(alloc: Global, said: &mut String, failed: &[Ask]) -> Option<()> {
    for ask in failed {
        let text = format!(in alloc; " {} of {}", ask.number, ask.asker).ok()?;
        put_text(said, text)?;
    }
    Some(())
}
