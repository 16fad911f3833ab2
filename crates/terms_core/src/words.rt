//! The words of the program: which terms the keys are to have more, where the client connects, and where the
//! agent listens.

ghost use Rattle.std.specs.Prelude.{◌≡◌, ◌≤◌, ◌∷◌, [], IfOk, length, map, string_bytes, true};
ghost use Rattle.add_words.specs.Counts.{IsCount};
ghost use Rattle.add_words.specs.Words.{plain_words};
ghost use Rattle.constraint_rec.specs.Writing.{AreNamed, constraints_bytes};
ghost use Rattle.terms_core.specs.RelayWords.{Asks, IsTextOf, asks_terms, terms_with};
ghost use Rattle.wire_text.specs.Bounds.{longest_body};

use crate::status::TermsStatus;
use add_words::{AddWords, Command, PurposeFault, WordsFault, named_purposes, read_words};
use constraint_rec::{Terms, write_constraints};
use frame_core::LONGEST_BODY;
use key_purposes::Purpose;
use plain_lists::PlainList;
use std::alloc::{AllocError, Global};

/// What the words say.
#[derive(Drop)]
pub struct RelayWords<'a> {
    /// The terms, as the agent reads them.
    pub terms: Vec<u8>,
    /// Where the client connects.
    pub path: &'a str,
    /// Where the agent listens.
    pub agent: &'a str,
}

/// Reads the words behind the program's name: those of ssh-add that add keys on terms of ours alone, with PATH
/// and AGENT in the place of files.
pub fn read_relay<'a>(alloc: Global, words: &'a [String]) -> Result<RelayWords<'a>, TermsStatus>
    ensures asks { IfOk result (λ read. Asks (map string_bytes words.entry.now)
        read.terms.items read.path.now read.agent.now) }
    ensures short { IfOk result (λ read. length read.terms.items ≤ longest_body) }
{
    match read_words(alloc, words) {
        Ok(given) if asks_terms(&given) => relay_of(alloc, given),
        Ok(_) => Err(TermsStatus::Usage),
        Err(WordsFault::Usage) => Err(TermsStatus::Usage),
        Err(WordsFault::Memory) => Err(TermsStatus::Memory),
    }
}

// The words add keys, with terms of ours and none of ssh-add's.
fn asks_terms(given: &AddWords<'_>) -> bool
    ensures { result ≡ asks_terms (plain_words given.now) }
{
    (given.uses.is_some() || !given.purposes.is_empty())
        && !given.confirm
        && given.life.is_none()
        && given.destinations.is_empty()
        && given.hosts.is_empty()
}

// The terms as text, and both places.
fn relay_of<'a>(alloc: Global, given: AddWords<'a>) -> Result<RelayWords<'a>, TermsStatus>
    requires uses { IsCount given.uses }
    requires only { asks_terms (plain_words given) ≡ true }
    ensures text { IfOk result (λ read. IsTextOf (plain_words given.entry) read.terms.items) }
    ensures places { IfOk result (λ read. (plain_words given.entry).files ≡ read.path.now ∷ read.agent.now ∷ []) }
    ensures short { IfOk result (λ read. length read.terms.items ≤ longest_body) }
{
    let [path, agent] = given.files.as_slice() else {
        return Err(TermsStatus::Usage);
    };
    let terms = text_of(alloc, &given)?;
    if terms.len() > LONGEST_BODY as usize {
        return Err(TermsStatus::TooLong);
    }
    Ok(RelayWords { terms, path, agent })
}

// The text of the number of uses and of the purposes, as the agent reads it.
fn text_of(alloc: Global, given: &AddWords<'_>) -> Result<Vec<u8>, TermsStatus>
    requires { IsCount given.now.uses }
    ensures { IfOk result (λ text. IsTextOf (plain_words given.now) text.items) }
{
    let purposes = match named_purposes(alloc, &given.purposes) {
        Ok(purposes) => purposes,
        Err(PurposeFault::Memory) => return Err(TermsStatus::Memory),
        Err(fault) => return Err(TermsStatus::BadPurpose { fault }),
    };
    match terms_text(alloc, given.uses, purposes) {
        Ok(text) => Ok(text),
        Err(_) => Err(TermsStatus::Memory),
    }
}

// The text of these terms.
#[tactic(auto, using(crate::proofs::WordLemmas::is_use_count))]
fn terms_text(
    alloc: Global,
    uses: Option<u32>,
    purposes: PlainList<Purpose>,
) -> Result<Vec<u8>, AllocError>
    requires uses { IsCount uses }
    requires purposes { AreNamed purposes }
    ensures { IfOk result (λ text. text.items ≡ constraints_bytes (terms_with uses purposes)) }
{
    let terms = Terms {
        uses,
        purposes,
        ..Terms::new(alloc)
    };
    let mut text = Vec::new(alloc);
    write_constraints(&mut text, &terms)?;
    Ok(text)
}
