//! Puts asks to a link and tells it the answers, for `bench/helper_link.sh`, which takes the time.

ghost use Rattle.std.specs.Prelude.{OnOk};
ghost use Rattle.helper_link.specs.HelperLink.{ArePutBy, IsLinked};

use helper_link::{AskFault, Link};
use std::alloc::{AllocError, Global};

/// The asks that are unanswered before the first is answered.
const BATCH: u64 = 256;

/// How many answers were told in so many batches.
pub fn answered(alloc: Global, batches: u64) -> Result<u64, AllocError> {
    let mut link = Link::new(alloc);
    link.begin(1);
    link.linked(1);
    let mut answers: u64 = 0;
    'batches: for _ in 0..batches {
        let told = batch(alloc, &mut link)?;
        answers = answers.saturating_add(told);
    }
    Ok(answers)
}

// Puts a batch of asks, sends their requests, and tells their answers.
#[tactic(auto, using(helper_link::proofs::SecondLemmas::put_by_telling))]
fn batch(alloc: Global, link: &mut Link) -> Result<u64, AllocError>
    requires linked { IsLinked link.old.state }
    requires later { ArePutBy 0 link.old.asks }
    ensures linked { OnOk result (IsLinked link.new.state) }
    ensures later { OnOk result (ArePutBy 0 link.new.asks) }
{
    let mut stream = Vec::new(alloc);
    'asks: for _ in 0..BATCH {
        if let Ok(number) = put(link) {
            stream.extend_from_slice(&[0, 0, 0, 9, 103])?;
            stream.extend_from_slice(&number.to_be_bytes())?;
        }
    }
    link.took(link.owed().len());
    let told = link.told(stream.as_slice())?;
    Ok(told.settled.len() as u64)
}

// Puts an ask, in second 0.
#[tactic(auto, using(helper_link::proofs::SecondLemmas::put_by_submitted))]
fn put(link: &mut Link) -> Result<u64, AskFault>
    requires linked { IsLinked link.old.state }
    requires later { ArePutBy 0 link.old.asks }
    ensures linked { IsLinked link.new.state }
    ensures later { ArePutBy 0 link.new.asks }
{
    link.ask_verify(1, &[1], &[2], &[3], 0)
}
