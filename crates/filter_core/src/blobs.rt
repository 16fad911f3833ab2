//! The keys that may be used, by their blobs, with an index by which one is found.

ghost use Rattle.std.specs.Prelude.{◌≡◌, ◌<◌, [], ◌∷◌, ◌++◌, IfOk, OnOk, get_or, length};
ghost use Rattle.std.specs.List.{list_any};
ghost use Rattle.filter_model.specs.Looking.{is_listed};
ghost use Rattle.filter_core.specs.Index.{is_blob_at, items_of, mark_of, most_marks};
ghost use Rattle.filter_core.specs.Slots.{blobs_of};

use std::alloc::{AllocError, Global};
use std::collections::BTreeSet;
use std::marker::Model;

/// How many marks there are.
const MOST_MARKS: usize = 1024;

/// The blobs of keys, and an index by which one is found without a look at most of the others.
#[derive(Drop)]
pub struct Blobs {
    blobs: Vec<Vec<u8>>,
    // The places of the blobs with each mark.
    buckets: Vec<Vec<usize>>,
}

impl Model for Blobs {
    ghost use Rattle.std.specs.Prelude.{List, ℕ};
    ghost use Rattle.filter_core.specs.Index.{IsIndexed, items_of};

    ghost Value = { List (List ℕ) };

    ghost view = { λ b. items_of b.blobs.items };

    ghost invariant = { λ b. IsIndexed (items_of b.blobs.items) (items_of b.buckets.items) };
}

impl Blobs {
    /// The blobs of the set, in order.
    pub fn new(alloc: Global, set: BTreeSet<Vec<u8>>) -> Result<Blobs, AllocError>
        ensures { IfOk result (λ blobs. blobs ≡ blobs_of set) }
    {
        let mut blobs = Blobs::empty(alloc)?;
        'set: for blob in set {
            blobs.push(blob)?;
        }
        Ok(blobs)
    }

    /// Whether the blob is one of these.
    pub fn has(&self, blob: &[u8]) -> bool
        ensures { result ≡ is_listed blob.now self.now }
    {
        has_at(&self.blobs, &self.buckets[mark_of(blob)], blob)
    }
}

impl Blobs {
    fn empty(alloc: Global) -> Result<Blobs, AllocError>
        ensures { IfOk result (λ blobs. blobs ≡ []) }
    {
        Ok(Blobs {
            blobs: Vec::new(alloc),
            buckets: empty_buckets(alloc)?,
        })
    }

    fn push(&mut self, blob: Vec<u8>) -> Result<(), AllocError>
        ensures { OnOk result (self.new ≡ self.old ++ blob.items ∷ []) }
    {
        let mark = mark_of(&blob);
        self.buckets[mark].push(self.blobs.len())?;
        self.blobs.push(blob)?;
        Ok(())
    }
}

// A bucket for each mark, with no place.
fn empty_buckets(alloc: Global) -> Result<Vec<Vec<usize>>, AllocError>
    ensures { IfOk result (λ buckets. length buckets.items ≡ most_marks) }
{
    let mut buckets = Vec::with_capacity(alloc, MOST_MARKS)?;
    'marks: for _ in 0..MOST_MARKS {
        buckets.push(Vec::new(alloc))?;
    }
    Ok(buckets)
}

// The byte at this place, and 0 past the end.
fn byte_at(blob: &[u8], place: usize) -> usize
    ensures is { result ≡ get_or blob.now place 0 }
    ensures byte { result < 256 }
{
    match blob.get(place) {
        Some(byte) => *byte as usize,
        None => 0,
    }
}

// The mark of a blob.
fn mark_of(blob: &[u8]) -> usize
    ensures is { result ≡ mark_of blob.now }
    ensures within { result < most_marks }
{
    let half = blob.len() / 2;
    let middle = byte_at(blob, half) + byte_at(blob, half + 1);
    let last = byte_at(blob, blob.len().saturating_sub(1));
    (4 * middle + last) % MOST_MARKS
}

// Whether the blob stands at this place.
fn is_at(blobs: &[Vec<u8>], place: usize, blob: &[u8]) -> bool
    ensures { result ≡ is_blob_at blob.now (items_of blobs.now) place }
{
    match blobs.get(place) {
        Some(other) => blob == other.as_slice(),
        None => false,
    }
}

// Whether the blob stands at one of these places.
fn has_at(blobs: &[Vec<u8>], places: &[usize], blob: &[u8]) -> bool
    ensures { result ≡ list_any (is_blob_at blob.now (items_of blobs.now)) places.now }
{
    'places: for place in places {
        if is_at(blobs, *place, blob) {
            return true;
        }
    }
    false
}
