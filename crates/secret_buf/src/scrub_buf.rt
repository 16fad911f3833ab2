//! A buffer, pushed behind and consumed in front, whose storage is zero outside its bytes.

ghost use Rattle.std.specs.Prelude.{◌≡◌, ◌+◌, ◌-◌, ◌^◌, ◌<◌, ◌≤◌, [], ◌++◌, IfSome, IsOk, OnErr, OnOk, drop, length, slice_range};
ghost use Rattle.secret_buf.specs.Buffers.{buffer_of, no_bytes, room_in, IsScrubbed, KeepsRoom};

use crate::storage::Storage;
use std::alloc::{AllocError, Global};
use std::marker::Model;
use std::mem;

// The least size of storage, in bytes: many short pieces are pushed and consumed before any is moved.
const LEAST: usize = 512;

// From this size on storage grows by less than its own size.
const LONG: usize = 16384;

/// Bytes that are pushed behind and consumed in front, in storage that is zero outside them.
///
/// A sixteenth of the storage stays free of live bytes. So where room behind them is short, at least
/// a sixteenth was consumed since they last lay in front, and for each byte that is consumed at most
/// fifteen are moved, however full the buffer is kept.
pub struct ScrubBuf {
    storage: Storage,
    start: usize,
    end: usize,
}

impl Model for ScrubBuf {
    ghost use Rattle.secret_buf.specs.Buffers.{Buffer, buffer_of, IsScrubbed};

    ghost Value = { Buffer };

    ghost view = { λ b. buffer_of b.storage b.start b.end };

    ghost invariant = { λ b. IsScrubbed b.storage b.start b.end };
}

impl ScrubBuf {
    /// An empty buffer. Takes no memory.
    pub fn new(alloc: Global) -> ScrubBuf
        ensures { result ≡ no_bytes }
    {
        ScrubBuf {
            storage: Storage::empty(alloc),
            start: 0,
            end: 0,
        }
    }

    /// Makes room for `more` bytes.
    pub fn reserve(&mut self, more: usize) -> Result<(), AllocError>
        ensures ok { OnOk result (more ≤ self.new.spare) }
        ensures kept { self.new.live ≡ self.old.live }
        ensures err { OnErr result (self.new ≡ self.old) }
        ensures enough { more ≤ self.old.spare → IsOk result × (self.new ≡ self.old) }
        ensures keeps_room { KeepsRoom self.old self.new }
    {
        if more <= self.spare() {
            return Ok(());
        }
        self.grow(more)
    }

    /// Appends `bytes`.
    pub fn push_slice(&mut self, bytes: &[u8]) -> Result<(), AllocError>
        ensures ok { OnOk result (self.new.live ≡ self.old.live ++ bytes.now) }
        ensures err { OnErr result (self.new ≡ self.old) }
        ensures enough { length bytes.now ≤ self.old.spare → IsOk result }
        ensures keeps_room { KeepsRoom self.old self.new }
    {
        self.reserve(bytes.len())?;
        self.push_reserved(bytes);
        Ok(())
    }

    /// Appends `bytes`, for which room was made. Takes no memory.
    pub fn push_reserved(&mut self, bytes: &[u8])
        requires { length bytes.now ≤ self.old.spare }
        ensures live { self.new.live ≡ self.old.live ++ bytes.now }
        ensures spare { self.new.spare + length bytes.now ≡ self.old.spare }
        ensures keeps_room { KeepsRoom self.old self.new }
    {
        let live = self.end - self.start;
        self.start = make_tail(&mut self.storage, self.start, self.end, bytes.len());
        self.end = self.start + live;
        self.storage.write(self.end, bytes);
        self.end += bytes.len();
    }

    /// The bytes that were pushed and not consumed. A copy of them elsewhere is not wiped.
    pub fn live(&self) -> &[u8]
        ensures { result.now ≡ self.now.live }
    {
        &self.storage.as_slice()[self.start..self.end]
    }

    /// Removes the first `count` live bytes. Takes no memory.
    pub fn consume(&mut self, count: usize)
        requires { count ≤ length self.old.live }
        ensures live { self.new.live ≡ drop count self.old.live }
        ensures spare { self.new.spare ≡ self.old.spare + count }
        ensures keeps_room { KeepsRoom self.old self.new }
    {
        self.storage.clear(self.start, self.start + count);
        self.start += count;
    }

    /// Removes all bytes and frees the storage. Takes no memory.
    pub fn wipe(&mut self)
        ensures { self.new ≡ no_bytes }
    {
        let storage = Storage::empty(self.storage.allocator());
        self.replace(storage, 0);
    }
}

impl ScrubBuf {
    fn spare(&self) -> usize
        ensures { result ≡ self.now.spare }
    {
        room_in(self.storage.len()) - (self.end - self.start)
    }

    // Moves the live bytes into larger storage.
    fn grow(&mut self, more: usize) -> Result<(), AllocError>
        ensures ok { OnOk result (more ≤ self.new.spare) }
        ensures kept { self.new.live ≡ self.old.live }
        ensures err { OnErr result (self.new ≡ self.old) }
        ensures keeps_room { KeepsRoom self.old self.new }
    {
        let live = self.end - self.start;
        let Some(size) = grown_size(self.storage.len(), live, more) else {
            return Err(AllocError);
        };
        let mut storage = Storage::zeros(self.storage.allocator(), size)?;
        storage.write(0, self.live());
        self.replace(storage, live);
        Ok(())
    }

    // Takes `storage`, whose live bytes are the first `live`, in the place of its own, which is
    // wiped and freed.
    fn replace(&mut self, storage: Storage, live: usize)
        requires { IsScrubbed storage 0 live }
        ensures { self.new ≡ buffer_of storage 0 live }
    {
        let mut old = mem::replace(&mut self.storage, storage);
        old.clear(self.start, self.end);
        old.give_up();
        self.start = 0;
        self.end = live;
    }
}

impl Drop for ScrubBuf {
    // What asks something before it is dropped can't be given to `forget`, or to any other call that
    // drops or leaks what it is given.
    fn drop(self)
        requires { self ≡ self }
    {
        let ScrubBuf {
            mut storage,
            start,
            end,
        } = self;
        storage.clear(start, end);
        storage.give_up();
    }
}

// Makes room for `more` bytes behind the live bytes, and says where they start then.
fn make_tail(storage: &mut Storage, start: usize, end: usize, more: usize) -> usize
    requires scrubbed { IsScrubbed storage.old start end }
    requires room { end - start + more ≤ room_in (length storage.old) }
    ensures scrubbed { IsScrubbed storage.new result (result + (end - start)) }
    ensures live { slice_range storage.new result (result + (end - start))
        ≡ slice_range storage.old start end }
    ensures tail { result + (end - start) + more ≤ length storage.new }
    ensures bound { length storage.new < 2 ^ 64 }
    ensures len { length storage.new ≡ length storage.old }
{
    if more <= storage.len() - end {
        return start;
    }
    // Of an empty buffer all storage is zero already.
    if start < end {
        storage.move_to_front(start, end);
    }
    0
}

// How many live bytes storage of this size may hold.
fn room_in(size: usize) -> usize
    ensures { result ≡ room_in size }
{
    size - size / 16
}

// The size of storage with room for `live` bytes and `more`. It is doubled while it is short, and
// grows by an eighth where it is long, so that a byte is moved a bounded number of times by growth
// too, and what stays unused of long storage is little.
fn grown_size(size: usize, live: usize, more: usize) -> Option<usize>
    ensures enough { IfSome result (λ grown. live + more ≤ room_in grown) }
    ensures grown { IfSome result (λ grown. size ≤ grown) }
{
    let wanted = live.checked_add(more)?;
    let least = wanted.checked_add(wanted / 15)?;
    let step = size.min((size / 8).max(LONG));
    Some(size.checked_add(step)?.max(least).max(LEAST))
}
