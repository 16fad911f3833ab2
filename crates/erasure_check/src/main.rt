//! Counts the copies of marked bytes in this program's own heap, before and after secret_buf lets
//! go of them. A plain vector, whose bytes stay in freed memory, shows that what is freed is seen.
//! Linux alone.
#![tactic(auto)]

mod heap;

use heap::{Heap, MARK, SIZE};
use secret_buf::{ScrubBuf, SecretBytes};
use std::io;
use std::rt::Files;

fn main(rt: HostRuntime) -> io::Result<()> {
    // Both are read before the first count: a later allocation might write over what was freed.
    let mut heap = Heap::open(&rt)?;
    secrets(&rt, &mut heap)?;
    buffers(&rt, &mut heap)?;
    vectors(&rt, &mut heap)
}

fn secrets(rt: &(impl Files + AllocGlobal + Print), heap: &mut Heap) -> io::Result<()> {
    let secret = SecretBytes::from_slice(rt.alloc(), &[MARK; SIZE])?;
    println!(rt; "a secret: {}", heap.copies()?)?;
    secret.wipe();
    println!(rt; "a secret wiped: {}", heap.copies()?)?;
    let secret = SecretBytes::from_slice(rt.alloc(), &[MARK; SIZE])?;
    println!(rt; "another secret: {}", heap.copies()?)?;
    drop(secret);
    println!(rt; "another secret dropped: {}", heap.copies()?)
}

fn buffers(rt: &(impl Files + AllocGlobal + Print), heap: &mut Heap) -> io::Result<()> {
    let mut buffer = ScrubBuf::new(rt.alloc());
    buffer.push_slice(&[MARK; SIZE])?;
    println!(rt; "a buffer: {}", heap.copies()?)?;
    buffer.reserve(16 * SIZE)?;
    println!(rt; "a buffer grown: {}", heap.copies()?)?;
    buffer.consume(SIZE);
    println!(rt; "a buffer consumed: {}", heap.copies()?)?;
    buffer.push_slice(&[MARK; SIZE])?;
    println!(rt; "a buffer filled: {}", heap.copies()?)?;
    buffer.wipe();
    println!(rt; "a buffer wiped: {}", heap.copies()?)?;
    buffer.push_slice(&[MARK; SIZE])?;
    println!(rt; "a buffer filled again: {}", heap.copies()?)?;
    drop(buffer);
    println!(rt; "a buffer dropped: {}", heap.copies()?)
}

fn vectors(rt: &(impl Files + AllocGlobal + Print), heap: &mut Heap) -> io::Result<()> {
    let vector = Vec::from_slice(rt.alloc(), &[MARK; SIZE])?;
    println!(rt; "a plain vector: {}", heap.copies()?)?;
    drop(vector);
    println!(rt; "a plain vector dropped: {}", heap.copies()?)
}
