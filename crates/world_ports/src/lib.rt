//! What the programs meet of the outside: the world of the agent's loop, with its journal; readers
//! and writers, files and runs of programs, whose failures are counted; all of them in memory.
//! Stands on plain_lists; docs/DEFINITIONS.md, "The outside", says what contracts see of them.
#![tactic(auto)]

mod answers;
mod calls;
mod cue;
mod entry;
mod events;
mod files;
mod life;
mod list_spawner;
mod map_files;
mod mem_peer;
mod outside;
mod pipe;
mod script_world;
mod slice_source;
mod spawner;
mod std_streams;
mod stream;
mod vec_sink;
mod whole;
mod world;

pub use answers::{Accepted, Got, Polled, Ready, Spot, WorldFault, Wrote};
pub use cue::Cue;
pub use entry::Entry;
pub use events::{Door, Job, JobKind, Moment};
pub use files::{FileFault, Files};
pub use life::read_life;
pub use list_spawner::ListSpawner;
pub use map_files::MapFiles;
pub use mem_peer::MemPeer;
pub use script_world::ScriptWorld;
pub use slice_source::SliceSource;
pub use spawner::{Ran, Run, SpawnFault, Spawner};
pub use std_streams::{Reading, Writing};
pub use stream::{Fault, Pulled, Sink, Source, Stream};
pub use vec_sink::VecSink;
pub use whole::write_all;
pub use world::{READ_ROOM, World};
