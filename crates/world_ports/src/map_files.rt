//! Files for tests, which are held in memory by their paths.

ghost use Rattle.std.specs.Prelude.{◌≡◌, [], Some, map, option_map, string_bytes};
ghost use Rattle.world_ports.specs.Files.{held_at};

use crate::calls::Calls;
use crate::{FileFault, Files};
use plain_lists::Bytes;
use std::alloc::Global;

/// Files in memory, by path and bytes. Of files with one path the first counts.
#[derive(Drop)]
pub struct MapFiles {
    files: Vec<(String, Vec<u8>)>,
    calls: Calls,
    failed: Vec<Bytes>,
}

impl MapFiles {
    /// The calls whose numbers, from 1, stand in `failing` fail, and so do those for other paths.
    pub fn new(files: Vec<(String, Vec<u8>)>, failing: Vec<u64>) -> MapFiles
        ensures files { result.files ≡ files }
        ensures calls { result.calls ≡ record { failing = failing.items; made = 0; failed = 0 } }
        ensures failed { result.failed.items ≡ [] }
    {
        let alloc = *files.allocator();
        MapFiles {
            files,
            calls: Calls::new(failing),
            failed: Vec::new(alloc),
        }
    }
}

impl Files for MapFiles {
    ghost seen = { λ s. record {
      held = Some (held_at (map (λ f. (string_bytes f.0, f.1.items)) s.files.items));
      failed = Some s.failed.items;
      faults = s.calls.failed;
    } };

    fn read(&mut self, alloc: Global, path: &str, max: u64) -> Result<Vec<u8>, FileFault> {
        let held = find_file(&self.files, path);
        let called = self.calls.begin(held.is_none());
        let (Ok(()), Some(bytes)) = (called, held) else {
            let path = Bytes::from_vec(Vec::from_slice(alloc, path.as_bytes())?);
            self.failed.push(path)?;
            return Err(FileFault::Failed);
        };
        if bytes.len() as u64 > max {
            return Err(FileFault::TooLong);
        }
        Ok(Vec::from_slice(alloc, bytes)?)
    }
}

// The bytes of the first file with a path.
fn find_file<'a>(files: &'a [(String, Vec<u8>)], path: &str) -> Option<&'a [u8]>
    ensures { option_map (λ bytes. bytes.now) result
        ≡ held_at (map (λ f. (string_bytes f.0, f.1.items)) files.now) path.now }
{
    'files: for file in files {
        if file.0.as_str() == path {
            return Some(&file.1);
        }
    }
    None
}
