//! A spawner for tests, which answers each run from a list and keeps what was run.

ghost use Rattle.std.specs.Prelude.{◌≡◌, [], IfOk, Some};

use crate::calls::Calls;
use crate::{Ran, Run, SpawnFault, Spawner};
use plain_lists::Bytes;
use std::alloc::{AllocError, Global};

/// What answers runs from a list, in order, whatever the program.
#[derive(Drop)]
pub struct ListSpawner {
    // The last one comes next.
    runs: Vec<Ran>,
    calls: Calls,
    made: Vec<Run>,
}

impl ListSpawner {
    /// The calls whose numbers, from 1, stand in `failing` fail and use up no run, and so do those
    /// for which no run is left.
    pub fn new(alloc: Global, mut runs: Vec<Ran>, failing: Vec<u64>) -> ListSpawner
        ensures calls { result.calls ≡ record { failing = failing.items; made = 0; failed = 0 } }
        ensures made { result.made.items ≡ [] }
    {
        runs.reverse();
        ListSpawner {
            runs,
            calls: Calls::new(failing),
            made: Vec::new(alloc),
        }
    }

    /// The runs so far, failed ones too.
    pub fn made(&self) -> &[Run]
        ensures { result.now ≡ self.now.made.items }
    {
        &self.made
    }
}

impl Spawner for ListSpawner {
    ghost seen = { λ s. record { runs = Some s.made.items; faults = s.calls.failed } };

    fn run(&mut self, alloc: Global, program: &str, word: &str) -> Result<Ran, SpawnFault> {
        let program = Bytes::from_vec(Vec::from_slice(alloc, program.as_bytes())?);
        let word = Bytes::from_vec(Vec::from_slice(alloc, word.as_bytes())?);
        if self.calls.begin(self.runs.is_empty()).is_err() {
            let answer = Err(SpawnFault::Failed);
            self.made.push(Run {
                program,
                word,
                answer,
            })?;
            return Err(SpawnFault::Failed);
        }
        let ran = self.runs.pop().unwrap();
        let answer = Ok(copy_of(alloc, &ran)?);
        self.made.push(Run {
            program,
            word,
            answer,
        })?;
        Ok(ran)
    }
}

fn copy_of(alloc: Global, ran: &Ran) -> Result<Ran, AllocError>
    ensures { IfOk result (λ copy. copy ≡ ran.now) }
{
    Ok(Ran {
        status: ran.status,
        output: Bytes::from_vec(Vec::from_slice(alloc, ran.output.as_slice())?),
    })
}
