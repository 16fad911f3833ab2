//! The filter's main function, from the command line's words on, over any files and any pairs.

ghost use Rattle.std.specs.Prelude.{◌≡◌, ◌≢◌, ◌≤◌, ℕ, Err, List, Option, Some};
ghost use Rattle.filter_model.specs.Lists.{Listed};
ghost use Rattle.key_purposes.specs.declared.fault.PurposeFault.{PurposeFault};
ghost use Rattle.filter_top.specs.Purposes.{purposes_named};
ghost use Rattle.filter_top.specs.Passing.{PassesExactly, ServesFairly};
ghost use Rattle.filter_top.specs.Program.{Asked, FailsAt, IsAsked, IsListed, IsTooLong, IsUsage, Runs};
ghost use Rattle.filter_top.specs.declared.status.FilterStatus.TheVariants as status;
ghost use Rattle.world_ports.specs.Causes.{Rose};

use crate::listed::read_listed;
use crate::serving::serve;
use crate::status::FilterStatus;
use crate::words::read_words;
use filter_core::Filter;
use pair_ports::Pairs;
use std::alloc::Global;
use std::sync::Wait;
use world_ports::Files;

/// The program: `words` are those of the command line after the program's name, `LIST UPSTREAM PATH [PURPOSE ...]`.
///
/// Reads the public keys of the file LIST, listens at PATH, and connects each client to an agent at UPSTREAM with a
/// connection of its own, while it needs one: of its keys the client sees and uses only those of the list, and where
/// purposes are named, only for these. With fewer words, and with words that name no purposes, it touches nothing. It ends
/// only where a fault ends it, or where nothing will become ready any more.
///
/// Of each client the agent behind is written, in order, the requests that may pass and no other, and the client one
/// reply to each request that was taken, at most the last one missing; there are 64 connections to the agent behind at
/// most, and none that isn't needed: `passes`. Between two services of one thing each other thing is served that is
/// ready all the while and can be served before the second: `fair`. `runs` says of each end which calls were made. The
/// three stand where the files tell what they hold; specs/Passing.antt and Program.antt say where to read on.
pub fn filter_main<R: Wait, F: Files, P: Pairs>(
    rt: &R,
    alloc: Global,
    words: &[String],
    files: &mut F,
    pairs: &mut P,
) -> FilterStatus
    requires { P.last_pair pairs.old ≡ 0 }
    ensures runs { (held : List ℕ → Option (List ℕ)) (asked : Asked) → IsAsked words.now asked
        → (F.seen files.old).held ≡ Some held
        → Runs held asked result (P.journal pairs.old) (P.journal pairs.new) }
    ensures passes { (held : List ℕ → Option (List ℕ)) (asked : Asked) (listed : Listed) → IsAsked words.now asked
        → (F.seen files.old).held ≡ Some held → IsListed (held asked.list) asked.purposes listed
        → PassesExactly listed asked (P.journal pairs.old) (P.journal pairs.new) }
    ensures fair { (held : List ℕ → Option (List ℕ)) (asked : Asked) (listed : Listed) → IsAsked words.now asked
        → (F.seen files.old).held ≡ Some held → IsListed (held asked.list) asked.purposes listed
        → ServesFairly listed asked (P.journal pairs.old) (P.journal pairs.new) }
    ensures usage { result ≡ status.Usage → IsUsage words.now }
    ensures refused { IsUsage words.now
        → (result ≡ status.Usage) × ((pairs.new ≡ pairs.old) × (files.new ≡ files.old)) }
    ensures purpose { (asked : Asked) (fault : PurposeFault) → IsAsked words.now asked
        → result ≡ status.BadPurpose fault
        → (purposes_named asked.purposes ≡ Err fault) × ((pairs.new ≡ pairs.old) × (files.new ≡ files.old)) }
    ensures file { (asked : Asked) → IsAsked words.now asked → result ≡ status.FileFault
        → FailsAt asked.list (F.seen files.old) (F.seen files.new) }
    ensures long { (asked : Asked) → IsAsked words.now asked → result ≡ status.FileTooLong
        → IsTooLong asked.list (F.seen files.old) (F.seen files.new) }
    ensures failed { result ≢ status.FileFault
        → (F.seen files.new).failed ≡ (F.seen files.old).failed }
    ensures faults { result ≢ status.FileFault → result ≢ status.Memory
        → (F.seen files.new).faults ≡ (F.seen files.old).faults }
    ensures bind { result ≡ status.BindFault → Rose (P.faults pairs.old) (P.faults pairs.new) }
    ensures poll { result ≡ status.PollFault → Rose (P.faults pairs.old) (P.faults pairs.new) }
    ensures later { P.faults pairs.old ≤ P.faults pairs.new }
{
    let Some(asked) = read_words(words) else {
        return FilterStatus::Usage;
    };
    match read_listed(alloc, files, &asked) {
        Ok(listed) => {
            let mut filter = Filter::new(alloc, listed);
            serve(rt, alloc, &mut filter, pairs, asked.path, asked.upstream)
        }
        Err(status) => status,
    }
}
