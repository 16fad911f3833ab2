//! The constraints of keys that are added, by the words and the files of known hosts.

ghost use Rattle.std.specs.Prelude.{◌≡◌, ℕ, List, Option, Some, Ok, All, IfOk, map};
ghost use Rattle.add_core.specs.Exchanges.{Tells};
ghost use Rattle.add_core.specs.FileCauses.{HasFileCause};
ghost use Rattle.add_core.specs.Restrictions.{IsOwnOfTerms, hosts_held, terms_by, terms_for};
ghost use Rattle.add_core.specs.Steps.{IsOwn, IsOwnOfFiles};
ghost use Rattle.add_words.specs.Counts.{IsCount};
ghost use Rattle.add_words.specs.Words.{plain_words};
ghost use Rattle.constraint_rec.specs.Writing.{MeetsRules};

use crate::fault::{AddFault, Stop};
use crate::files::read_text;
use add_rules::destination_rules;
use add_words::{AddWords, PurposeFault, named_purposes};
use constraint_rec::Terms;
use plain_lists::Bytes;
use std::alloc::Global;
use world_ports::Files;

/// The most bytes that a file of known hosts has.
const LONGEST_HOSTS: u64 = 16_777_216;

/// Reads files of known hosts.
fn read_hosts<F: Files>(alloc: Global, files: &mut F, paths: &[&str]) -> Result<Vec<Bytes>, Stop>
    ensures told { (held : List ℕ → Option (List ℕ)) → (F.seen files.old).held ≡ Some held
        → Tells (λ hosts. hosts.items) result
        (hosts_held held 0 (map (λ path. path.now) paths.now)) }
    ensures kept { (F.seen files.new).held ≡ (F.seen files.old).held }
    ensures cause { HasFileCause (map (λ path. path.now) paths.now) result
        (F.seen files.old) (F.seen files.new) }
    ensures own { IsOwnOfFiles result }
{
    let mut hosts = Vec::new(alloc);
    let mut place = 0;
    'paths: for path in paths {
        let text = read_text(alloc, files, path, place, LONGEST_HOSTS)?;
        hosts.push(Bytes::from_vec(text))?;
        place += 1;
    }
    Ok(hosts)
}

/// The constraints, by the texts of the files of known hosts.
#[tactic(auto, using(crate::proofs::RestrictionLemmas::is_use_count))]
fn terms_by(alloc: Global, words: &AddWords<'_>, hosts: &[Bytes]) -> Result<Terms, Stop>
    requires { IsCount words.now.uses }
    ensures told { Tells (λ terms. terms) result
        (terms_by (plain_words words.now) (Ok hosts.now)) }
    ensures writable { IfOk result (λ terms. MeetsRules terms) }
    ensures own { IsOwn result }
{
    let rules = match destination_rules(alloc, hosts, &words.destinations)? {
        Ok(rules) => rules,
        Err(fault) => return Err(Stop::Fault(AddFault::Destination(fault))),
    };
    match named_purposes(alloc, &words.purposes) {
        Ok(purposes) => Ok(Terms {
            life: words.life,
            confirm: words.confirm,
            uses: words.uses,
            rules,
            purposes,
        }),
        Err(PurposeFault::Memory) => Err(Stop::Memory),
        Err(fault) => Err(Stop::Fault(AddFault::Purpose(fault))),
    }
}

/// The constraints that the words ask for.
pub fn terms<F: Files>(alloc: Global, files: &mut F, words: &AddWords<'_>) -> Result<Terms, Stop>
    requires { IsCount words.now.uses }
    ensures told { (held : List ℕ → Option (List ℕ)) → (F.seen files.old).held ≡ Some held
        → Tells (λ terms. terms) result (terms_for (plain_words words.now) held) }
    ensures writable { IfOk result (λ terms. MeetsRules terms) }
    ensures kept { (F.seen files.new).held ≡ (F.seen files.old).held }
    ensures cause { HasFileCause (plain_words words.now).hosts result
        (F.seen files.old) (F.seen files.new) }
    ensures own { IsOwnOfTerms result }
{
    let hosts = read_hosts(alloc, files, &words.hosts)?;
    terms_by(alloc, words, &hosts)
}
