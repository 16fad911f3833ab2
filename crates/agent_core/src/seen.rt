//! Which identities a client sees, and how long a list of them is.

ghost use Rattle.std.specs.Prelude.{◌≡◌, ◌+◌, ◌≤◌, length};
ghost use Rattle.identity_table.specs.Identities.{answer_len, max_answer};
ghost use Rattle.agent_core.specs.Seen.{count_if, is_seen, len_if, seen};

use crate::asker::Asker;
use dest_rule::visible;
use identity_table::{Identity, Table};

/// Whether the asker sees this identity. One without destination constraints is seen by all.
pub fn sees(asker: &Asker<'_>, identity: &Identity) -> bool
    ensures { result ≡ is_seen asker.now identity.now }
{
    visible(identity.rules(), asker.chain, asker.wall)
}

/// How many identities a list shows, and how many bytes its body has.
#[derive(Clone, Copy)]
pub struct ListSize {
    pub count: usize,
    pub body: usize,
}

/// The size of the list of those of the table's identities that the asker sees.
pub fn seen_size(asker: &Asker<'_>, table: &Table) -> ListSize
    ensures fits { answer_len table.now.identities ≤ max_answer }
    ensures count { result.count ≡ length (seen asker.now table.now.identities) }
    ensures body { result.body ≡ answer_len (seen asker.now table.now.identities) }
{
    let mut size = ListSize { count: 0, body: 5 };
    for identity in table.iter() {
        size = with_entry(size, asker, identity);
    }
    size
}

// The size with one identity more, which counts where it is seen.
fn with_entry(size: ListSize, asker: &Asker<'_>, identity: &Identity) -> ListSize
    requires count { size.count ≤ size.body }
    requires body { size.body + 8 + length identity.now.blob + length identity.now.comment ≤ max_answer }
    ensures count { result.count ≡ size.count + count_if (is_seen asker.now identity.now) }
    ensures body { result.body ≡ size.body + len_if (is_seen asker.now identity.now) identity.now }
{
    if sees(asker, identity) {
        ListSize {
            count: size.count + 1,
            body: size.body + 8 + identity.blob().len() + identity.comment().len(),
        }
    } else {
        size
    }
}
