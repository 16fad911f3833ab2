//! With `--fail-alloc N` the Nth allocation is refused: an addition is there as a whole, or not at all.

ghost use Rattle.std.specs.Prelude.{◌≡◌};

use constraint_rec::Terms;
use identity_table::*;
use key_blob::AddedKey;
use plain_lists::{Bytes, PlainList};
use secret_buf::SecretBytes;
use std::alloc::Global;
use std::process::Abort;

// Adds a key without constraints, where memory may be refused.
fn try_to_add(alloc: Global, table: &mut Table, blob: &[u8]) -> Option<u64>
    requires { table.old.greatest ≡ 0 }
    ensures { table.new.greatest ≡ 0 }
{
    let key = AddedKey {
        blob: Bytes::from_vec(Vec::from_slice(alloc, blob).ok()?),
        private: SecretBytes::from_slice(alloc, b"private").ok()?,
    };
    let terms = Terms {
        life: None,
        confirm: false,
        uses: None,
        rules: PlainList::new(alloc),
        purposes: PlainList::new(alloc),
    };
    table.add(key, terms, b"comment", 0).ok()
}

// What finds the key, and what counts it: all of it or nothing.
fn is_whole(rt: &impl Abort, table: &Table, blob: &[u8], added: Option<u64>, before: usize) {
    let Some(number) = added else {
        assert_eq!(rt; table.len(), before);
        return;
    };
    let found = table.find(blob).map(|identity| identity.addition());
    assert_eq!(rt; found, Some(number));
    let found = table.by_number(number).map(|identity| identity.addition());
    assert_eq!(rt; found, Some(number));
    assert_eq!(rt; table.next_death(), Some(5));
    assert_eq!(rt; table.iter().count(), table.len());
}

// Adds a key, and looks whether all of it is there, or nothing.
fn add_whole(rt: &impl Abort, alloc: Global, table: &mut Table, blob: &[u8])
    requires { table.old.greatest ≡ 0 }
    ensures { table.new.greatest ≡ 0 }
{
    let before = table.len();
    let added = try_to_add(alloc, table, blob);
    is_whole(rt, table, blob, added, before);
}

// With `--fail-alloc N` the Nth allocation is refused.
#[test]
fn a_refused_addition_leaves_the_table_as_it_was(rt: HostRuntime) {
    let alloc = rt.alloc();
    let mut table = Table::new(alloc, Some(5));
    add_whole(&rt, alloc, &mut table, b"k1");
    add_whole(&rt, alloc, &mut table, b"k2");
    add_whole(&rt, alloc, &mut table, b"k1");
    add_whole(&rt, alloc, &mut table, b"k3");
    let held = table.len();
    let removed = table.remove(b"k1");
    let left = if removed {
        held.saturating_sub(1)
    } else {
        held
    };
    assert_eq!(rt; table.len(), left);
    table.expire(5);
    assert_eq!(rt; table.len(), 0);
    assert_eq!(rt; table.next_death(), None);
}
