//! Identities and the lock.

ghost use Rattle.std.specs.Prelude.{◌≡◌, IfSome};

use crate::input::{number, short_or_none};
use agent_msg::{Request, read_request};
use bstr::ByteSlice;
use constraint_rec::Terms;
use identity_table::{AddFault, Identity, Lock, Table};
use key_blob::AddedKey;
use plain_lists::{Bytes, PlainList};
use secret_buf::SecretBytes;
use std::alloc::Global;

/// The longest private bytes and passphrase.
const LONGEST: usize = 262_144;

pub(crate) fn of_table(
    alloc: Global,
    table: &mut Table,
    verb: &str,
    words: &[Vec<u8>],
) -> Option<String> {
    let first = words.first()?;
    match verb {
        "new" => {
            *table = Table::new(alloc, short_or_none(first)?);
            String::from_str(alloc, "new").ok()
        }
        "add" => said_added(alloc, add(alloc, table, words)?),
        "request" => said_added(alloc, add_by_request(alloc, table, first)?),
        "remove" => format!(in alloc; "{}", table.remove(first)).ok(),
        "clear" => {
            table.remove_all();
            String::from_str(alloc, "clear").ok()
        }
        "expire" => expire(alloc, table, number(first)?),
        "find" => said_found(alloc, table.find(first)),
        "private" => is_private(alloc, table, words),
        _ => about_table(alloc, table, verb, number(first)),
    }
}

fn expire(alloc: Global, table: &mut Table, now: u64) -> Option<String> {
    if table.greatest() > now {
        return None;
    }
    table.expire(now);
    format!(in alloc; "{} left", table.len()).ok()
}

fn about_table(alloc: Global, table: &Table, verb: &str, word: Option<u64>) -> Option<String> {
    match verb {
        "at" => said_found(alloc, table.at(word? as usize)),
        "number" => said_found(alloc, table.by_number(word?)),
        "death" => format!(in alloc; "{:?}", table.next_death()).ok(),
        "count" => format!(in alloc; "{} {}", table.len(), table.iter().count()).ok(),
        _ => None,
    }
}

fn said_added(alloc: Global, added: Result<u64, AddFault>) -> Option<String> {
    format!(in alloc; "{added:?}").ok()
}

/// `BLOB PRIVATE COMMENT LIFE confirm|- NOW`
fn add(alloc: Global, table: &mut Table, words: &[Vec<u8>]) -> Option<Result<u64, AddFault>> {
    let [blob, private, comment, life, confirm, now] = words else {
        return None;
    };
    let life = short_or_none(life)?;
    let now = number(now)?;
    if private.len() > LONGEST || table.greatest() > now {
        return None;
    }
    let key = key_of(alloc, blob, private)?;
    let terms = Terms {
        life,
        confirm: confirm.as_slice() == b"confirm".as_slice(),
        uses: None,
        rules: PlainList::new(alloc),
        purposes: PlainList::new(alloc),
    };
    Some(table.add(key, terms, comment, now))
}

fn key_of(alloc: Global, blob: &[u8], private: &[u8]) -> Option<AddedKey>
    ensures { IfSome result (λ key. key.private ≡ private.now) }
{
    Some(AddedKey {
        blob: Bytes::from_vec(Vec::from_slice(alloc, blob).ok()?),
        private: SecretBytes::from_slice(alloc, private).ok()?,
    })
}

/// A request of a client, in second 0.
fn add_by_request(alloc: Global, table: &mut Table, body: &[u8]) -> Option<Result<u64, AddFault>> {
    match read_request(alloc, body) {
        Ok(
            Request::Add {
                key,
                comment,
                terms,
            },
        ) => {
            if key.private.len() > LONGEST || terms.uses.is_some() || table.greatest() > 0 {
                return None;
            }
            Some(table.add(key, terms, comment, 0))
        }
        _ => None,
    }
}

fn said_found(alloc: Global, found: Option<&Identity>) -> Option<String> {
    match found {
        None => String::from_str(alloc, "none").ok(),
        Some(one) => format!(in alloc;
            "{} {} '{}' confirm: {} rules: {}",
            one.addition(),
            one.blob().escape_bytes(),
            one.comment().escape_bytes(),
            one.confirm(),
            one.rules().len()
        )
        .ok(),
    }
}

/// `BLOB PRIVATE`: whether the private bytes of a blob are these.
fn is_private(alloc: Global, table: &Table, words: &[Vec<u8>]) -> Option<String> {
    let [blob, private] = words else {
        return None;
    };
    let found = table.find(blob)?;
    format!(in alloc; "{}", found.private().same(private)).ok()
}

pub(crate) fn of_lock(
    alloc: Global,
    lock: &mut Lock,
    verb: &str,
    words: &[Vec<u8>],
) -> Option<String> {
    let passphrase = words.first()?;
    match verb {
        "new" => {
            *lock = Lock::new();
            String::from_str(alloc, "new").ok()
        }
        "lock" => format!(in alloc; "{}", lock_by(alloc, lock, passphrase)?).ok(),
        "unlock" => format!(in alloc; "{}", lock.unlock(passphrase)).ok(),
        "locked" => format!(in alloc; "{}", lock.is_locked()).ok(),
        _ => None,
    }
}

fn lock_by(alloc: Global, lock: &mut Lock, passphrase: &[u8]) -> Option<bool> {
    if passphrase.len() > LONGEST {
        return None;
    }
    let passphrase = SecretBytes::from_slice(alloc, passphrase).ok()?;
    Some(lock.lock(passphrase))
}
