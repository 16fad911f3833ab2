//! The length of constraints on the wire, by their parts: keys, hops, destinations, purposes and limits.

ghost use Rattle.std.specs.Prelude.{◌≡◌, ◌<◌, ◌^◌, All, length, map};
ghost use Rattle.std.specs.List.{flat_map};
ghost use Rattle.constraint_rec.specs.Constraints.{item_text, purposes_text};
ghost use Rattle.constraint_rec.specs.Hops.{IsDestination, constraint_text, hop_text, key_text, list_text};
ghost use Rattle.constraint_rec.specs.Writing.{IsWritable, MeetsRules, confirm_items, constraints_bytes, life_items, purpose_items, rule_items, use_items, spelt_constraint, spelt_hop, spelt_key};
ghost use Rattle.key_purposes.specs.Purposes.{word_of};
ghost use Rattle.add_rules.specs.Lengths.{counted};
ghost use Rattle.wire_text.specs.Wire.{string};

use constraint_rec::{Constraint, Hop, KeySpec, Terms};
use key_purposes::Purpose;

/// The bytes of some keys, each with its length and the byte behind it.
fn keys_len(keys: &[KeySpec]) -> usize
    ensures { result ≡ counted (length (flat_map (λ key. key_text (spelt_key key)) keys.now)) }
{
    let mut len: usize = 0;
    'keys: for key in keys {
        len = len.saturating_add(key.blob.len()).saturating_add(5);
    }
    len
}

/// The bytes of a hop.
fn hop_len(hop: &Hop) -> usize
    ensures { result ≡ counted (length (hop_text (spelt_hop hop.now))) }
{
    let texts = hop.user.len().saturating_add(hop.host.len());
    texts
        .saturating_add(keys_len(hop.keys.as_slice()))
        .saturating_add(12)
}

/// The bytes of a destination constraint.
fn rule_len(rule: &Constraint) -> usize
    ensures { result ≡ counted (length (constraint_text (spelt_constraint rule.now))) }
{
    hop_len(&rule.from)
        .saturating_add(hop_len(&rule.to))
        .saturating_add(12)
}

/// The bytes of destination constraints, each with its length.
fn list_len(rules: &[Constraint]) -> usize
    ensures { result ≡ counted (length (list_text (map spelt_constraint rules.now))) }
{
    let mut len: usize = 0;
    'rules: for rule in rules {
        len = len.saturating_add(rule_len(rule)).saturating_add(4);
    }
    len
}

/// The bytes of the extension that holds destination constraints; none where it isn't there.
fn rules_len(rules: &[Constraint]) -> usize
    ensures { result ≡ counted (length (flat_map item_text (rule_items rules.now))) }
{
    if rules.is_empty() {
        return 0;
    }
    list_len(rules).saturating_add(45)
}

/// The bytes of a lifetime, where it is there.
fn life_len(life: Option<u32>) -> usize
    ensures { result ≡ length (flat_map item_text (life_items life)) }
{
    match life {
        Some(_) => 5,
        None => 0,
    }
}

/// The bytes of confirmation, where it is asked for.
fn confirm_len(confirm: bool) -> usize
    ensures { result ≡ length (flat_map item_text (confirm_items confirm)) }
{
    if confirm { 1 } else { 0 }
}

/// The bytes of a number of uses, where it is there.
fn uses_len(uses: Option<u32>) -> usize
    ensures { result ≡ length (flat_map item_text (use_items uses)) }
{
    match uses {
        Some(_) => 29,
        None => 0,
    }
}

/// The bytes of the word of a purpose.
fn word_len(purpose: &Purpose) -> usize
    ensures { result ≡ counted (length (word_of purpose.now)) }
{
    match purpose {
        Purpose::Login | Purpose::Other => 5,
        Purpose::Certificate => 11,
        Purpose::Namespace(namespace) => namespace.len().saturating_add(7),
        Purpose::AnyNamespace => 6,
    }
}

/// The bytes of purposes, each with its length.
fn words_len(purposes: &[Purpose]) -> usize
    ensures { result ≡ counted (length (purposes_text purposes.now)) }
{
    let mut len: usize = 0;
    'purposes: for purpose in purposes {
        len = len.saturating_add(word_len(purpose)).saturating_add(4);
    }
    len
}

/// The bytes of the extension that holds purposes; none where it isn't there.
fn purposes_len(purposes: &[Purpose]) -> usize
    ensures { result ≡ counted (length (flat_map item_text (purpose_items purposes.now))) }
{
    if purposes.is_empty() {
        return 0;
    }
    words_len(purposes).saturating_add(33)
}

/// How many bytes the constraints take as `write_constraints` writes them, or the greatest number
/// where it doesn't fit.
pub fn constraints_len(terms: &Terms) -> usize
    ensures value { result ≡ counted (length (constraints_bytes terms.now)) }

    // Constraints that fit a request can be written.
    ensures writable { MeetsRules terms.now
        → length (constraints_bytes terms.now) < 2 ^ 32 → IsWritable terms.now }
{
    rules_len(terms.rules.as_slice())
        .saturating_add(life_len(terms.life))
        .saturating_add(confirm_len(terms.confirm))
        .saturating_add(uses_len(terms.uses))
        .saturating_add(purposes_len(terms.purposes.as_slice()))
}
