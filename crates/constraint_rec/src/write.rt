//! The writer of constraints.

ghost use Rattle.std.specs.Prelude.{◌≡◌, ◌^◌, ◌<◌, ◌++◌, length, map, IfSome, IfOk, OnOk, OnErr, Ok};
ghost use Rattle.std.specs.List.{flat_map};
ghost use Rattle.wire_text.specs.Wire.{string};
ghost use Rattle.constraint_rec.specs.Hops.{key_text, hop_text, constraint_text, list_text};
ghost use Rattle.constraint_rec.specs.Constraints.{IsConstraints, item_text};
ghost use Rattle.constraint_rec.specs.Reading.{terms_of};
ghost use Rattle.constraint_rec.specs.Writing.{spelt_key, spelt_hop, spelt_constraint, life_items, confirm_items, use_items, rule_items, purpose_items, constraints_bytes, IsWritable, AreNamed};

use crate::constraint::{Constraint, Hop};
use crate::key_spec::KeySpec;
use crate::kind::{purposes_name, restrict_destination, uses_name};
use crate::purposes::purposes_text;
use crate::terms::Terms;
use key_purposes::Purpose;
use std::alloc::{AllocError, Global};
use wire_core::{put_string, put_u8, put_u32};

fn put_key(out: &mut Vec<u8>, key: &KeySpec) -> Result<(), AllocError>
    requires { length key.now.blob < 2 ^ 32 }
    ensures { OnOk result (out.new.items ≡ out.old.items ++ key_text (spelt_key key.now)) }
{
    put_string(out, key.blob.as_slice())?;
    put_u8(out, if key.authority { 1 } else { 0 })
}

fn put_keys(out: &mut Vec<u8>, keys: &[KeySpec]) -> Result<(), AllocError>
    requires { length (flat_map (λ key. key_text (spelt_key key)) keys.now) < 2 ^ 32 }
    ensures { OnOk result (out.new.items
        ≡ out.old.items ++ flat_map (λ key. key_text (spelt_key key)) keys.now) }
{
    for key in keys {
        put_key(out, key)?;
    }
    Ok(())
}

fn hop_text(alloc: Global, hop: &Hop) -> Result<Vec<u8>, AllocError>
    requires { length (hop_text (spelt_hop hop.now)) < 2 ^ 32 }
    ensures { IfOk result (λ text. text.items ≡ hop_text (spelt_hop hop.now)) }
{
    let mut text = Vec::new(alloc);
    put_string(&mut text, hop.user.as_slice())?;
    put_string(&mut text, hop.host.as_slice())?;
    put_string(&mut text, &[])?;
    put_keys(&mut text, hop.keys.as_slice())?;
    Ok(text)
}

fn destination_text(alloc: Global, rule: &Constraint) -> Result<Vec<u8>, AllocError>
    requires { length (constraint_text (spelt_constraint rule.now)) < 2 ^ 32 }
    ensures { IfOk result (λ text. text.items ≡ constraint_text (spelt_constraint rule.now)) }
{
    let mut text = Vec::new(alloc);
    let from = hop_text(alloc, &rule.from)?;
    put_string(&mut text, &from)?;
    let to = hop_text(alloc, &rule.to)?;
    put_string(&mut text, &to)?;
    put_string(&mut text, &[])?;
    Ok(text)
}

fn put_destination(out: &mut Vec<u8>, rule: &Constraint) -> Result<(), AllocError>
    requires { length (constraint_text (spelt_constraint rule.now)) < 2 ^ 32 }
    ensures { OnOk result (out.new.items
        ≡ out.old.items ++ string (constraint_text (spelt_constraint rule.now))) }
{
    let text = destination_text(*out.allocator(), rule)?;
    put_string(out, &text)
}

fn destinations_text(alloc: Global, rules: &[Constraint]) -> Result<Vec<u8>, AllocError>
    requires { length (list_text (map spelt_constraint rules.now)) < 2 ^ 32 }
    ensures { IfOk result (λ text. text.items ≡ list_text (map spelt_constraint rules.now)) }
{
    let mut text = Vec::new(alloc);
    for rule in rules {
        put_destination(&mut text, rule)?;
    }
    Ok(text)
}

fn put_life(out: &mut Vec<u8>, life: Option<u32>) -> Result<(), AllocError>
    ensures ok { OnOk result (out.new.items
        ≡ out.old.items ++ flat_map item_text (life_items life)) }
    ensures fits { IfSome life (λ seconds. seconds < 2 ^ 32) }
{
    if let Some(seconds) = life {
        put_u8(out, 1)?;
        put_u32(out, seconds)?;
    }
    Ok(())
}

fn put_confirm(out: &mut Vec<u8>, confirm: bool) -> Result<(), AllocError>
    ensures { OnOk result (out.new.items
        ≡ out.old.items ++ flat_map item_text (confirm_items confirm)) }
{
    if confirm {
        put_u8(out, 2)?;
    }
    Ok(())
}

fn put_uses(out: &mut Vec<u8>, uses: Option<u32>) -> Result<(), AllocError>
    ensures { OnOk result (out.new.items
        ≡ out.old.items ++ flat_map item_text (use_items uses)) }
{
    if let Some(count) = uses {
        put_u8(out, 255)?;
        put_string(out, uses_name())?;
        put_u32(out, count)?;
    }
    Ok(())
}

fn put_rules(out: &mut Vec<u8>, rules: &[Constraint]) -> Result<(), AllocError>
    requires { length (list_text (map spelt_constraint rules.now)) < 2 ^ 32 }
    ensures { OnOk result (out.new.items
        ≡ out.old.items ++ flat_map item_text (rule_items rules.now)) }
{
    if !rules.is_empty() {
        put_u8(out, 255)?;
        put_string(out, restrict_destination())?;
        let text = destinations_text(*out.allocator(), rules)?;
        put_string(out, &text)?;
    }
    Ok(())
}

fn put_purposes(out: &mut Vec<u8>, purposes: &[Purpose]) -> Result<(), AllocError>
    requires { AreNamed purposes.now }
    ensures { OnOk result (out.new.items
        ≡ out.old.items ++ flat_map item_text (purpose_items purposes.now)) }
{
    if !purposes.is_empty() {
        put_u8(out, 255)?;
        put_string(out, purposes_name())?;
        let text = purposes_text(*out.allocator(), purposes)?;
        put_string(out, &text)?;
    }
    Ok(())
}

fn constraints_text(alloc: Global, terms: &Terms) -> Result<Vec<u8>, AllocError>
    requires { IsWritable terms.now }
    ensures ok { IfOk result (λ text. text.items ≡ constraints_bytes terms.now) }
    ensures fits { IfSome terms.now.life (λ seconds. seconds < 2 ^ 32) }
{
    let mut text = Vec::new(alloc);
    put_life(&mut text, terms.life)?;
    put_confirm(&mut text, terms.confirm)?;
    put_uses(&mut text, terms.uses)?;
    put_rules(&mut text, terms.rules.as_slice())?;
    put_purposes(&mut text, terms.purposes.as_slice())?;
    Ok(text)
}

/// Appends the lifetime, confirmation, the number of uses, the destination constraints and the purposes, each where it
/// is there.
pub fn write_constraints(out: &mut Vec<u8>, terms: &Terms) -> Result<(), AllocError>
    requires { IsWritable terms.now }
    ensures ok { OnOk result (out.new.items ≡ out.old.items ++ constraints_bytes terms.now) }
    ensures unchanged { OnErr result (out.new.items ≡ out.old.items) }

    // What is written is in the grammar, and is read back.
    ensures written { IsConstraints (constraints_bytes terms.now) terms.now }
    ensures read_back { terms_of (constraints_bytes terms.now) ≡ Ok terms.now }
{
    let text = constraints_text(*out.allocator(), terms)?;
    out.extend_from_slice(&text)
}
