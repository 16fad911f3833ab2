//! The bindings of a connection in their order, within bounds, and whether a new one is taken.

ghost use Rattle.std.specs.Prelude.{◌≡◌, ◌≤◌, true, [], length, IfOk, OnOk, OnErr, IsOk};
ghost use Rattle.std.specs.List.{sum_by};
ghost use Rattle.std.specs.Option.{option_copied};
ghost use Rattle.key_blob.specs.PublicKeys.{public_key_of};
ghost use Rattle.dest_rule.specs.Chains.{IsChain, New, has_room, most_keys, most_names, names_len, is_session, newest, find_session, is_open, judge, bound, no_chain};

use crate::binding::Binding;
use crate::fault::{ChainFault, Next};
use key_blob::read_public;
use plain_lists::Bytes;
use std::alloc::{AllocError, Global};
use std::marker::Model;

/// The most bindings of a connection.
const MOST_BINDINGS: usize = 16;

/// The most bytes of all host keys of a connection's bindings.
const MOST_KEY_BYTES: usize = 65_536;

/// The most bytes of principals of all host keys of a connection's bindings.
const MOST_NAMES: usize = 1024;

/// The longest session identifier, in bytes.
const LONGEST_SESSION: usize = 128;

/// The hosts that a connection was bound to, the oldest first, and whether it tried to bind.
#[derive(Drop)]
pub struct Chain {
    bindings: Vec<Binding>,
    attempted: bool,
}

impl Model for Chain {
    ghost use Rattle.dest_rule.specs.Chains.{ChainState, IsChain};

    ghost Value = { ChainState };

    ghost view = { λ chain. record {
      bindings = chain.bindings.items;
      attempted = chain.attempted;
    } };

    ghost invariant = { λ chain. IsChain chain.bindings.items };
}

/// Whether a session identifier has 1 to 128 bytes.
fn is_session(session: &[u8]) -> bool
    ensures { result ≡ is_session session.now }
{
    !session.is_empty() && session.len() <= LONGEST_SESSION
}

/// Whether a binding may follow these.
fn is_open(bindings: &[Binding]) -> bool
    ensures { result ≡ is_open (newest bindings.now) }
{
    match bindings.last() {
        Some(newest) => newest.forwarding,
        None => true,
    }
}

/// The binding of this session.
fn find_session<'a>(bindings: &'a [Binding], session: &[u8]) -> Option<&'a Binding>
    ensures { option_copied result ≡ find_session session.now bindings.now }
{
    for binding in bindings {
        if binding.session.as_slice() == session {
            return Some(binding);
        }
    }
    None
}

/// How many bytes the host keys of these have in all.
fn host_keys_len(bindings: &[Binding]) -> usize
    requires { sum_by (λ one. length one.host_key) bindings.now ≤ most_keys }
    ensures { result ≡ sum_by (λ one. length one.host_key) bindings.now }
{
    let mut len = 0;
    for binding in bindings {
        len += binding.host_key.len();
    }
    len
}

/// How many bytes of principals a host key's certificate names, where it is one.
fn names_len(host_key: &[u8]) -> usize
    ensures { result ≡ names_len (public_key_of host_key.now) }
{
    let Ok(key) = read_public(host_key) else {
        return 0;
    };
    match key.certificate {
        Some(certificate) => certificate.principals.len(),
        None => 0,
    }
}

/// How many bytes of principals the host keys of these name in all.
fn all_names_len(bindings: &[Binding]) -> usize
    requires { sum_by (λ one. names_len (public_key_of one.host_key)) bindings.now ≤ most_names }
    ensures { result ≡ sum_by (λ one. names_len (public_key_of one.host_key)) bindings.now }
{
    let mut len = 0;
    for binding in bindings {
        len += names_len(binding.host_key.as_slice());
    }
    len
}

/// Whether these have room for one more, of this host key.
fn has_room(bindings: &[Binding], host_key: &[u8]) -> bool
    requires { IsChain bindings.now }
    ensures { result ≡ has_room host_key.now bindings.now }
{
    bindings.len() < MOST_BINDINGS
        && host_key.len() <= MOST_KEY_BYTES - host_keys_len(bindings)
        && names_len(host_key) <= MOST_NAMES - all_names_len(bindings)
}

/// A binding of these parts.
fn binding_of(
    alloc: Global,
    host_key: &[u8],
    session: &[u8],
    forwarding: bool,
) -> Result<Binding, AllocError>
    ensures { IfOk result (λ binding. binding ≡ record {
      host_key = host_key.now;
      session = session.now;
      forwarding = forwarding;
    }) }
{
    Ok(Binding {
        host_key: Bytes::from_vec(Vec::from_slice(alloc, host_key)?),
        session: Bytes::from_vec(Vec::from_slice(alloc, session)?),
        forwarding,
    })
}

impl Chain {
    /// A connection that tried to bind to nothing. Takes no memory.
    pub fn new(alloc: Global) -> Chain
        ensures { result ≡ no_chain }
    {
        Chain {
            bindings: Vec::new(alloc),
            attempted: false,
        }
    }

    /// Marks that the connection tried to bind, whatever comes of it.
    pub fn attempt(&mut self)
        ensures { self.new ≡ record self.old { attempted = true } }
    {
        self.attempted = true;
    }

    /// What is to be done with a binding of this host key and session. That the host key signed the
    /// session is not looked at.
    #[tactic(auto, unfolding(crate::specs::Chains::judge))]
    pub fn judge(&self, host_key: &[u8], session: &[u8]) -> Next
        ensures value { result ≡ judge host_key.now session.now self.now.bindings }
        ensures chain { IsChain self.now.bindings }
    {
        let bindings = self.bindings();
        if !is_session(session) {
            return Next::Refuse(ChainFault::SessionLength);
        }
        if !is_open(bindings) {
            return Next::Refuse(ChainFault::AuthBound);
        }
        match find_session(bindings, session) {
            Some(known) if known.host_key.as_slice() == host_key => Next::Same,
            Some(_) => Next::Refuse(ChainFault::OtherKey),
            None if has_room(bindings, host_key) => Next::New,
            None => Next::Refuse(ChainFault::ChainFull),
        }
    }

    /// Adds a binding, which `judge` finds to be new.
    pub fn bind(
        &mut self,
        host_key: &[u8],
        session: &[u8],
        forwarding: bool,
    ) -> Result<(), AllocError>
        requires new { judge host_key.now session.now self.old.bindings ≡ New }
        requires key { IsOk (public_key_of host_key.now) }
        ensures ok { OnOk result (self.new ≡ record self.old {
          bindings = bound (record {
            host_key = host_key.now;
            session = session.now;
            forwarding = forwarding;
          }) self.old.bindings;
        }) }
        ensures unchanged { OnErr result (self.new ≡ self.old) }
    {
        let alloc = *self.bindings.allocator();
        let binding = binding_of(alloc, host_key, session, forwarding)?;
        self.bindings.push(binding)?;
        Ok(())
    }

    /// The bindings, lent: at most 16, with at most 65536 bytes of host keys and 1024 of principals in all.
    pub(crate) fn bindings(&self) -> &[Binding]
        ensures value { result.now ≡ self.now.bindings }
        ensures chain { IsChain self.now.bindings }
    {
        self.bindings.as_slice()
    }

    /// Whether the connection tried to bind.
    pub(crate) fn attempted(&self) -> bool
        ensures { result ≡ self.now.attempted }
    {
        self.attempted
    }
}
