//! Logins over hosts, one behind another, under destination constraints.

use crate::input::number;
use constraint_rec::{Constraint, read_constraints};
use dest_rule::{Chain, Denial, Next, may_sign, visible};
use key_blob::read_public;
use plain_lists::PlainList;
use std::alloc::Global;
use wire_core::Cursor;

/// A host on the way.
#[derive(Drop)]
struct Host {
    host_key: Vec<u8>,
    session: Vec<u8>,
    /// What the user's key signed to log in there.
    message: Vec<u8>,
}

/// A user's key, the hosts over which it logs in, and its constraints.
#[derive(Drop)]
pub(crate) struct Way {
    blob: Vec<u8>,
    hosts: Vec<Host>,
    rules: PlainList<Constraint>,
}

impl Way {
    pub(crate) fn new(alloc: Global) -> Way {
        Way {
            blob: Vec::new(alloc),
            hosts: Vec::new(alloc),
            rules: PlainList::new(alloc),
        }
    }
}

pub(crate) fn of_way(
    alloc: Global,
    way: &mut Way,
    verb: &str,
    words: &[Vec<u8>],
) -> Option<String> {
    match verb {
        "key" => set_key(alloc, way, words.first()?),
        "host" => add_host(alloc, way, words),
        "rules" => set_rules(alloc, way, words.first()?),
        _ => about_way(alloc, way, verb, words),
    }
}

fn set_key(alloc: Global, way: &mut Way, blob: &[u8]) -> Option<String> {
    way.blob = copy_of(alloc, blob)?;
    way.hosts = Vec::new(alloc);
    String::from_str(alloc, "key").ok()
}

fn add_host(alloc: Global, way: &mut Way, words: &[Vec<u8>]) -> Option<String> {
    way.hosts.push(host_of(alloc, words)?).ok()?;
    format!(in alloc; "host {}", way.hosts.len()).ok()
}

fn set_rules(alloc: Global, way: &mut Way, text: &[u8]) -> Option<String> {
    way.rules = rules_of(alloc, text)?;
    format!(in alloc; "{} constraints", way.rules.len()).ok()
}

fn copy_of(alloc: Global, bytes: &[u8]) -> Option<Vec<u8>> {
    Vec::from_slice(alloc, bytes).ok()
}

/// `HOST_KEY SESSION MESSAGE`
fn host_of(alloc: Global, words: &[Vec<u8>]) -> Option<Host> {
    let [host_key, session, message] = words else {
        return None;
    };
    Some(Host {
        host_key: copy_of(alloc, host_key)?,
        session: copy_of(alloc, session)?,
        message: copy_of(alloc, message)?,
    })
}

fn rules_of(alloc: Global, text: &[u8]) -> Option<PlainList<Constraint>> {
    match read_constraints(alloc, &mut Cursor::new(text)) {
        Ok(terms) => Some(terms.rules),
        Err(_) => None,
    }
}

/// Binds a chain to one host more.
fn bind(chain: &mut Chain, host: &Host, forwarding: bool) -> Option<()> {
    if read_public(&host.host_key).is_err() {
        return None;
    }
    match chain.judge(&host.host_key, &host.session) {
        Next::New => chain.bind(&host.host_key, &host.session, forwarding).ok(),
        _ => None,
    }
}

/// A chain over some hosts.
fn chain_over(alloc: Global, passed: &[Host]) -> Option<Chain> {
    let mut chain = Chain::new(alloc);
    for host in passed {
        chain.attempt();
        bind(&mut chain, host, true)?;
    }
    Some(chain)
}

/// A chain over the hosts before the last, which is logged in to. Without hosts it is bound to none.
fn chain_to(alloc: Global, hosts: &[Host]) -> Option<Chain> {
    let Some((last, passed)) = hosts.split_last() else {
        return Some(Chain::new(alloc));
    };
    let mut chain = chain_over(alloc, passed)?;
    bind(&mut chain, last, false)?;
    Some(chain)
}

fn about_way(alloc: Global, way: &Way, verb: &str, words: &[Vec<u8>]) -> Option<String> {
    match (verb, words) {
        ("attempt", [wall]) => attempt(alloc, way.rules.as_slice(), number(wall)?),
        ("login", [count, wall]) => login(alloc, way, hosts_of(way, count)?, number(wall)?),
        ("sign", [count, wall, blob, message]) => {
            let wall = number(wall)?;
            let signed = sign(alloc, way, hosts_of(way, count)?, blob, message, wall)?;
            said_signed(alloc, signed)
        }
        _ => None,
    }
}

/// So many of the hosts, from the first.
fn hosts_of<'a>(way: &'a Way, count: &[u8]) -> Option<&'a [Host]> {
    way.hosts.get(..number(count)? as usize)
}

/// What is answered where another key or message is to be signed at the last of these hosts.
fn sign(
    alloc: Global,
    way: &Way,
    hosts: &[Host],
    blob: &[u8],
    message: &[u8],
    wall: u64,
) -> Option<Result<(), Denial>> {
    let chain = chain_to(alloc, hosts)?;
    Some(may_sign(way.rules.as_slice(), blob, &chain, message, wall))
}

fn said_signed(alloc: Global, signed: Result<(), Denial>) -> Option<String> {
    format!(in alloc; "{signed:?}").ok()
}

/// Whether the key is listed to a connection that is bound to log in to the last of these hosts, whether it signs there,
/// and whether it is listed to one over which the agent is forwarded to that host.
fn login(alloc: Global, way: &Way, hosts: &[Host], wall: u64) -> Option<String> {
    let rules = way.rules.as_slice();
    let message = hosts.last()?.message.as_slice();
    let chain = chain_to(alloc, hosts)?;
    let listed = visible(rules, &chain, wall);
    let signed = may_sign(rules, &way.blob, &chain, message, wall);
    let beyond = is_listed_beyond(alloc, rules, hosts, wall)?;
    said_login(alloc, listed, signed, beyond)
}

fn is_listed_beyond(
    alloc: Global,
    rules: &[Constraint],
    hosts: &[Host],
    wall: u64,
) -> Option<bool> {
    let chain = chain_over(alloc, hosts)?;
    Some(visible(rules, &chain, wall))
}

fn said_login(
    alloc: Global,
    listed: bool,
    signed: Result<(), Denial>,
    beyond: bool,
) -> Option<String> {
    format!(in alloc; "listed: {listed} signed: {signed:?} listed beyond: {beyond}").ok()
}

/// Whether the key is listed to a connection before it tried to bind and after that.
fn attempt(alloc: Global, rules: &[Constraint], wall: u64) -> Option<String> {
    let mut chain = Chain::new(alloc);
    let before = visible(rules, &chain, wall);
    chain.attempt();
    let after = visible(rules, &chain, wall);
    format!(in alloc; "listed: {before} after a try: {after}").ok()
}
