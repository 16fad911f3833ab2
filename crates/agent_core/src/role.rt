//! Who is at a port: derived from its door and the link's state. And which port the helper is at, to be written.

ghost use Rattle.std.specs.Prelude.{◌≡◌, None};
ghost use Rattle.std.specs.Option.{option_map};
ghost use Rattle.agent_model.specs.State.{Port, find_port, is_linked_to, owed_as, role_by_link, role_of};
ghost use Rattle.confirm_desk.specs.Calls.{lesser};
ghost use Rattle.confirm_desk.specs.Confirmations.{find_linked};
ghost use Rattle.world_ports.specs.declared.Door.TheVariants.{Children};
ghost use Rattle.agent_core.specs.Roles.{next_of, owed_helper, role_by, role_kind};

use crate::ports::Ports;
use helper_link::LinkState;
use under_way::UnderWay;
use world_ports::Door;

/// Who is at a port.
#[derive(Clone, Copy, Debug, PartialEq, Eq)]
pub enum Role {
    Client,
    /// A child process that hasn't named itself.
    Unnamed,
    Helper,
    /// A child process that asks the user.
    Confirmer,
}

/// Who is at the port of this number, where it is open.
pub fn role_at(ports: &Ports, under_way: &UnderWay, number: u64) -> Option<Role>
    ensures { result ≡ option_map role_kind (role_by (find_port number ports.now.ports) under_way.now) }
{
    match ports.door(number) {
        Some(Door::Clients) => Some(Role::Client),
        Some(Door::Children) => Some(child_role(under_way, number)),
        None => None,
    }
}

/// Which child process is at the port of this number.
pub fn child_role(under_way: &UnderWay, number: u64) -> Role
    ensures { result ≡ role_kind (role_of Children number under_way.now) }
{
    if is_linked(under_way.link_state(), number) {
        Role::Helper
    } else {
        role_by_link(under_way, number)
    }
}

/// What the child process at the port of this number is owed: nothing where it hasn't named itself.
pub fn child_owed(under_way: &UnderWay, number: u64) -> &[u8]
    ensures { (port : Port) → result.now ≡ owed_as (role_of Children number under_way.now) port under_way.now }
{
    if is_linked(under_way.link_state(), number) {
        under_way.owed()
    } else {
        under_way.confirmer_owed(number)
    }
}

// Which one that isn't the helper.
fn role_by_link(under_way: &UnderWay, number: u64) -> Role
    ensures { result ≡ role_kind (role_by_link (find_linked number under_way.now.confirmations)) }
{
    match under_way.find_confirmer(number) {
        Some(_) => Role::Confirmer,
        None => Role::Unnamed,
    }
}

/// Whether the helper is at this port.
pub fn is_linked(link: LinkState, number: u64) -> bool
    ensures { result ≡ is_linked_to number link }
{
    match link {
        LinkState::Linked { port } => port == number,
        LinkState::None | LinkState::Starting { .. } => false,
    }
}

/// The helper's port, where it is open and owed bytes.
pub fn owed_helper(ports: &Ports, under_way: &UnderWay) -> Option<u64>
    ensures { result ≡ owed_helper under_way.now ports.now.ports }
{
    match under_way.link_state() {
        LinkState::Linked { port } => match ports.door(port) {
            Some(Door::Children) if !under_way.owed().is_empty() => Some(port),
            _ => None,
        },
        LinkState::None | LinkState::Starting { .. } => None,
    }
}

/// The same where its number is above `after`.
pub fn owed_helper_above(ports: &Ports, under_way: &UnderWay, after: u64) -> Option<u64>
    ensures { result ≡ next_of after None (owed_helper under_way.now ports.now.ports) }
{
    match owed_helper(ports, under_way) {
        Some(port) if port > after => Some(port),
        _ => None,
    }
}

/// The lesser of two ports, where there are two.
pub fn lesser(port: Option<u64>, other: Option<u64>) -> Option<u64>
    ensures { result ≡ lesser port other }
{
    match (port, other) {
        (Some(port), Some(other)) => Some(port.min(other)),
        (Some(port), None) => Some(port),
        (None, other) => other,
    }
}
