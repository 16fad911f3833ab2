//! How many open ports there are of a kind.

ghost use Rattle.std.specs.Prelude.{◌≡◌, ◌≤◌, filter, length};
ghost use Rattle.agent_model.specs.State.{client_count, is_client, is_unnamed, role_of, unnamed_count};
ghost use Rattle.agent_core.specs.Roles.{is_unnamed_kind};
ghost use Rattle.agent_core.specs.Slots.{ports_of};
ghost use Rattle.agent_core.specs.declared.slot.Slot.{Slot as ASlot};

use crate::role::{Role, child_role};
use crate::slot::Slot;
use under_way::UnderWay;
use world_ports::Door;

/// How many are clients.
pub fn clients(slots: &[Slot]) -> usize
    ensures value { result ≡ client_count (ports_of slots.now) }
    ensures few { result ≤ length slots.now }
{
    count_clients(slots)
}

fn count_clients(slots: &[Slot]) -> usize
    ensures { result ≡ length (filter (λ (slot : ASlot). is_client slot.door) slots.now) }
{
    slots
        .iter()
        .filter(|slot| slot.door == Door::Clients)
        .count()
}

/// How many are child processes that haven't named themselves.
pub fn unnamed(slots: &[Slot], under_way: &UnderWay) -> usize
    ensures value { result ≡ unnamed_count under_way.now (ports_of slots.now) }
    ensures few { result ≤ length slots.now }
{
    count_unnamed(slots, under_way)
}

fn count_unnamed(slots: &[Slot], under_way: &UnderWay) -> usize
    ensures { result ≡ length (filter (λ (slot : ASlot). is_unnamed (role_of slot.door slot.number under_way.now))
        slots.now) }
{
    slots
        .iter()
        .filter(|slot| is_unnamed(slot, under_way))
        .count()
}

// Whether it is a child process's that hasn't named itself.
fn is_unnamed(slot: &Slot, under_way: &UnderWay) -> bool
    ensures { result ≡ is_unnamed (role_of slot.now.door slot.now.number under_way.now) }
{
    match slot.door {
        Door::Clients => false,
        Door::Children => is_nobody(child_role(under_way, slot.number)),
    }
}

fn is_nobody(role: Role) -> bool
    ensures { result ≡ is_unnamed_kind role }
{
    match role {
        Role::Unnamed => true,
        Role::Client | Role::Helper | Role::Confirmer => false,
    }
}
