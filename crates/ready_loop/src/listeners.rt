//! The listener of an agent that serves.

ghost use Rattle.std.specs.Prelude.{◌≡◌, ◌≤◌, Bool, Err};
ghost use Rattle.agent_model.specs.State.{State};
ghost use Rattle.ready_loop.specs.Serving.{Opens};
ghost use Rattle.world_ports.specs.Causes.{Rose};
ghost use Rattle.world_ports.specs.declared.answers.WorldFault.TheVariants.{Failed};

use world_ports::{Door, World, WorldFault};

// Binds the clients' listener.
pub fn open<W: World>(world: &mut W, path: &str) -> Result<(), WorldFault>
    ensures opened { (until_idle : Bool) (state : State) → Opens result
        (record { path = path.now; until_idle = until_idle; state = state })
        (W.journal world.old) (W.journal world.new) }
    ensures ports { W.last_port world.new ≡ W.last_port world.old }
    ensures second { W.greatest world.new ≡ W.greatest world.old }
    ensures cause { result ≡ Err Failed → Rose (W.faults world.old) (W.faults world.new) }
    ensures later { W.faults world.old ≤ W.faults world.new }
    ensures led { W.leads world.old world.new }
{
    world.bind(Door::Clients, path)
}
