// The cable is reset.
ghost use Rattle.std.specs.Prelude.{◌≡◌, ℕ, List};
ghost use Rattle.bus.specs.Calls.{Call, Reply};
ghost use Rattle.table.specs.Calls.{reset_engine, Event};
ghost use Rattle.table.specs.Guarantee.{Lawful};
ghost use Rattle.table.specs.View.{view};

use crate::state::Engine;
use bus::Bus;

impl Engine {
    /// Resets the bus, and finishes every waiting, connected or away command RESET. It is never refused.
    pub fn reset<B: Bus>(&mut self, bus: &mut B)
        ensures after { view self.new.state ≡ reset_engine (view self.old.state) }
        ensures bus { B.Bus.did bus.old Call.reset Reply.done bus.new }
        ensures lawful { (m : List ℕ) → Lawful Event.reset (record { engine = view self.old.state; bus = B.Bus.means bus.old; memory = m }) (record { engine = view self.new.state; bus = B.Bus.means bus.new; memory = m }) }
    {
        bus.reset();
        self.clear_all();
    }
}
