// The judge's call: a start state and bytes.
ghost use Rattle.std.specs.Prelude.{◌≡◌, ◌<◌};
ghost use Rattle.packet.specs.Packet.{width};
ghost use Rattle.bridge.specs.Views.{interface_of, context_of};
ghost use Rattle.bridge.specs.Judging.{judgement_of};

use crate::Bridge;
use grammar::{Context, Interface, Verdict};
use refusals::Refusal;
use registers::parts::{bits_of, i2c_selected, one_wire_selected, spi_selected};
use registers::{State, is_idle};

// The interface that the flags select.
fn interface(flags: u8) -> Option<Interface>
    ensures { result ≡ interface_of flags }
{
    if i2c_selected(flags) {
        Some(Interface::I2C)
    } else if spi_selected(flags) {
        Some(Interface::SPI)
    } else if one_wire_selected(flags) {
        Some(Interface::OneWire)
    } else {
        None
    }
}

// The grammar's context of a state. The caller shows that N is a byte.
fn context(s: State) -> Context
    requires { s.page.size < width }
    ensures { result ≡ context_of s }
{
    Context {
        interface: interface(s.page.flags),
        configured: s.page.configured,
        bits: bits_of(s.page.size),
    }
}

impl Bridge {
    // Judges bytes that would be handed over from here: whole, open, or wrong at a place.
    #[tactic(auto, unfolding(crate::specs::Judging::judgement_of))]
    pub fn judge(self, bytes: &[u8]) -> Result<Verdict, Refusal>
        ensures { result ≡ judgement_of self bytes.now }
    {
        let s = self.state;
        if !registers::in_range(s) {
            return Err(Refusal::Ranges);
        }
        if s.drop || !is_idle(s.wait) {
            return Err(Refusal::Waits);
        }
        Ok(grammar::judge(context(s), bytes))
    }
}
