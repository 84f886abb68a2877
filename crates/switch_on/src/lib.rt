// Switch-on: a bridge made from stored settings.
#![tactic(auto)]

ghost use Rattle.std.specs.Prelude.{◌≡◌, [], true, false, length, IfOk, IfErr, MatchResult};
ghost use Rattle.packet.specs.Register.{zeros};
ghost use Rattle.switch_on.specs.Start.{starting};
ghost use Rattle.switch_on.specs.SwitchOn.{state_of, zero_state, used_of, is_on, reason_for, switched, refusal, switch_of, settings_of};

mod actions;
mod images;

use bridge::Bridge;
use refusals::Refusal;
use registers::{Page, Shared, State, Wait};

// What the device has besides an image: the IOG count, the version and the serial number, low byte first.
#[derive(Clone, Copy)]
pub struct Device {
    pub cycles: u8,
    pub version: u8,
    pub serial: [u8; registers::SERIAL],
}

// What switch-on answers: the bridge, whether it is on or why not, and how many actions were written. (The Result stands beside them,
// since a refused switch-on answers them too.)
#[derive(Clone, Copy)]
pub struct SwitchedOn {
    pub bridge: Bridge,
    pub outcome: Result<(), Refusal>,
    pub actions: usize,
}

// The state where all is zero.
fn zero() -> State
    ensures { result ≡ zero_state }
{
    State {
        page: Page {
            flags: 0,
            error: 0,
            ddrb: 0,
            portb: 0,
            ddrc: 0,
            portc: 0,
            ddrd: 0,
            portd: 0,
            config: 0,
            configured: false,
            size: 0,
            packet: [0; packet::BYTES],
            timings: [0; registers::TIMINGS],
        },
        shared: Shared {
            eprom: [0; registers::IMAGE],
            cycles: 0,
            version: 0,
            serial: [0; registers::SERIAL],
        },
        wait: Wait::Nothing,
        held: [0; registers::HELD],
        drop: false,
    }
}

// A refused switch-on: an all-zero state and no action.
fn refused(why: Refusal) -> SwitchedOn
    ensures { result ≡ refusal why }
{
    let s = zero();
    SwitchedOn {
        bridge: Bridge { state: s },
        outcome: Err(why),
        actions: 0,
    }
}

// The state at switch-on: nothing is waited for.
fn state(page: Page, eprom: [u8; registers::IMAGE], device: Device) -> State
    ensures { result ≡ state_of page eprom device }
{
    let serial = device.serial;
    let shared = Shared {
        eprom,
        cycles: device.cycles,
        version: device.version,
        serial,
    };
    State {
        page,
        shared,
        wait: Wait::Nothing,
        held: [0; registers::HELD],
        drop: false,
    }
}

// The image that is used, or why there is none: the factory image is not good, or else the actions do not fit. The room is the
// size of the buffer for the actions, with its mark.
#[tactic(auto, unfolding(crate::specs::SwitchOn::settings_of))]
fn chosen<'a>(
    stored: &'a [u8],
    factory: &'a [u8],
    room: usize,
    mark: usize,
) -> Result<&'a [u8], Refusal>
    ensures on { IfOk result (λ i. (is_on stored.now factory.now room mark ≡ true) × (i.now ≡ used_of stored.now factory.now)) }
    ensures off { IfErr result (λ why. (is_on stored.now factory.now room mark ≡ false) × (why ≡ reason_for factory.now)) }
    ensures settings { MatchResult result (λ i. i.now ≡ settings_of stored.now factory.now room mark) (λ _. settings_of stored.now factory.now room mark ≡ []) }
{
    if !settings::is_good(factory) {
        return Err(Refusal::Factory);
    }
    let used = images::used(stored, factory);
    let page = settings::page(used);
    if !wire::fits(room, mark, actions::size(page)) {
        return Err(Refusal::Actions);
    }
    Ok(used)
}

// The part of one of the two images that is used; where switch-on is refused, the empty front part of the factory image.
#[tactic(auto, using(crate::proofs::NoSettings::no_settings), unfolding(crate::specs::SwitchOn::settings_of))]
pub fn settings<'a>(stored: &'a [u8], factory: &'a [u8], room: usize, mark: usize) -> &'a [u8]
    ensures used { result.now ≡ settings_of stored.now factory.now room mark }
    ensures none { length result.now ≡ 0 → is_on stored.now factory.now room mark ≡ false }
{
    chosen(stored, factory, room, mark).unwrap_or(&factory[..0])
}

// Switches the bridge on, by the settings used: its actions go to a lent buffer from a mark on.
pub fn switch_on<'a>(
    stored: &'a [u8],
    factory: &'a [u8],
    device: Device,
    buffer: &mut [u8],
    mark: usize,
) -> SwitchedOn
    ensures { switched result buffer.new ≡ switch_of stored.now factory.now device buffer.old mark }
{
    let used = match chosen(stored, factory, buffer.len(), mark) {
        Err(why) => return refused(why),
        Ok(used) => used,
    };
    let page = settings::page(used);
    let eprom = images::eprom(stored, factory);
    let s = state(page, eprom, device);
    let n = actions::put(&mut buffer[mark..], page);
    SwitchedOn {
        bridge: Bridge { state: s },
        outcome: Ok(()),
        actions: n / wire::ACTION_BYTES,
    }
}

// Switched on from a factory image, with no stored one. Not by `switch_on`: it would write actions that nobody reads, at every start.
fn from_factory(factory: &[u8], device: Device) -> Bridge
    ensures { result ≡ (switch_of [] factory.now device (zeros 28) 0).answer.bridge }
{
    let stored = &factory[..0];
    let used = match chosen(stored, factory, actions::MOST, 0) {
        Err(why) => return refused(why).bridge,
        Ok(used) => used,
    };
    let eprom = images::eprom(stored, factory);
    let s = state(settings::page(used), eprom, device);
    Bridge { state: s }
}

// The bridge that every session starts with.
pub fn factory_start() -> Bridge
    ensures { result ≡ starting }
{
    let device = Device {
        cycles: 0xFF,
        version: 0,
        serial: [0; registers::SERIAL],
    };
    let factory = settings::FACTORY_IMAGE;
    from_factory(&factory, device)
}
