// FD: a packet.
ghost use Rattle.std.specs.Prelude.{◌≡◌, true, cond, not, ◌&&◌, ◌+◌, ◌<◌, eqb};
ghost use Rattle.commands.specs.Limits.{max_next};
ghost use Rattle.commands.specs.States.{granted, bad_crc_fd};
ghost use Rattle.packets.specs.FD.{not_receiving_here, repeats, not_next, wrong_size, wrong_crc, state_fd, numbered_on};
ghost use Rattle.packets.specs.FD.{after_packet, area_with, answer_fd, area_fd};

use commands::limits::MAX_NEXT;
use commands::state;
use replies::reply;
use requests::request::RequestFD;
use transfer::phase::is_receiving;
use transfer::state::{Leg, Step, Transfer};

// `packet` is the frame's data behind the fields.
pub fn answer(t: Transfer, r: RequestFD, packet: &[u8], area: &mut [u8]) -> Step
    ensures { (result ≡ answer_fd t r packet.now area.old) ×
        (area.new ≡ area_fd t r packet.now area.old) }
{
    let state = packet_state(t, r, packet, &area[..]);
    let reply = reply::state(r.channel, state);
    if stores(t, r, state) {
        let next = after_packet(t, packet, area);
        return Step::replied(next, reply);
    }
    Step::replied(t, reply)
}

// Its bytes are stored, and another number is the next.
fn after_packet(t: Transfer, packet: &[u8], area: &mut [u8]) -> Transfer
    requires { t.leg.next < max_next }
    ensures { (result ≡ after_packet t packet.now area.old) ×
        (area.new ≡ area_with t packet.now area.old) }
{
    Transfer {
        leg: numbered_on(t.leg),
        progress: t.progress.store(packet, area),
        ..t
    }
}

fn numbered_on(leg: Leg) -> Leg
    requires { leg.next < max_next }
    ensures { result ≡ numbered_on leg }
{
    Leg {
        next: leg.next + 1,
        ..leg
    }
}

// The state stays the wire's byte: `state_fd`, which the claims about FD name, gives it.
#[tactic(auto, unfolding(crate::specs::FD::state_fd))]
fn packet_state(t: Transfer, r: RequestFD, packet: &[u8], area: &[u8]) -> u8
    ensures { result ≡ state_fd t r packet.now area.now }
{
    if not_receiving_here(t, r) {
        return state::FD_NOT_RECEIVING;
    }
    if repeats(t, r, packet, area) {
        return crc_state(r, packet);
    }
    if not_next(t, r) {
        return state::FD_OTHER_NUMBER;
    }
    if wrong_size(t, r, packet.len()) {
        return state::FD_BAD_SIZE;
    }
    crc_state(r, packet)
}

// Of the packets answered 00 the repeated one is not the next: its bytes stand in the area already.
fn stores(t: Transfer, r: RequestFD, state: u8) -> bool
    ensures { result ≡ (eqb state granted && eqb r.number t.leg.next) }
{
    state == state::GRANTED && r.number == t.leg.next
}

fn not_receiving_here(t: Transfer, r: RequestFD) -> bool
    ensures { result ≡ not_receiving_here t r }
{
    !is_receiving(t.leg.phase) || t.other_channel(r.channel)
}

// Whether it is the packet accepted last, sent again because our reply was lost.
#[tactic(auto, unfolding(crate::specs::FD::repeats))]
fn repeats(t: Transfer, r: RequestFD, packet: &[u8], area: &[u8]) -> bool
    ensures { result ≡ repeats t r packet.now area.now }
{
    one_below(t, r) && r.size == t.progress.last && t.progress.is_last(packet, area)
}

// No number is below 0.
fn one_below(t: Transfer, r: RequestFD) -> bool
    ensures { result ≡ eqb (r.number + 1) t.leg.next }
{
    0 < t.leg.next && r.number == t.leg.next - 1
}

fn not_next(t: Transfer, r: RequestFD) -> bool
    ensures { result ≡ not_next t r }
{
    MAX_NEXT <= t.leg.next || r.number != t.leg.next
}

fn wrong_size(t: Transfer, r: RequestFD, n: usize) -> bool
    ensures { result ≡ wrong_size t r n }
{
    let left = t.image.announced.saturating_sub(t.progress.stored);
    r.size != n || r.size == 0 || t.leg.agreed < r.size || left < r.size
}

fn crc_state(r: RequestFD, packet: &[u8]) -> u8
    ensures { result ≡ cond (wrong_crc r packet.now) bad_crc_fd granted }
{
    if wrong_crc(r, packet) {
        state::FD_BAD_CRC
    } else {
        state::GRANTED
    }
}

fn wrong_crc(r: RequestFD, packet: &[u8]) -> bool
    ensures { result ≡ wrong_crc r packet.now }
{
    crc16::modbus(packet) as usize != r.crc
}
