#![tactic(auto)]

// CRC-16 of a slice of bytes, in two kinds: `modbus` checks a packet, `ccitt` is the second maker's.
//
// What a CRC is stands in specs/Crc.antt of the crate `crc`; each function here is equal to that definition on every slice. A long message
// is folded to a few bytes with the same register (the crate `folding`), these go by tables (`slicing`). Both kinds share these functions;
// each has its parameters and tables.
mod ccitt_table;
mod modbus_table;
mod parameters;
mod register;

ghost use Rattle.std.specs.Prelude.{◌≡◌};
ghost use Rattle.crc.specs.Crc.{checksum, crc16_ccitt, crc16_modbus};

use crate::parameters::Parameters;
use folding::message::Fold;
use slicing::register::Direction;

// CRC-16/MODBUS: 8005 reflected, start FFFF, no final xor. Folded over x^59 + x^14 + x^3 + 1.
pub fn modbus(s: &[u8]) -> u16
    ensures { result ≡ checksum crc16_modbus s.now }
{
    let t = modbus_table::MODBUS;
    let p = Parameters {
        poly: 0xA001,
        start: 0xFFFF,
        fold: Fold {
            direction: Direction::Reflected,
            offsets: [45, 56, 59],
            far: 59,
        },
    };
    register::over(&p, &t, s)
}

// CRC-16/CCITT-FALSE: 1021, start FFFF, not reflected, no final xor. Folded over x^73 + x^36 + x^26 + 1.
pub fn ccitt(s: &[u8]) -> u16
    ensures { result ≡ checksum crc16_ccitt s.now }
{
    let t = ccitt_table::CCITT;
    let p = Parameters {
        poly: 0x1021,
        start: 0xFFFF,
        fold: Fold {
            direction: Direction::Normal,
            offsets: [37, 47, 73],
            far: 73,
        },
    };
    register::over(&p, &t, s)
}
