// A register's record, set the three ways of vm.rs.
// The record that was there plays no part: `set_lo` keeps places of the register that it is handed.
ghost use Rattle.std.specs.Prelude.{◌≡◌};
ghost use Rattle.vm.specs.Registers.{direct, high, low, marked};

use crate::{Gpr, GprValue};
use places::SectionAddress;

pub fn set_direct(value: GprValue) -> Gpr
    ensures { result ≡ direct value }
{
    Gpr {
        value,
        hi_addr: None,
        lo_addr: None,
    }
}

pub fn set_hi(value: GprValue, addr: SectionAddress) -> Gpr
    ensures { result ≡ high value addr }
{
    Gpr {
        value,
        hi_addr: Some(addr),
        lo_addr: None,
    }
}

// An older low place wins over addr.
pub fn set_lo(value: GprValue, addr: SectionAddress, hi_gpr: Gpr) -> Gpr
    ensures { result ≡ low value addr hi_gpr }
{
    let hi = hi_gpr.hi_addr;
    let lo = hi_gpr.lo_addr;
    match lo {
        Some(_) => Gpr {
            value,
            hi_addr: hi,
            lo_addr: lo,
        },
        None => Gpr {
            value,
            hi_addr: hi,
            lo_addr: Some(addr),
        },
    }
}

// The record with another value, its places kept.
pub fn with_value(g: Gpr, value: GprValue) -> Gpr
    ensures { result ≡ marked g value }
{
    Gpr { value, ..g }
}
