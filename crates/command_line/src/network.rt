//! Networks on the command line.

ghost use Rattle.std.specs.Prelude.{◌≤◌};

use crate::networks::address_number;
use std::net::IpAddr;

/// The bits of an address of IPv6.
const ADDRESS_BITS: u8 = 128;

/// A network: the addresses that begin with the same bits as one of them. An IPv4 counts as the
/// IPv6 that stands for it, `::ffff:a.b.c.d`.
#[derive(Clone, Copy, Debug, PartialEq, Eq)]
pub struct Network {
    pub(crate) number: u128,
    pub(crate) bits: u8,
    ghost within: { bits ≤ 128 },
}

impl Network {
    ghost use Rattle.std.specs.Prelude.{◌≡◌, true};
    ghost use Rattle.command_line.specs.Networks.{first_bits, holds};

    /// Whether an address is in the network. All are in one of 0 bits, IPv4s too.
    pub fn holds(&self, address: IpAddr) -> bool
        ensures holds { result ≡ holds self.now address }
        ensures all { self.now.bits ≡ 0 → result ≡ true }
    {
        self.first_bits(address_number(address)) == self.first_bits(self.number)
    }

    // As many bits of an address as count here, as a number.
    fn first_bits(&self, number: u128) -> u128
        ensures bits { result ≡ first_bits self.now.bits number }
        ensures none { self.now.bits ≡ 0 → result ≡ 0 }
    {
        if self.bits == 0 {
            return 0;
        }
        number >> (ADDRESS_BITS - self.bits)
    }
}
