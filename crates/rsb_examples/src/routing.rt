//! A routing table: each address goes to the most specific of the blocks that have it.

ghost use Rattle.std.specs.Prelude.{◌≡◌};
ghost use Rattle.std.specs.Option.{option_map};
ghost use Rattle.range_map_blaze.specs.Map.{value_at};

use range_map_blaze::{MapValue, RangeMapBlaze};
use std::alloc::{AllocError, Global};
use std::io;
use std::net::Ipv4Addr;

/// Where packets go: the address of the next router, and the interface that it is on.
type Hop = (u32, &'static str);

/// A block of addresses, given by the bits that they share and the number of these bits, and where
/// packets to them go.
struct Route {
    destination: u32,
    prefix: u32,
    hop: Hop,
}

// The most specific block comes last.
static ROUTES: &[Route] = &[
    Route {
        destination: 0,
        prefix: 0,
        hop: (0xCB00_7101, "eth0"),
    },
    Route {
        destination: 0x0A00_0000,
        prefix: 8,
        hop: (0xC000_0201, "eth1"),
    },
    Route {
        destination: 0x0A01_0000,
        prefix: 16,
        hop: (0xC000_0202, "eth2"),
    },
];

/// Prints the table as ranges of addresses, and where two packets go.
pub fn show(alloc: Global, rt: &impl Print) -> io::Result<()> {
    let table = routing_table(alloc, ROUTES)?;
    for (block, hop) in table.range_values() {
        let (first, last) = block.into_inner();
        let first = Ipv4Addr::from_bits(first);
        let last = Ipv4Addr::from_bits(last);
        let next = Ipv4Addr::from_bits(hop.0);
        println!(rt; "{first}..={last} to {next} on {}", hop.1)?;
    }
    Ok(())
}

/// Returns the table of routes. A later route takes precedence over earlier ones.
fn routing_table(
    alloc: Global,
    routes: &'static [Route],
) -> Result<RangeMapBlaze<u32, Hop>, AllocError> {
    let mut table = RangeMapBlaze::new(alloc);
    for route in routes {
        let free = u32::MAX.checked_shr(route.prefix).unwrap_or(0);
        let first = route.destination & !free;
        let last = route.destination | free;
        table.ranges_insert(first..=last, route.hop)?;
    }
    Ok(table)
}

/// Returns where a packet to an address goes, or `None` if no route has the address.
pub fn hop_of<V: MapValue>(table: &RangeMapBlaze<u32, V>, address: u32) -> Option<&V>
    ensures { option_map (λ hop. V.seen hop.now) result ≡ value_at table.now address }
{
    table.get(address)
}
