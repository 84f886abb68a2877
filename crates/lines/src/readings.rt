// What samples give: levels in an order, and the number that they make.
ghost use Rattle.std.specs.Prelude.{◌≡◌, ◌+◌, ◌≤◌, ◌<◌, get_or, length};
ghost use Rattle.std.proofs.Math.Seq.{slice};
ghost use Rattle.packet.specs.Register.{number};
ghost use Rattle.packet.specs.Packet.{order};
ghost use Rattle.lines.specs.Lines.{levels, byte_of};

// The level at a place of n that are read in either order.
fn level_in(samples: &[u8], n: u8, i: u8, high: bool) -> u8
    requires { i < n }
    ensures { (result ≡ get_or (order high (levels samples.now 0 n)) i 0) × (result < 2) }
{
    let place = packet::place_of(i, n, high);
    wire::level_at(samples, place as usize)
}

// The number that the levels from one place up to another give, of n that are read in either order; at most eight of them.
// The caller shows that the places are such.
pub fn number_of(samples: &[u8], n: u8, first: u8, end: u8, high: bool) -> u8
    requires { (end ≤ n) × (end ≤ first + 8) }
    ensures { result ≡ number 0 (slice first end (order high (levels samples.now 0 n))) }
{
    let mut v: u8 = 0;
    for i in first..end {
        v = v * 2 + level_in(samples, n, i, high);
    }
    v
}

// The byte of eight levels, the first of them highest or lowest.
pub fn byte_of(samples: &[u8], high: bool) -> u8
    ensures { result ≡ byte_of high (levels samples.now 0 8) }
{
    number_of(samples, 8, 0, 8, high)
}
