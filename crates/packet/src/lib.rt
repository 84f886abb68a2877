// The packet register: an array of bytes by value, REG0 highest. In 01's words n is N, the size in bits, and high is bit 2
// of CONFIG_SPI.
#![tactic(auto)]

ghost use Rattle.std.specs.Prelude.{◌≡◌, true, cond, ◌+◌, ◌-◌, ◌/◌, ◌%◌, ◌^◌, ◌<◌, ◌≤◌, min, [], ◌∷◌, get_or, length};
ghost use Rattle.packet.specs.Register.{bits};
ghost use Rattle.packet.specs.Packet.{width, register_bytes, size_register, size_of, packet_bytes, from_held, cleared, aligned, loaded, sent_at, low_bytes};
ghost use Rattle.wire.specs.Buffer.{Written};

// The register's size in bits: the one place of this number in the code.
pub const WIDTH: u8 = 64;

// The register's size in bytes.
pub const BYTES: usize = WIDTH as usize / 8;

pub type Register = [u8; BYTES];

// The size register that a size operand gives.
pub fn size_register(operand: u8) -> u8
    ensures { result ≡ size_register width operand }
{
    let w = WIDTH as u16;
    ((operand as u16 + (w - 1)) % w) as u8
}

// The size in bits that a size operand gives.
pub fn size_of(operand: u8) -> u8
    ensures { result ≡ size_of width operand }
{
    size_register(operand) + 1
}

// How many bytes a packet of n bits takes.
pub fn bytes_for(n: u8) -> u8
    ensures { result ≡ packet_bytes n }
{
    n.div_ceil(8)
}

// How many of n bits stand above the lowest byte that they take.
pub fn above_byte(n: u8) -> u8
    ensures { result ≡ n - 8 }
{
    n.saturating_sub(8)
}

// The register whose lowest byte is the first one held, and so on upward; 0 where none is held.
pub fn load(held: &[u8]) -> Register
    ensures { result ≡ from_held register_bytes held.now }
{
    let mut q = [0u8; BYTES];
    for i in 0..BYTES {
        q[i] = wire::byte_at(held, BYTES - 1 - i);
    }
    q
}

// The bit at a place counted from the highest.
fn bit_at(r: Register, place: u8) -> u8
    requires { place < width }
    ensures { (result ≡ get_or (bits r) place 0) × (result < 2) }
{
    let i = (place / 8) as usize;
    let b = r[i];
    (b >> (7 - place % 8)) % 2
}

// The low n bits of a byte, the others zero.
fn low_bits(b: u8, n: u8) -> u8
    ensures { result ≡ b % 2 ^ min n 8 }
{
    if n < 8 { b % (1 << n) } else { b }
}

// The low n bits kept, the rest zero: each byte keeps of its bits what the bytes below it leave of n.
pub fn clear(r: Register, n: u8) -> Register
    ensures { result ≡ cleared width n r }
{
    let mut q = [0u8; BYTES];
    let mut left = n;
    for i in (0..BYTES).rev() {
        q[i] = low_bits(r[i], left);
        left = above_byte(left);
    }
    q
}

// The register moved up, by whole bytes and one remainder under eight bits, until its low n bits stand highest: each byte takes its
// bits from two bytes in a row. At the full width nothing moves.
fn raise(r: Register, n: u8) -> Register
    ensures { result ≡ aligned width n true r }
{
    if WIDTH <= n {
        return r;
    }
    let up = WIDTH - n;
    let whole = (up / 8) as usize;
    let rest = up % 8;
    let mut q = [0u8; BYTES];
    let mut lower: u8 = 0;
    for i in (0..BYTES).rev() {
        let upper = wire::byte_at(&r, i + whole);
        let pair = upper as u16 * 256 + lower as u16;
        q[i] = ((pair >> (8 - rest)) % 256) as u8;
        lower = upper;
    }
    q
}

// The low n bits where the exchange wants them: moved up to the highest places if high, else where they are.
pub fn align(r: Register, n: u8, high: bool) -> Register
    ensures { result ≡ aligned width n high r }
{
    if high { raise(r, n) } else { r }
}

// What the register holds after a load of the bytes held.
pub fn load_packet(held: &[u8], n: u8, high: bool) -> Register
    ensures { result ≡ loaded width n high held.now }
{
    let whole = load(held);
    let low = clear(whole, n);
    align(low, n, high)
}

// The place of a step among n on the wire, counted from the highest. The caller shows that there is such a step.
pub fn place_of(step: u8, n: u8, high: bool) -> u8
    requires { step < n }
    ensures { (result ≡ cond high step (n - 1 - step)) × (result < n) }
{
    if high { step } else { n - 1 - step }
}

// The bit that is sent at a step counted from 0. The caller shows that the register has so many bits.
pub fn bit_within(r: Register, step: u8, high: bool) -> u8
    requires { step < width }
    ensures { (result ≡ sent_at high r step) × (result < 2) }
{
    let place = place_of(step, WIDTH, high);
    bit_at(r, place)
}

// The byte whose bits are sent in the eight steps from a multiple of eight on. The caller shows that the register has so many bits.
pub fn byte_to_send(r: Register, step: u8, high: bool) -> u8
    requires { step < width }
    ensures { result ≡ get_or r (cond high (step / 8) (register_bytes - 1 - step / 8)) 0 }
{
    let i = place_of(step / 8, BYTES as u8, high) as usize;
    r[i]
}

// The bit that is sent at a step of a byte. The caller shows that the step is one of its eight.
pub fn bit_of_byte(b: u8, step: u8, high: bool) -> u8
    requires { step < 8 }
    ensures { (result ≡ sent_at high (b ∷ []) step) × (result < 2) }
{
    let place = place_of(step, 8, high);
    (b >> (7 - place)) % 2
}

// How many low bytes of the register hold n bits.
fn low_count(n: u8) -> usize
    ensures { result ≡ min (packet_bytes n) register_bytes }
{
    (bytes_for(n) as usize).min(BYTES)
}

// How many bytes `put_low` writes.
pub fn low_size(r: Register, n: u8) -> usize
    ensures { (result ≡ length (low_bytes n r)) × (result ≤ register_bytes) }
{
    low_count(n)
}

// Writes the register's low bytes that hold n bits, lowest first, at the start of the unused part of a lent buffer, and answers
// how many they are. The caller shows that they fit there.
pub fn put_low(out: &mut [u8], r: Register, n: u8) -> usize
    requires { length (low_bytes n r) ≤ length out.old }
    ensures { Written out.old 0 (low_bytes n r) out.new result }
{
    let low = load(&r);
    let count = low_count(n);
    wire::put_bytes(out, 0, &low[..count])
}
