// Loads at a position of a slice: in either byte order, or big-endian, as all fields of boxes are.
#![tactic(auto)]

ghost use Rattle.std.specs.Prelude.{◌≡◌, ◌+◌, ◌^◌, ◌≤◌, ◌<◌, length};
ghost use Rattle.rules.specs.Doc.Bytes.{number_at};
ghost use Rattle.rules.specs.Doc.Endian.{place_in, number_in};
ghost use Rattle.endian.specs.Told.{endian_of};

// Which byte is the highest: the first, or the last.
#[derive(Clone, Copy)]
pub enum Endian {
    Big,
    Little,
}

// Of the `n` bytes from `from`, where the `i`-th highest stands.
fn place(order: Endian, from: usize, n: usize, i: usize) -> usize
    requires { (i < n) × (from + n < 2 ^ 64) }
    ensures { (result ≡ place_in (endian_of order) from n i) × (result < from + n) }
{
    match order {
        Endian::Big => from + i,
        Endian::Little => from + (n - 1 - i),
    }
}

// The number that `n` bytes from `from` make: the one loop for each width and each order.
fn load(order: Endian, buf: &[u8], from: usize, n: usize) -> u64
    requires { (n ≤ 8) × (from + n ≤ length buf.now) }
    ensures { (result ≡ number_in (endian_of order) buf.now from n) × (result < 256 ^ n) }
{
    let mut num = 0;
    for i in 0..n {
        num = num * 256 + u64::from(buf[place(order, from, n, i)]);
    }
    num
}

// Here and below one load for each width, as the Rust has them, each with its own type; the loop is one, `load`.
impl Endian {
    pub fn loadu16(self, buf: &[u8], from: usize) -> u16
        requires { from + 2 ≤ length buf.now }
        ensures { result ≡ number_in (endian_of self) buf.now from 2 }
    {
        load(self, buf, from, 2) as u16
    }

    pub fn loadu32(self, buf: &[u8], from: usize) -> u32
        requires { from + 4 ≤ length buf.now }
        ensures { result ≡ number_in (endian_of self) buf.now from 4 }
    {
        load(self, buf, from, 4) as u32
    }
}

// Big-endian, as the fields of boxes are. That `number_at` is the big-endian number is shown here, once for all widths.
pub fn load_big(buf: &[u8], from: usize, n: usize) -> u64
    requires { (n ≤ 8) × (from + n ≤ length buf.now) }
    ensures { (result ≡ number_at buf.now from n) × (result < 256 ^ n) }
{
    load(Endian::Big, buf, from, n)
}

pub fn loadu16(buf: &[u8], from: usize) -> u16
    requires { from + 2 ≤ length buf.now }
    ensures { result ≡ number_at buf.now from 2 }
{
    load_big(buf, from, 2) as u16
}

pub fn loadu32(buf: &[u8], from: usize) -> u32
    requires { from + 4 ≤ length buf.now }
    ensures { result ≡ number_at buf.now from 4 }
{
    load_big(buf, from, 4) as u32
}

pub fn loadu64(buf: &[u8], from: usize) -> u64
    requires { from + 8 ≤ length buf.now }
    ensures { result ≡ number_at buf.now from 8 }
{
    load_big(buf, from, 8)
}
