// Hexadecimal digits: a byte or a line read, a number written.
#![tactic(auto)]

ghost use Rattle.std.specs.Prelude.{◌≡◌, true, IfSome, ◌<◌, ◌≤◌, ◌+◌, ◌*◌, ltb, cond, length, take, drop};
ghost use Rattle.std.specs.Option.{is_some};
ghost use Rattle.listing.specs.Placed.{Placed};
ghost use Rattle.frames.specs.Digits as d;

// The value of a digit.
#[tactic(auto, unfolding(frames::specs::Digits::digit))]
pub fn digit(byte: u8) -> Option<u32>
    ensures { result ≡ cond (ltb (d.digit byte) 16) (Some (d.digit byte)) None }
{
    match byte {
        b'0'..=b'9' => Some((byte - b'0') as u32),
        b'A'..=b'F' => Some((byte - b'A') as u32 + 10),
        _ => None,
    }
}

// Whether each byte is a digit. All are looked at, so there is no branch.
pub fn hexadecimal(line: &[u8]) -> bool
    ensures { result ≡ d.hexadecimal line.now }
{
    let mut all = true;
    for &byte in line {
        all &= digit(byte).is_some();
    }
    all
}

// Bytes that are digits, all of them.
#[derive(Clone, Copy)]
pub struct Hex<'a> {
    pub bytes: &'a [u8],
    ghost digits: { d.hexadecimal bytes.now ≡ true },
}

impl<'a> Hex<'a> {
    // The bytes of a line, where all are digits.
    pub fn of(line: &'a [u8]) -> Option<Hex<'a>>
        ensures some { is_some result ≡ d.hexadecimal line.now }
        ensures bytes { IfSome result (λ hex. hex.bytes.now ≡ line.now) }
    {
        if !hexadecimal(line) {
            return None;
        }
        Some(Hex { bytes: line })
    }

    // So many of them, from a place on.
    #[tactic(auto, using(frames::proofs::Kinded::hex_front, frames::proofs::Kinded::hex_rest))]
    pub fn part(&self, at: usize, count: usize) -> Hex<'a>
        requires { at + count ≤ length self.now.bytes.now }
        ensures is { result.bytes.now ≡ take count (drop at self.now.bytes.now) }
        ensures long { length result.bytes.now ≡ count }
    {
        Hex {
            bytes: &self.bytes[at..at + count],
        }
    }

    // All of them, from a place on.
    #[tactic(auto, using(frames::proofs::Kinded::hex_rest))]
    pub fn after(&self, at: usize) -> Hex<'a>
        requires { at ≤ length self.now.bytes.now }
        ensures { result.bytes.now ≡ drop at self.now.bytes.now }
    {
        let (_, bytes) = self.bytes.split_at(at);
        Hex { bytes }
    }

    // The number that eight digits or fewer write, the most significant first.
    pub fn number(&self) -> u32
        requires { length self.now.bytes.now ≤ 8 }
        ensures { result ≡ d.number self.now.bytes.now }
    {
        let mut value = 0;
        for &byte in self.bytes {
            value = value * 16 + digit(byte).unwrap();
        }
        value
    }

    // The same of four digits or fewer, as a word of 16 bits.
    pub fn half(&self) -> u16
        requires { length self.now.bytes.now ≤ 4 }
        ensures { result ≡ d.number self.now.bytes.now }
    {
        self.number() as u16
    }
}

// The digit of a number at a place from the right.
pub fn place(value: u32, i: u32) -> u32
    requires { i < 8 }
    ensures { result ≡ d.place value i }
{
    (value >> (i * 4)) & 15
}

// The byte of a digit.
pub fn letter(digit: u32) -> u8
    requires { digit < 16 }
    ensures { result ≡ d.letter digit }
{
    // Seven bytes lie between 9 and A.
    (b'0' as u32 + digit + 7 * (9 < digit) as u32) as u8
}

// The bytes of the last four digits of a number, made at once in one word: the first digit's is the lowest.
fn letters(value: u32) -> [u8; 4]
    ensures { result ≡ d.digits 4 value }
{
    // The last two bytes of the number change places and move apart, then the two digits of each.
    let bytes = ((value >> 8) & 0xFF) + ((value & 0xFF) << 16);
    let places = ((bytes >> 4) & 0x000F_000F) + ((bytes & 0x000F_000F) << 8);
    // With 6 more, a digit above 9 is 16 or more.
    let raised = ((places + 0x0606_0606) >> 4) & 0x0101_0101;
    let word = places + 0x3030_3030 + 7 * raised;
    word.to_le_bytes()
}

// Writes a number in so many digits, the most significant first: four at a time, and the rest one by one.
pub fn put_digits(out: &mut [u8], at: usize, count: u32, value: u32) -> usize
    requires { (count ≤ 8) × (at + count ≤ length out.old) }
    ensures { Placed out.old at (d.digits count value) out.new result }
{
    let mut next = at;
    let fours = count >> 2;
    let rest = count - fours * 4;
    for i in (0..fours).rev() {
        let left = rest + i * 4;
        let bytes = letters(value >> (left * 4));
        out[next..next + 4].copy_from_slice(&bytes);
        next += 4;
    }
    for i in (0..rest).rev() {
        out[next] = letter(place(value, i));
        next += 1;
    }
    next
}
