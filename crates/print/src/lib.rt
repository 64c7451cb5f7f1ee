// Text in a lent buffer, for the programs. Each function puts something behind what is there and answers how full the buffer is then. A
// byte that has no room is left out: a buffer that comes back full may have lost something.
//
// Digits are written here and not by std's formatting, since the contracts say of each byte whether it had room.
#![tactic(auto)]

ghost use Rattle.std.specs.Prelude.{◌≡◌, ℕ, List, ◌∷◌, [], ◌++◌, ◌<◌, ◌≤◌, length, drop};
ghost use Rattle.print.specs.Text.{ascii, Puts, each, digit as Text·digit, decimal_in, decimal_of, spaced_number, hex_byte, hex_half, hex_word, hex_of, spaced_half, spaced_word, line_of, refused_of};

use cursor::Refusal;

pub fn byte(out: &mut [u8], at: usize, b: u8) -> usize
    ensures { Puts (b ∷ []) out.old at out.new result }
{
    if at < out.len() {
        out[at] = b;
        return at + 1;
    }
    at
}

pub fn text(out: &mut [u8], at: usize, t: &[u8]) -> usize
    ensures { Puts t.now out.old at out.new result }
{
    let mut end = at;
    for b in t {
        end = byte(out, end, *b);
    }
    end
}

// A number in decimal.
pub fn decimal(out: &mut [u8], at: usize, n: u64) -> usize
    ensures { Puts (decimal_of n) out.old at out.new result }
{
    let mut digits = [0u8; 20];
    let first = spell(n, &mut digits);
    text(out, at, &digits[first..])
}

// A number's digits, up to the end of lent bytes: where they begin.
fn spell(n: u64, digits: &mut [u8]) -> usize
    ensures digits_after { drop result digits.new ≡ decimal_in (length digits.old) n }
    ensures upper_bound { result ≤ length digits.new }
{
    let mut rest = n;
    for i in (0..digits.len()).rev() {
        digits[i] = digit((rest % 10) as u8);
        if rest < 10 {
            return i;
        }
        rest /= 10;
    }
    0
}

fn digit(n: u8) -> u8
    requires { n < 16 }
    ensures { result ≡ Text·digit n }
{
    if n < 10 { b'0' + n } else { 87 + n }
}

// A space and a number.
pub fn number(out: &mut [u8], at: usize, n: u64) -> usize
    ensures { Puts (spaced_number n) out.old at out.new result }
{
    let after = byte(out, at, b' ');
    decimal(out, after, n)
}

// A byte in two hexadecimal digits.
pub fn hex_byte(out: &mut [u8], at: usize, b: u8) -> usize
    ensures { Puts (hex_byte b) out.old at out.new result }
{
    let after = byte(out, at, digit(b / 16));
    byte(out, after, digit(b % 16))
}

// A number in eight digits, and one in sixteen.
pub fn hex_half(out: &mut [u8], at: usize, n: u32) -> usize
    ensures { Puts (hex_half n) out.old at out.new result }
{
    let a = hex_byte(out, at, (n / 0x100_0000) as u8);
    let b = hex_byte(out, a, (n / 0x1_0000 % 0x100) as u8);
    let c = hex_byte(out, b, (n / 0x100 % 0x100) as u8);
    hex_byte(out, c, (n % 0x100) as u8)
}

pub fn hex_word(out: &mut [u8], at: usize, n: u64) -> usize
    ensures { Puts (hex_word n) out.old at out.new result }
{
    let a = hex_half(out, at, (n / 0x1_0000_0000) as u32);
    hex_half(out, a, (n % 0x1_0000_0000) as u32)
}

// Bytes in hexadecimal; a dash where there are none.
pub fn hex(out: &mut [u8], at: usize, bytes: &[u8]) -> usize
    ensures { Puts (hex_of bytes.now) out.old at out.new result }
{
    if bytes.len() == 0 {
        return byte(out, at, b'-');
    }
    members::<u8, InHex>(out, at, bytes)
}

// Numbers, each after a space: of eight bytes, of four; and the same in hexadecimal.
pub fn numbers(out: &mut [u8], at: usize, list: &[u64]) -> usize
    ensures { Puts (each spaced_number list.now) out.old at out.new result }
{
    members::<u64, InDecimal>(out, at, list)
}

pub fn halves(out: &mut [u8], at: usize, list: &[u32]) -> usize
    ensures { Puts (each spaced_number list.now) out.old at out.new result }
{
    members::<u32, InDecimal>(out, at, list)
}

pub fn hex_words(out: &mut [u8], at: usize, list: &[u64]) -> usize
    ensures { Puts (each spaced_word list.now) out.old at out.new result }
{
    members::<u64, InHex>(out, at, list)
}

pub fn hex_halves(out: &mut [u8], at: usize, list: &[u32]) -> usize
    ensures { Puts (each spaced_half list.now) out.old at out.new result }
{
    members::<u32, InHex>(out, at, list)
}

// How a member of a list is written.
trait Form<T> {
    ghost text: { T → List ℕ };

    fn put(out: &mut [u8], at: usize, n: T) -> usize
        ensures { Puts (text n) out.old at out.new result };
}

// A list's members, one after the other.
fn members<T: Copy, F: Form<T>>(out: &mut [u8], at: usize, list: &[T]) -> usize
    ensures { Puts (each F.text list.now) out.old at out.new result }
{
    let mut end = at;
    for n in list {
        end = F::put(out, end, *n);
    }
    end
}

// A number in decimal, after a space.
struct InDecimal;

impl Form<u64> for InDecimal {
    ghost text = { spaced_number };

    fn put(out: &mut [u8], at: usize, n: u64) -> usize {
        number(out, at, n)
    }
}

impl Form<u32> for InDecimal {
    ghost text = { spaced_number };

    fn put(out: &mut [u8], at: usize, n: u32) -> usize {
        number(out, at, u64::from(n))
    }
}

// In hexadecimal: a byte, and a number after a space.
struct InHex;

impl Form<u8> for InHex {
    ghost text = { hex_byte };

    fn put(out: &mut [u8], at: usize, n: u8) -> usize {
        hex_byte(out, at, n)
    }
}

impl Form<u32> for InHex {
    ghost text = { spaced_half };

    fn put(out: &mut [u8], at: usize, n: u32) -> usize {
        let digits = byte(out, at, b' ');
        hex_half(out, digits, n)
    }
}

impl Form<u64> for InHex {
    ghost text = { spaced_word };

    fn put(out: &mut [u8], at: usize, n: u64) -> usize {
        let digits = byte(out, at, b' ');
        hex_word(out, digits, n)
    }
}

// A line: a word and numbers.
pub fn line(out: &mut [u8], at: usize, word: &[u8], list: &[u64]) -> usize
    ensures { Puts (line_of word.now list.now) out.old at out.new result }
{
    let a = text(out, at, word);
    let b = numbers(out, a, list);
    byte(out, b, b'\n')
}

pub fn refused(out: &mut [u8], at: usize, r: Refusal) -> usize
    ensures { Puts (refused_of r) out.old at out.new result }
{
    let list = [u64::from(r.number), r.place as u64];
    line(out, at, b"refused", &list)
}
