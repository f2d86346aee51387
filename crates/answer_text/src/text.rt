// Text that waits in a buffer for standard output.
ghost use Rattle.std.specs.Prelude.{◌≡◌, ◌+◌, ◌<◌, ◌≤◌, ◌++◌, length, take, drop, if◌then◌else◌};

use std::fmt;
use std::fmt::Write;

// The digits of the longest number, and the first number that is not short.
const DIGITS: usize = 20;

const SHORT: u64 = 10_000_000_000;

// The descriptor of standard output.
const STDOUT_FILENO: i32 = 1;

// The digits of n, at the start of a place; answers how many they are.
fn digits(place: &mut [u8], n: u64) -> usize
    requires { 20 ≤ length place.old }
    ensures few { result ≤ 20 }
    ensures long { length place.new ≡ length place.old }
{
    let (first, _) = place.split_first_chunk_mut().unwrap();
    io::decimal(n, first)
}

// A space and the digits of n, likewise.
fn spaced(place: &mut [u8], n: u64) -> usize
    requires { 21 ≤ length place.old }
    ensures few { result ≤ 21 }
    ensures long { length place.new ≡ length place.old }
{
    place[0] = b' ';
    if n < 10 {
        place[1] = b'0' + n as u8;
        return 2;
    }
    1 + digits(&mut place[1..], n)
}

// The used bytes of the buffer wait to be written.
// The buffer is lent by `main`, with how much of it is used: no heap.
#[derive(Drop)]
pub struct Output<'a> {
    pub buffer: &'a mut [u8],
    pub used: usize,
    pub ghost within: { used ≤ length buffer.now },
}

impl<'a> Output<'a> {
    // Nothing waits in it.
    pub fn new(buffer: &'a mut [u8]) -> Output<'a>
        ensures used { result.used ≡ 0 }
        ensures same_reference { result.buffer.ghost_name ≡ buffer.entry.ghost_name }
    {
        Output { buffer, used: 0 }
    }

    fn room(&self) -> usize
        ensures { result + self.now.used ≡ length self.now.buffer.now }
    {
        self.buffer.len() - self.used
    }

    // The used bytes are written out first where there is no room, and the text itself where the whole buffer has none.
    // In line, since most texts are constants of a few bytes: they are then stored, and no copying is called.
    #[inline(always)]
    pub fn put(&mut self, text: &[u8])
        ensures joins { self.old.used + length text.now ≤ length self.old.buffer.now → (self.new.used ≡ self.old.used + length text.now) × (self.new.buffer.now ≡ take self.old.used self.old.buffer.now ++ (text.now ++ drop (self.old.used + length text.now) self.old.buffer.now)) }
        ensures alone { length self.old.buffer.now < self.old.used + length text.now → length text.now ≤ length self.old.buffer.now → (self.new.used ≡ length text.now) × (self.new.buffer.now ≡ text.now ++ drop (length text.now) self.old.buffer.now) }
        ensures long { length self.old.buffer.now < length text.now → (self.new.used ≡ 0) × (self.new.buffer.now ≡ self.old.buffer.now) }
        ensures same_reference { self.new.buffer.ghost_name ≡ self.old.buffer.ghost_name }
    {
        if text.len() > self.room() {
            self.flush();
        }
        if text.len() <= self.room() {
            let end = self.used + text.len();
            let used = self.used;
            self.buffer[used..end].copy_from_slice(text);
            self.used = end;
        } else {
            io::write_all(STDOUT_FILENO, text);
        }
    }

    // A number. A short one is written where it is to stand, if there is room for any: through a formatter, as the others go, it takes several times as long.
    pub(crate) fn number(&mut self, n: u64)
        ensures same_reference { self.new.buffer.ghost_name ≡ self.old.buffer.ghost_name }
    {
        if n < SHORT && DIGITS <= self.room() {
            let used = self.used;
            self.used = used + digits(&mut self.buffer[used..], n);
        } else {
            write!(self, "{n}");
        }
    }

    // A space and a number.
    pub(crate) fn next(&mut self, n: u64)
        ensures same_reference { self.new.buffer.ghost_name ≡ self.old.buffer.ghost_name }
    {
        if n < SHORT && DIGITS < self.room() {
            let used = self.used;
            self.used = used + spaced(&mut self.buffer[used..], n);
        } else {
            self.put(b" ");
            self.number(n);
        }
    }

    // A space and a number, or `-` where there is none.
    pub(crate) fn next_or_dash(&mut self, n: Option<u64>)
        ensures same_reference { self.new.buffer.ghost_name ≡ self.old.buffer.ghost_name }
    {
        match n {
            Some(n) => self.next(n),
            None => self.put(b" -"),
        }
    }

    // The used bytes.
    fn waiting(&self) -> &[u8]
        ensures { result.now ≡ take self.now.used self.now.buffer.now }
    {
        &self.buffer[..self.used]
    }

    // Writes the used bytes to standard output; none are used then. Of what is written no contract can speak.
    pub fn flush(&mut self)
        ensures used { self.new.used ≡ 0 }
        ensures buffer { self.new.buffer.now ≡ self.old.buffer.now }
        ensures same_reference { self.new.buffer.ghost_name ≡ self.old.buffer.ghost_name }
    {
        io::write_all(STDOUT_FILENO, self.waiting());
        self.used = 0;
    }

    // What `write!` and `writeln!` call. The text is printed on the stack before it is put: of a writer after an error nothing is known, not even that it
    // holds the buffer that it held.
    pub(crate) fn write_fmt<D: fmt::Display + Drop>(&mut self, text: D)
        ensures same_reference { self.new.buffer.ghost_name ≡ self.old.buffer.ghost_name }
    {
        let mut line = Line {
            bytes: [0; LINE],
            used: 0,
        };
        let _ = line.write_fmt(text);
        self.put(&line.bytes[..line.used]);
    }
}

// More bytes than any text here has: none has more than 126.
const LINE: usize = 256;

// A line, or a part of one, as it is printed.
#[derive(Clone, Copy)]
struct Line {
    bytes: [u8; LINE],
    used: usize,
    ghost within: { used ≤ 256 },
}

impl fmt::Write for Line {
    fn write_str(&mut self, s: &str) -> fmt::Result {
        let text = s.as_bytes();
        if text.len() > LINE - self.used {
            return Err(fmt::Error);
        }
        let used = self.used;
        let end = used + text.len();
        self.bytes[used..end].copy_from_slice(text);
        self.used = end;
        Ok(())
    }
}

// A number, or `-` where there is none.
#[derive(Clone, Copy)]
pub(crate) struct OrDash(pub Option<u64>);

impl fmt::Display for OrDash {
    fn fmt<W: fmt::Write>(&self, f: &mut fmt::Formatter<W>) -> fmt::Result {
        match self.0 {
            Some(n) => write!(f, "{n}"),
            None => write!(f, "-"),
        }
    }
}

// The letter of a side.
pub(crate) fn side(client: bool) -> u8
    ensures { result ≡ (if client then 99 else 115) }
{
    if client { b'c' } else { b's' }
}

// The digit of a flag.
pub(crate) fn flag(yes: bool) -> u8
    ensures { result ≡ (if yes then 49 else 48) }
{
    if yes { b'1' } else { b'0' }
}
