// What is printed is gathered on a page, which is written when what comes next does not fit it.
ghost use Rattle.std.specs.Prelude.{◌≤◌, length};

use std::io;

const LENGTH: usize = 65536;

// A name, eight numbers and the end of the line have fewer bytes.
const LONGEST_LINE: usize = 128;

#[derive(Drop)]
pub struct Page<'a, P> {
    rt: &'a P,
    bytes: [u8; LENGTH],
    end: usize,
    ghost within: { end ≤ 65536 },
}

impl<'a, P: Print> Page<'a, P> {
    pub fn new(rt: &'a P) -> Page<'a, P> {
        Page {
            rt,
            bytes: [0; LENGTH],
            end: 0,
        }
    }

    // Writes what stands on the page, which is empty then.
    pub fn flush(&mut self) -> io::Result<()> {
        let end = self.end;
        self.end = 0;
        self.rt.write_all(&self.bytes[..end])
    }

    // Room for so many bytes, if a page has so many.
    fn make_room(&mut self, count: usize) -> io::Result<()> {
        if LENGTH - self.end < count {
            self.flush()?;
        }
        Ok(())
    }

    pub fn text(&mut self, bytes: &[u8]) -> io::Result<()> {
        self.make_room(bytes.len())?;
        if LENGTH - self.end < bytes.len() {
            return self.rt.write_all(bytes);
        }
        let end = self.end + bytes.len();
        self.bytes[self.end..end].copy_from_slice(bytes);
        self.end = end;
        Ok(())
    }

    // A line: a name and numbers.
    pub fn line(&mut self, name: &[u8], numbers: &[u32]) -> io::Result<()> {
        self.make_room(LONGEST_LINE)?;
        let mut end = self.end;
        for byte in name {
            end = put(*byte, &mut self.bytes, end);
        }
        for number in numbers {
            end = put(b' ', &mut self.bytes, end);
            end = digits(*number, &mut self.bytes, end);
        }
        self.end = put(b'\n', &mut self.bytes, end);
        Ok(())
    }
}

// A byte, where there is room; gives the place after it.
fn put(byte: u8, bytes: &mut [u8], at: usize) -> usize
    requires { at ≤ length bytes.old }
    ensures { result ≤ length bytes.new }
{
    if bytes.len() <= at {
        return at;
    }
    bytes[at] = byte;
    at + 1
}

// A number. Its digits are written by hand: with `write!` the rehearsals of `second/compare` take half as long again.
fn digits(number: u32, bytes: &mut [u8], at: usize) -> usize
    requires { at ≤ length bytes.old }
    ensures { result ≤ length bytes.new }
{
    let mut end = at;
    if 10 <= number {
        end = digits(number / 10, bytes, at);
    }
    put(b'0' + (number % 10) as u8, bytes, end)
}
