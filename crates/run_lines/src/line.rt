// Output lines (document 01, "The run file"), written one after the other.
ghost use Rattle.std.specs.Prelude.{◌∷◌, ◌+◌, ◌≤◌, ◌<◌, length};
ghost use Rattle.book.specs.Book.{answer};
ghost use Rattle.book.specs.Writes.{Few};
ghost use Rattle.run_lines.specs.Lines.{decimal, signed_decimal, space, line, fault_line};
ghost use Rattle.run_lines.specs.Output.{line_length, Room, Puts};

use itoa::Buffer;

// A lent buffer, and the place of its next byte.
#[derive(Drop)]
pub struct Output<'a> {
    pub bytes: &'a mut [u8],
    pub at: usize,
}

impl Output<'_> {
    // The line of a call, or of an opening, for which call is 0. What it is asked for is below 65,536, so that 32 bits hold it.
    pub fn put_line(
        &mut self,
        session: usize,
        call: usize,
        number: u8,
        value: i32,
        rows: usize,
        pages: usize,
    )
        requires { Room self.old line_length × (session < 65536) × (call < 65536) × Few (record { rows = rows; pages = pages }) }
        ensures puts { Puts self.old (line session call (answer number value) (record { rows = rows; pages = pages })) self.new }
        ensures short { self.new.at ≤ self.old.at + line_length }
    {
        self.put_decimal(session as u32);
        self.put_next(call as u32);
        self.put_next(u32::from(number));
        self.put_value(value);
        self.put_next(rows as u32);
        self.put_next(pages as u32);
        self.put(b"\n");
    }

    // The line `15`.
    pub fn put_fault_line(&mut self)
        requires { Room self.old (length fault_line) }
        ensures { Puts self.old fault_line self.new }
    {
        self.put(b"15\n");
    }

    // A number after a space.
    fn put_next(&mut self, n: u32)
        requires { Room self.old (length (space ∷ decimal n)) }
        ensures { Puts self.old (space ∷ decimal n) self.new }
    {
        self.put(b" ");
        self.put_decimal(n);
    }

    // The value after a space.
    pub fn put_value(&mut self, value: i32)
        requires { Room self.old (length (space ∷ signed_decimal value)) }
        ensures { Puts self.old (space ∷ signed_decimal value) self.new }
    {
        self.put(b" ");
        self.put_signed(value);
    }

    #[tactic(auto, using(crate::proofs::Decimals::signed_printed))]
    fn put_signed(&mut self, value: i32)
        requires { Room self.old (length (signed_decimal value)) }
        ensures { Puts self.old (signed_decimal value) self.new }
    {
        self.put(Buffer::new().format(value).as_bytes());
    }

    #[tactic(auto, using(crate::proofs::Decimals::decimal_printed))]
    pub fn put_decimal(&mut self, n: u32)
        requires { Room self.old (length (decimal n)) }
        ensures { Puts self.old (decimal n) self.new }
    {
        self.put(Buffer::new().format(n).as_bytes());
    }

    pub fn put(&mut self, text: &[u8])
        requires { Room self.old (length text.now) }
        ensures { Puts self.old text.now self.new }
    {
        let end = self.at + text.len();
        self.bytes[self.at..end].copy_from_slice(text);
        self.at = end;
    }
}
