// The bytes that the words of a part give, at the front of a lent buffer; what there is no room for is left out.
ghost use Rattle.std.specs.Prelude.{◌≡◌, ◌*◌, ◌≤◌, length};

// The first `len` bytes of the buffer.
#[derive(Drop)]
pub struct Bytes<'a> {
    pub buffer: &'a mut [u8],
    pub len: usize,
    ghost fits: { len ≤ length buffer.now },
}

impl Bytes<'_> {
    ghost use Rattle.case_text.specs.Words.{put_byte, put_number, put_again};
    ghost use Rattle.case_text.specs.Filled.{Fills};

    // One byte more.
    pub fn put_byte(&mut self, x: u8)
        ensures same_reference { self.new.buffer.ghost_name ≡ self.old.buffer.ghost_name }
        ensures bytes { Fills self.old self.new put_byte x }
    {
        if self.len < self.buffer.len() {
            self.buffer[self.len] = x;
            self.len += 1;
        }
    }

    // A number in four bytes, low byte first.
    pub fn put_number(&mut self, x: u32)
        ensures same_reference { self.new.buffer.ghost_name ≡ self.old.buffer.ghost_name }
        ensures bytes { Fills self.old self.new put_number x }
    {
        let [first, second, third, fourth] = x.to_le_bytes();
        self.put_byte(first);
        self.put_byte(second);
        self.put_byte(third);
        self.put_byte(fourth);
    }

    // The forty bytes before, again and again.
    pub fn put_again(&mut self, times: u32)
        ensures same_reference { self.new.buffer.ghost_name ≡ self.old.buffer.ghost_name }
        ensures bytes { Fills self.old self.new put_again (40 * times) }
    {
        for _done in 0..40 * times as u64 {
            if self.len < 40 || self.buffer.len() == self.len {
                return;
            }
            let again = self.buffer[self.len - 40];
            self.put_byte(again);
        }
    }
}
