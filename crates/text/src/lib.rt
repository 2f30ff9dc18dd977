// Text in a lent buffer, one run behind the other; it is cut off where the buffer ends. No `Display`: what is written is proved byte by byte,
// and no `Display` says its bytes.
#![tactic(auto)]

ghost use Rattle.std.specs.Prelude.{◌≡◌, [], ◌∷◌};
ghost use Rattle.text.specs.Text.{decimal, signed, numbers, Put};

// A buffer, and the place behind what was put.
#[derive(Drop)]
pub struct Text<'a> {
    pub out: &'a mut [u8],
    pub at: usize,
}

impl<'a> Text<'a> {
    // A text at the head of a buffer.
    pub fn new(out: &'a mut [u8]) -> Text<'a>
        ensures buffer { result.out ≡ out.entry }
        ensures place { result.at ≡ 0 }
    {
        Text { out, at: 0 }
    }

    pub fn put(&mut self, b: u8)
        ensures { Put (b ∷ []) self.old self.new }
    {
        if self.at < self.out.len() {
            self.out[self.at] = b;
            self.at += 1;
        }
    }

    // `Writer::put_all` of `records` is alike and no duplicate: this writer cuts off, that one goes on and measures.
    pub fn put_all(&mut self, text: &[u8])
        ensures { Put text.now self.old self.new }
    {
        for b in text {
            self.put(*b);
        }
    }

    fn put_decimal(&mut self, n: u64)
        ensures { Put (decimal n) self.old self.new }
    {
        // no heap: an array, and how many digits it has
        let mut digits = [0u8; 20];
        let k = io::decimal(n, &mut digits);
        self.put_all(&digits[..k]);
    }

    // A number of 32 bits, of which the highest is the sign's.
    pub fn put_signed(&mut self, v: u32)
        ensures { Put (signed v) self.old self.new }
    {
        let v = i64::from(v.cast_signed());
        if v < 0 {
            self.put(b'-');
        }
        self.put_decimal(v.unsigned_abs());
    }

    // A blank and a number.
    pub fn put_number(&mut self, n: u64)
        ensures { Put (numbers (n ∷ [])) self.old self.new }
    {
        self.put(b' ');
        self.put_decimal(n);
    }

    // Each byte as a number.
    pub fn put_numbers(&mut self, data: &[u8])
        ensures { Put (numbers «data».now) self.old self.new }
    {
        for b in data {
            self.put_number(u64::from(*b));
        }
    }
}
