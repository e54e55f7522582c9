// The pieces of a text.
ghost use Rattle.std.specs.Prelude.{[], ◌∷◌, ℕ, ◌+◌, ◌<◌, ◌≤◌, get_or};
ghost use Rattle.rules.specs.Writing.{digits, signed_text, bits_text};
ghost use Rattle.lines.specs.Put.{Put, Room};

use itoa::Buffer;

// A text that is written into a buffer, as far as the buffer reaches. Behind its end the bytes are counted alone.
#[derive(Drop)]
pub struct Cursor<'b> {
    pub out: &'b mut [u8],
    // how many bytes the text has so far
    pub at: usize,
}

impl Cursor<'_> {
    // One byte.
    #[tactic(auto, using(crate::specs::Put::one_steps))]
    pub fn put(&mut self, b: u8)
        requires { Room self.old.at (b ∷ []) }
        ensures { Put (b ∷ []) self.old self.new }
    {
        let at = self.at;
        self.at += 1;
        if at < self.out.len() {
            self.out[at] = b;
        }
    }

    // Bytes as they are.
    #[tactic(auto, using(crate::specs::Put::byte_steps))]
    pub fn put_all(&mut self, bytes: &[u8])
        requires { Room self.old.at bytes.now }
        ensures { Put bytes.now self.old self.new }
    {
        for &b in bytes {
            self.put(b);
        }
    }

    // Bits as the bytes '0' and '1'.
    #[tactic(auto, using(crate::specs::Put::bit_steps))]
    pub fn put_bits(&mut self, table: &[u8])
        requires by_index { (i : ℕ) → get_or table.now i 0 ≤ 1 }
        requires room { Room self.old.at (bits_text table.now) }
        ensures { Put (bits_text table.now) self.old self.new }
    {
        for &bit in table {
            self.put(b'0' + bit);
        }
    }

    // The digits of a number.
    #[tactic(auto, using(crate::specs::Put::decimal_is))]
    pub fn put_number(&mut self, n: usize)
        requires { Room self.old.at (digits n) }
        ensures { Put (digits n) self.old self.new }
    {
        self.put_all(Buffer::new().format(n).as_bytes());
    }

    // A minus only below 0. Not one generic function with `put_number`: `format` takes any integer type, but the contracts name two definitions, `digits` and `signed_text`.
    #[tactic(auto, using(crate::specs::Put::signed_is))]
    pub fn put_signed(&mut self, z: i64)
        requires { Room self.old.at (signed_text z) }
        ensures { Put (signed_text z) self.old self.new }
    {
        self.put_all(Buffer::new().format(z).as_bytes());
    }
}
