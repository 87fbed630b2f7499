// Numbers and bytes as text in ASCII, each put behind what already stands in a page, with the rest of it as it was. Helpers of
// the dump: no function here is a public call, none refuses, and each assumes room for its text, which its callers prove.
#![tactic(auto)]

ghost use Rattle.std.specs.Prelude.{◌≡◌, ◌++◌, ◌+◌, ◌≤◌, ◌<◌, length};
ghost use Rattle.text.specs.Text.{ascii, digit_of, decimal, hexadecimal, or_dash};
ghost use Rattle.text.specs.Written.{HasRoom, Written};

// The digit of a number below 16.
#[tactic(auto, unfolding(crate::specs::Text::digit_of))]
fn digit(x: u8) -> u8
    requires { x < 16 }
    ensures { result ≡ digit_of x }
{
    if x < 10 { b'0' + x } else { b'a' - 10 + x }
}

// A number's digits, at the end of a place that is lent for them. Tried by `write!`, which prints the same (`printed_decimal`): its contract
// says what was written where it is Ok, but none of std's says that it is Ok where there is room, and `list` may not refuse then.
fn digits_of(n: u64, text: &mut [u8; 20]) -> &[u8]
    ensures { result.now ≡ decimal n }
{
    let mut from = 19;
    let mut rest = n / 10;
    text[from] = digit((n % 10) as u8);
    // it ends where the number does, not where the places do: a `for` over the places would have to leave in the middle
    while 0 < rest {
        from -= 1;
        text[from] = digit((rest % 10) as u8);
        rest /= 10;
    }
    &text[from..]
}

// A lent part: text over its front, up to `at`, and behind that what stood there before.
#[derive(Drop)]
pub struct Page<'a> {
    out: &'a mut [u8],
    at: usize,
}

impl<'a> Page<'a> {
    pub fn new(out: &'a mut [u8]) -> Page<'a>
        ensures part { result.out.ghost_name ≡ out.entry.ghost_name }
        ensures blank { (result.out.now ≡ out.old) × (result.at ≡ 0) }
    {
        Page { out, at: 0 }
    }

    // How many bytes of text it has.
    pub fn len(&self) -> usize
        ensures { result ≡ self.now.at }
    {
        self.at
    }

    pub fn word(&mut self, word: &[u8])
        requires { HasRoom (length word.now) self.old }
        ensures { Written word.now self.old self.new }
    {
        let end = self.at + word.len();
        self.out[self.at..end].copy_from_slice(word);
        self.at = end;
    }

    pub fn decimal(&mut self, n: u64)
        requires { HasRoom (length (decimal n)) self.old }
        ensures { Written (decimal n) self.old self.new }
    {
        let mut text = [0u8; 20];
        self.word(digits_of(n, &mut text));
    }

    // A word, and behind it a number.
    pub fn named(&mut self, word: &[u8], n: u64)
        requires { HasRoom (length word.now + length (decimal n)) self.old }
        ensures { Written (word.now ++ decimal n) self.old self.new }
    {
        self.word(word);
        self.decimal(n);
    }

    // Two digits to each byte.
    fn hexadecimal(&mut self, s: &[u8])
        requires { HasRoom (length (hexadecimal s.now)) self.old }
        ensures { Written (hexadecimal s.now) self.old self.new }
    {
        for b in s {
            self.word(&[digit(*b / 16), digit(*b % 16)]);
        }
    }

    // Bytes, none as `-`.
    pub fn bytes(&mut self, s: &[u8])
        requires { HasRoom (length (or_dash s.now)) self.old }
        ensures { Written (or_dash s.now) self.old self.new }
    {
        if s.is_empty() {
            self.word(b"-");
        } else {
            self.hexadecimal(s);
        }
    }

    // ---- the end of a line

    pub fn end_line(&mut self)
        requires { HasRoom 1 self.old }
        ensures { Written (ascii "\n") self.old self.new }
    {
        self.word(b"\n");
    }

    // Two parts at the end of a line.
    pub fn pair(&mut self, first: &[u8], second: &[u8])
        requires { HasRoom (length (or_dash first.now) + length (or_dash second.now) + 2) self.old }
        ensures { Written (or_dash first.now ++ ascii " " ++ or_dash second.now ++ ascii "\n") self.old self.new }
    {
        self.bytes(first);
        self.word(b" ");
        self.bytes(second);
        self.end_line();
    }
}
