// Text in a lent buffer, grown from the buffer's start. A caller shows that there is room for what it puts there.
// `write!` promises its bytes only where it answers Ok, and a report may not fail: so numbers are put in here.
ghost use Rattle.std.specs.Prelude.{◌≤◌, length};

// A lent buffer, and how many bytes at its start are filled.
#[derive(Drop)]
pub struct Text<'a> {
    out: &'a mut [u8],
    filled: usize,
    ghost within: { filled ≤ length out.now },
}

impl<'a> Text<'a> {
    ghost use Rattle.std.specs.Prelude.{◌≡◌};
    ghost use Rattle.format.specs.Text.{decimal, spaced};
    ghost use Rattle.format.specs.Text.{line as Text·line};
    ghost use Rattle.format.specs.Growing.{Begun, HasRoom, Grown};

    // Nothing is filled yet.
    pub fn new(out: &'a mut [u8]) -> Text<'a>
        ensures { Begun out.entry result }
    {
        Text { out, filled: 0 }
    }

    pub fn filled(&self) -> usize
        ensures { result ≡ self.now.filled }
    {
        self.filled
    }

    pub fn append(&mut self, text: &[u8])
        requires { HasRoom self.old text.now }
        ensures { Grown self.old text.now self.new }
    {
        let end = self.filled + text.len();
        self.out[self.filled..end].copy_from_slice(text);
        self.filled = end;
    }

    // A number in base ten.
    #[tactic(auto, using(crate::proofs::Decimals::decimal_made))]
    fn number(&mut self, n: usize)
        requires { HasRoom self.old (decimal n) }
        ensures { Grown self.old (decimal n) self.new }
    {
        let mut digits = [0u8; 20];
        let k = io::decimal(n as u64, &mut digits);
        self.append(&digits[..k]);
    }

    // Numbers, each after a blank.
    #[tactic(auto, using(crate::proofs::Lines::spaced_room))]
    fn spaced(&mut self, numbers: &[usize])
        requires { HasRoom self.old (spaced numbers.now) }
        ensures { Grown self.old (spaced numbers.now) self.new }
    {
        for n in numbers {
            self.append(b" ");
            self.number(*n);
        }
    }

    // A line of a report: a bracket and a word, numbers, a bracket and the line's end.
    #[tactic(auto, using(crate::proofs::Lines::line_length))]
    pub fn line(&mut self, word: &[u8], numbers: &[usize])
        requires { HasRoom self.old (Text·line word.now numbers.now) }
        ensures { Grown self.old (Text·line word.now numbers.now) self.new }
    {
        self.append(word);
        self.spaced(numbers);
        self.append(b")\n");
    }
}
