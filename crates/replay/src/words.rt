// The stored answers come as words on standard input: eight hexadecimal digits and one byte that ends them.
use crate::Tally;
use blend::Rgba;
use std::io;
use streams::StandardInput;

// What a word stands for.
pub trait Value: Copy {
    // What is compared with a word where there is no value.
    const NONE: u32;

    fn of_word(word: u32) -> Self;

    fn to_word(self) -> u32;
}

// Words are compared by their sums alone, so that none is missing.
impl Value for u32 {
    const NONE: u32 = 0;

    fn of_word(word: u32) -> u32 {
        word
    }

    fn to_word(self) -> u32 {
        self
    }
}

impl Value for u8 {
    const NONE: u32 = 256;

    fn of_word(word: u32) -> u8 {
        (word % 256) as u8
    }

    fn to_word(self) -> u32 {
        u32::from(self)
    }
}

// One NaN stands for all.
impl Value for f32 {
    const NONE: u32 = 2143289344;

    fn of_word(word: u32) -> f32 {
        float::from_bits(word)
    }

    fn to_word(self) -> u32 {
        float::to_bits(self)
    }
}

// The value of a hexadecimal digit, 0 for any other byte. `leaves` has the same lines: shared, they would be a public function of
// `streams`, with a definition and a promise of its own.
fn digit(b: u8) -> u32 {
    match b {
        b'0'..=b'9' => u32::from(b - b'0'),
        b'a'..=b'f' => u32::from(b - b'a' + 10),
        _ => 0,
    }
}

// The first n of xs, or all of it.
pub fn front<T>(xs: &[T], n: usize) -> &[T] {
    &xs[..n.min(xs.len())]
}

fn put<T: Copy>(out: &mut [T], i: usize, x: T) {
    if i < out.len() {
        out[i] = x;
    }
}

// The words that are left, and the answers that were compared with those before.
#[derive(Drop)]
pub struct Stored {
    input: StandardInput,
    pub tally: Tally,
}

impl Stored {
    // All words, before any answer.
    pub fn new(input: StandardInput) -> Stored {
        Stored {
            input,
            tally: Tally::NONE,
        }
    }

    // How the reading went.
    pub fn end(self) -> io::Result<()> {
        self.input.end()
    }

    // The next word; 0 once the input has ended.
    pub fn word(&mut self) -> u32 {
        let mut text = [0u8; 9];
        if self.input.fill(&mut text) < 9 {
            return 0;
        }
        text[..8].iter().fold(0, |word, b| (word << 4) | digit(*b))
    }

    // The next word, as a length.
    pub fn count(&mut self) -> usize {
        self.word() as usize
    }

    pub fn float(&mut self) -> f32 {
        f32::of_word(self.word())
    }

    pub fn colour(&mut self) -> Rgba {
        Rgba {
            r: self.float(),
            g: self.float(),
            b: self.float(),
            a: self.float(),
        }
    }

    // Takes n values into the start of out; those past its end are read and dropped.
    pub fn fill<T: Value>(&mut self, out: &mut [T], n: usize) {
        for i in 0..n {
            put(out, i, T::of_word(self.word()));
        }
    }

    // Takes as many values as the next word says, each after its own place in out; those past its end are read and dropped.
    pub fn scatter<T: Value>(&mut self, out: &mut [T]) {
        for _ in 0..self.word() {
            let at = self.count();
            put(out, at, T::of_word(self.word()));
        }
    }

    // Whether the next n words are the first n of xs. All of them are read.
    pub fn are<T: Value>(&mut self, xs: &[T], n: usize) -> bool {
        let mut all = true;
        for i in 0..n {
            let word = xs.get(i).map_or(T::NONE, |x| x.to_word());
            all &= word == self.word();
        }
        all
    }

    // Counts one more answer.
    pub fn compare(&mut self, is_equal: bool) {
        self.tally = self.tally.with(is_equal);
    }

    // Compares a slice, as one answer: how many words, and those words.
    pub fn compare_all<T: Value>(&mut self, xs: &[T]) {
        let n = self.count();
        let is_equal = self.are(xs, n);
        self.compare(is_equal);
    }
}
