// A row of numbers, in fields that white space or tabs part.
#![tactic(auto)]

ghost use Rattle.std.specs.Prelude.{◌≡◌, replicate};
ghost use Rattle.float.specs.F32.{f0};
ghost use Rattle.rows.specs.declared.Parting.TheVariants.{Spaces, Tabs};
ghost use Rattle.rows.specs.Rows.{finite_only, token_of, longest, RowAt};
ghost use Rattle.rows.specs.inner.Steps.{FieldAt};

use decimal::Token;
use text::{Class, span_end};

pub mod digits;

// What parts the fields of a row. Spaces: white space, and they are the words of a line. Tabs: every tab parts two fields,
// of which either may be empty, and they go on to the end of the text.
#[derive(Clone, Copy)]
pub enum Parting {
    Spaces,
    Tabs,
}

// What a number may look like: short, as document 01 has it, or long, with an exponent and more digits.
#[derive(Clone, Copy)]
pub enum Notation {
    Short,
    Long,
}

// The field from `at` to `end`, and where to look for the one after it; or none, and where what follows the row starts.
#[derive(Clone, Copy)]
struct Field {
    some: bool,
    at: usize,
    end: usize,
    next: usize,
}

// The first word of the line that goes on at `from`. A CR is white space, so that one before the LF needs no test.
fn word_at(s: &[u8], from: usize) -> Field
    ensures { FieldAt Spaces s.now from result.some result.at result.end result.next }
{
    let at = span_end(s, from, Class::Blank);
    let end = span_end(s, at, Class::NotWhite);
    if at < end {
        return Field {
            some: true,
            at,
            end,
            next: end,
        };
    }
    if at < s.len() {
        return Field {
            some: false,
            at,
            end,
            next: at + 1,
        };
    }
    Field {
        some: false,
        at,
        end,
        next: at,
    }
}

// The field that starts at `from`. Past the last one, which ends with the text, there is none.
fn tabbed_at(s: &[u8], from: usize) -> Field
    ensures { FieldAt Tabs s.now from result.some result.at result.end result.next }
{
    if s.len() < from {
        return Field {
            some: false,
            at: from,
            end: from,
            next: from,
        };
    }
    let end = span_end(s, from, Class::NotTab);
    Field {
        some: true,
        at: from,
        end,
        next: end + 1,
    }
}

fn field_at(s: &[u8], from: usize, by: Parting) -> Field
    ensures { FieldAt by s.now from result.some result.at result.end result.next }
{
    match by {
        Parting::Spaces => word_at(s, from),
        Parting::Tabs => tabbed_at(s, from),
    }
}

// A number that is infinite is none.
fn finite_only(t: Token) -> Token
    ensures { result ≡ finite_only t }
{
    match t {
        Token::NoNumber => t,
        Token::Number(x) => {
            if float::is_finite(x) {
                return t;
            }
            Token::NoNumber
        }
    }
}

fn token_of(s: &[u8], notation: Notation) -> Token
    ensures { result ≡ token_of notation s.now }
{
    match notation {
        Notation::Short => decimal::read(s),
        Notation::Long => finite_only(decimal::read_long(s)),
    }
}

// The numbers of a row, n of them in d, which is 0 after them, and where what follows the row starts.
#[derive(Clone, Copy)]
pub struct Row {
    pub d: [f32; 15],
    pub n: usize,
    pub next: usize,
}

// What is answered where there is no row.
fn no_row(at: usize) -> Row
    ensures { (result.d ≡ replicate longest f0) × (result.n ≡ 0) × (result.next ≡ at) }
{
    Row {
        d: [0.0; 15],
        n: 0,
        next: at,
    }
}

// The row at `at`, whose end is found field by field. A field that is no number, or one too many, leaves no numbers.
pub fn row_at(s: &[u8], at: usize, by: Parting, notation: Notation) -> Row
    ensures { RowAt notation by s.now at result.d result.n result.next }
{
    let mut d = [0.0f32; 15];
    let mut n = 0;
    let mut i = at;
    // What ends the loop, a field that is none, also tells where what follows starts: no test stands at its head.
    loop {
        let f = field_at(s, i, by);
        let start = f.at;
        let end = f.end;
        if !f.some {
            if n == 0 {
                return no_row(at);
            }
            return Row { d, n, next: f.next };
        }
        if 15 <= n {
            return no_row(at);
        }
        let Token::Number(x) = token_of(&s[start..end], notation) else {
            return no_row(at);
        };
        d[n] = x;
        n += 1;
        i = f.next;
    }
}
