// Which bytes a text may have, by the rules that it is read by.
ghost use Rattle.std.specs.Prelude.{◌≡◌, drop};
ghost use Rattle.text.specs.Text.{lines};
ghost use Rattle.ggr.specs.File.{most_bytes, good_bytes, fit_text, ascii_lines, fit_lines};

use header::is_saved_head;
use refusals::MOST_TEXT;
use segment::Rules;
use text::{is_ascii, line_at, marks};

// Bytes of a text as GIMP saves it, marks counted.
const MOST_SAVED: usize = 131072;

fn most_bytes(rules: Rules) -> usize
    ensures { result ≡ most_bytes rules }
{
    match rules {
        Rules::Published => MOST_TEXT,
        Rules::Saved => MOST_SAVED,
    }
}

fn are_good_bytes(rules: Rules, s: &[u8]) -> bool
    ensures { result ≡ good_bytes rules s.now }
{
    match rules {
        Rules::Published => { is_ascii(&s[marks(s)..]) }
        Rules::Saved => is_saved_head(s),
    }
}

pub(crate) fn is_fit_text(rules: Rules, s: &[u8]) -> bool
    ensures { result ≡ fit_text rules s.now }
{
    s.len() <= most_bytes(rules) && are_good_bytes(rules, s)
}

// Whether the n lines from `from` on, as many of them as there are, are ASCII.
fn are_ascii_lines(s: &[u8], from: usize, n: usize) -> bool
    ensures { result ≡ ascii_lines n (lines (drop from s.now)) }
{
    let mut at = from;
    for _ in 0..n {
        if s.len() <= at {
            return true;
        }
        let l = line_at(s, at);
        if !is_ascii(&s[at..l.end]) {
            return false;
        }
        at = l.next;
    }
    true
}

// The n segment lines from `from` on. By document 01's rules every byte was looked at before.
pub(crate) fn are_fit_lines(rules: Rules, s: &[u8], from: usize, n: usize) -> bool
    ensures { result ≡ fit_lines rules n (lines (drop from s.now)) }
{
    match rules {
        Rules::Published => true,
        Rules::Saved => are_ascii_lines(s, from, n),
    }
}
