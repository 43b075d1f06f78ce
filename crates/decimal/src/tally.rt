// Digits counted as they are read: up to 19 that count, and zeros after them.
ghost use Rattle.std.specs.Prelude.{◌≤◌, length};
ghost use Rattle.decimal.specs.Long.{most_significant};
ghost use Rattle.decimal.specs.inner.Counted.{Small, CountsTo, ZerosTo, NoZero, FirstTo, MoreTo, StopIs};

pub(crate) const MOST_SIGNIFICANT: u32 = 19;

// Digits as they are read: all of them are value times 10 for each of zeros. From the first that is not 0 on they are
// count and the zeros; a count of 20 tells that after the 19th there is another that is not 0.
#[derive(Clone, Copy)]
pub(crate) struct Counted {
    pub(crate) value: u64,
    pub(crate) count: u32,
    pub(crate) zeros: usize,
    pub(crate) end: usize,
}

pub(crate) fn count_digits(s: &[u8], from: usize, value: u64, count: u32, zeros: usize) -> Counted
    requires { (from ≤ length s.now) × ((zeros ≤ from) × Small value count) }
    ensures { CountsTo s.now from value count zeros result.value result.count result.zeros result.end }
{
    let at = past_zeros(s, from, count);
    let first = count_first(s, at, value, count, zeros);
    if first.count < MOST_SIGNIFICANT {
        return first;
    }
    count_more(s, first.end, first.value, first.count, first.zeros)
}

// Where zeros at the start end, which do not count.
fn past_zeros(s: &[u8], from: usize, count: u32) -> usize
    requires { from ≤ length s.now }
    ensures { ZerosTo s.now from count result }
{
    if 0 < count {
        return from;
    }
    for i in from..s.len() {
        if s[i] != b'0' {
            return i;
        }
    }
    s.len()
}

// Digits that count, up to the 19th.
fn count_first(s: &[u8], from: usize, value: u64, count: u32, zeros: usize) -> Counted
    requires from_in_bounds { (from ≤ length s.now) × ((zeros ≤ from) × Small value count) }
    requires no_zero { NoZero s.now from count }
    ensures { FirstTo s.now from value count zeros result.value result.count result.zeros result.end }
{
    let mut v = value;
    let mut c = count;
    let stop = stop_of(from, s.len(), count);
    for i in from..stop {
        let b = s[i];
        if !b.is_ascii_digit() {
            return Counted {
                value: v,
                count: c,
                zeros,
                end: i,
            };
        }
        v = v * 10 + (b - b'0') as u64;
        c += 1;
    }
    Counted {
        value: v,
        count: c,
        zeros,
        end: stop,
    }
}

// Where 19 digits are counted, or the end where that is nearer.
fn stop_of(from: usize, end: usize, count: u32) -> usize
    requires { from ≤ end }
    ensures { StopIs from end count result }
{
    if MOST_SIGNIFICANT <= count {
        return from;
    }
    let room = (MOST_SIGNIFICANT - count) as usize;
    if end - from < room {
        return end;
    }
    from + room
}

// Digits after the 19th that counts.
fn count_more(s: &[u8], from: usize, value: u64, count: u32, zeros: usize) -> Counted
    requires from_in_bounds { (from ≤ length s.now) × ((zeros ≤ from) × Small value count) }
    requires most_significant_le_count { most_significant ≤ count }
    ensures { MoreTo s.now from value count zeros result.value result.count result.zeros result.end }
{
    let mut c = count;
    let mut z = zeros;
    for i in from..s.len() {
        let b = s[i];
        if !b.is_ascii_digit() {
            return Counted {
                value,
                count: c,
                zeros: z,
                end: i,
            };
        }
        if b == b'0' {
            z += 1;
        } else {
            c = MOST_SIGNIFICANT + 1;
        }
    }
    Counted {
        value,
        count: c,
        zeros: z,
        end: s.len(),
    }
}
