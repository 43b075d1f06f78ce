// Numbers told into a lent slice: as many as it holds, from its start. What lies past the last of them stays.
ghost use Rattle.std.specs.Prelude.{◌≡◌};
ghost use Rattle.colorgrad_c.specs.plain.Telling.{telling};

// One by one: the library's copy of so few is a call, and the calls that tell one number took 1.4 times as long by it.
pub(crate) fn tell<T: Copy>(told: &mut [T], items: &[T])
    ensures { told.new ≡ telling items.now told.old }
{
    for (i, &item) in items.iter().enumerate() {
        if i < told.len() {
            told[i] = item;
        }
    }
}
