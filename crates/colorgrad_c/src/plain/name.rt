// A name written into a lent output.
ghost use Rattle.std.specs.Prelude.{◌≡◌, length};
ghost use Rattle.colorgrad_c.specs.plain.Name.{named};

// The length of the name. Its bytes are written where the output has room for all of them; else it stays as it is.
pub(crate) fn write_name(name: &[u8], out: &mut [u8]) -> usize
    ensures value { result ≡ length name.now }
    ensures out_after { out.new ≡ named name.now out.old }
{
    if name.len() <= out.len() {
        out[..name.len()].copy_from_slice(name);
    }
    name.len()
}
