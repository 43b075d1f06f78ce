// Files as GIMP saves them: names in any script, long numbers, bytes above 127, the length.
use crate::show::show;
use spelling::{append, front};
use streams::StandardOutput;

// Line 2 is UTF-8, or 10.
fn name(out: &mut StandardOutput, label: &[u8], name: &[u8]) {
    let mut text = [0u8; 256];
    let mut n = append(&mut text, 0, b"GIMP Gradient\nName: ");
    n = append(&mut text, n, name);
    n = append(&mut text, n, b"\n1\n0 .5 1 0 0 0 1 1 1 1 1 0 0\n");
    show(out, true, label, front(&text, n));
}

pub(crate) fn names(out: &mut StandardOutput) {
    name(out, b"Russian", b"\xd0\x9c\xd0\xbe\xd1\x80\xd0\xb5");
    name(out, b"Japanese", b"\xe6\xb5\xb7 #1");
    name(out, b"four bytes", b"\xf0\x9f\x8c\x8a");
    name(
        out,
        b"the greatest of each length",
        b"\x7f\xdf\xbf\xef\xbf\xbf\xf4\x8f\xbf\xbf",
    );
    name(
        out,
        b"the least of each length",
        b"\xc2\x80\xe0\xa0\x80\xf0\x90\x80\x80",
    );
    name(out, b"beside the surrogates", b"\xed\x9f\xbf\xee\x80\x80");
    name(out, b"overlong, two bytes", b"\xc1\xbf");
    name(out, b"overlong, three", b"\xe0\x9f\xbf");
    name(out, b"overlong, four", b"\xf0\x8f\xbf\xbf");
    name(out, b"a surrogate", b"\xed\xa0\x80");
    name(out, b"above U+10FFFF", b"\xf4\x90\x80\x80");
    name(out, b"byte F5", b"\xf5\x80\x80\x80");
    name(out, b"a byte that continues nothing", b"a\x80");
    name(out, b"cut short", b"\xe6\xb5");
    name(out, b"cut by a letter", b"\xe6\xb5a");
    name(out, b"one too many", b"\xc3\xa9\x80");
    name(out, b"spaces of Unicode stay", b"\xc2\xa0a\xe3\x80\x80");
}

// The red of the left end is this number.
fn red(out: &mut StandardOutput, label: &[u8], token: &[u8]) {
    let mut text = [0u8; 256];
    let mut n = append(&mut text, 0, b"GIMP Gradient\nName: n\n1\n0 .5 1 ");
    n = append(&mut text, n, token);
    n = append(&mut text, n, b" 0 0 1 1 1 1 1 0 0\n");
    show(out, true, label, front(&text, n));
}

pub(crate) fn numbers(out: &mut StandardOutput) {
    red(out, b"an exponent", b"1e0");
    red(
        out,
        b"17 significant digits of 19",
        b"9.9999999999999995e-08",
    );
    red(
        out,
        b"20 digits, 17 of them significant",
        b"0.0039215686274509803",
    );
    red(out, b"19 significant digits", b"0.1234567890123456789");
    red(out, b"20 significant digits", b"0.12345678901234567891");
    red(
        out,
        b"zeros that do not count",
        b"00000000000000000000000.100000000000000000000",
    );
    red(out, b"E and a plus", b"1E+0");
    red(out, b"no digit after e", b"1e");
    red(out, b"a point after e", b"1e1.5");
    red(out, b"the greatest f32", b"3.4028234663852886e38");
    red(out, b"infinite", b"4e38");
    red(
        out,
        b"infinite, and a great exponent",
        b"-1e99999999999999999999",
    );
    red(out, b"zero by its exponent", b"1e-99999999999999999999");
    red(out, b"inf", b"inf");
    red(out, b"a comma", b"0,5");
    show(
        out,
        true,
        b"a code by its exponent",
        b"GIMP Gradient\nName: n\n1\n0 .5 1 0 0 0 1 1 1 1 1 20e-1 0\n",
    );
    show(
        out,
        true,
        b"a code cut from the number read",
        b"GIMP Gradient\nName: n\n1\n0 .5 1 0 0 0 1 1 1 1 1 5.99999999 0\n",
    );
    show(
        out,
        true,
        b"curved",
        b"GIMP Gradient\nName: n\n1\n0 .5 1 0 0 0 1 1 1 1 1 1 0\n",
    );
    show(
        out,
        true,
        b"curved, its middle outside",
        b"GIMP Gradient\nName: n\n1\n0 2 1 0 0 0 1 1 1 1 1 1 0\n",
    );
}

// Bytes above 127 in the other lines, and which refusal comes first.
pub(crate) fn elsewhere(out: &mut StandardOutput) {
    show(
        out,
        true,
        b"in line 1",
        b"GIMP Gradient\xc3\xa9\nName: n\n1\n0 .5 1 0 0 0 1 1 1 1 1 0 0\n",
    );
    show(
        out,
        true,
        b"in line 3",
        b"GIMP Gradient\nName: n\n1\xc3\xa9\n0 .5 1 0 0 0 1 1 1 1 1 0 0\n",
    );
    show(
        out,
        true,
        b"in a segment",
        b"GIMP Gradient\nName: n\n1\n0 .5 1 0 0 0 1 1 1 1 1 0 \xc3\xa9\n",
    );
    show(
        out,
        true,
        b"after the segments",
        b"GIMP Gradient\nName: n\n1\n0 .5 1 0 0 0 1 1 1 1 1 0 0\n\xc3\n",
    );
    show(
        out,
        true,
        b"10 of line 2 before 11 of line 1",
        b"x\nName: \xff\n1\n",
    );
    show(
        out,
        true,
        b"11 of line 1 before what follows",
        b"x\nName: n\n1\n\xff\n",
    );
    show(
        out,
        true,
        b"15 before 10 of a segment",
        b"GIMP Gradient\nName: n\n3\n\xff\n",
    );
    show(
        out,
        true,
        b"14 before 10 of a line",
        b"GIMP Gradient\nName: n\n0\n\xff\n",
    );
    show(
        out,
        true,
        b"10 of line 5 before 12 of line 4",
        b"GIMP Gradient\nName: n\n2\nx\n\xff\n",
    );
    show(
        out,
        true,
        b"10 before 13",
        b"GIMP Gradient\nName: n\n2\n\xff",
    );
    show(
        out,
        true,
        b"UTF-8 in line 2 that has no Name",
        b"GIMP Gradient\nn\xc3\xa9\n1\n",
    );
}

// NULs after the last segment are not read, but counted.
pub(crate) fn wide(out: &mut StandardOutput) {
    let mut text = [0u8; 131073];
    append(
        &mut text,
        0,
        b"GIMP Gradient\nName: many\n1\n0 .5 1 0 0 0 1 1 1 1 1 0 0\n",
    );
    show(out, true, b"131,072 bytes", front(&text, 131072));
    show(out, true, b"131,073 bytes", &text);
}
