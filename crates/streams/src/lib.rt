// What the programs read and write: standard input and output, each with its first failure, which `main` answers at the end.
#![tactic(auto)]

ghost use Rattle.std.specs.Prelude.{◌≡◌, ◌<◌, ◌≤◌, length, take, IfOk, IfSome, OnOk, OnErr, IsOk, decimal};
ghost use Rattle.streams.specs.Hex.{eight_digits};
ghost use Rattle.std.specs.Io.KnownBytes.{Appends, Consumes, IsAtEnd};

use std::fmt::Display;
use std::io;
use std::io::{Read, Stdin, Stdout, Write};

pub type StandardInput = Input<Stdin>;

pub type StandardOutput = Output<Stdout>;

// Reads until `buf` is full or the input ends, and answers how many bytes it put at the start of `buf`.
pub fn read_full<R: Read>(reader: &mut R, buf: &mut [u8]) -> io::Result<usize>
    ensures bound { IfOk result (λ n. n ≤ length buf.new) }
    ensures bytes { IfOk result (λ n. Consumes (R.remaining reader.old) (R.remaining reader.new) (take n buf.new)) }
    ensures end { IfOk result (λ n. n < length buf.new → IsAtEnd (R.remaining reader.new)) }
{
    let mut done = 0;
    while done < buf.len() {
        let n = reader.read(&mut buf[done..])?;
        if n == 0 {
            break;
        }
        done += n;
    }
    Ok(done)
}

// A reader that keeps its first failure: nothing is read after it.
#[derive(Drop)]
pub struct Input<R: Read + Drop> {
    pub reader: R,
    pub result: io::Result<()>,
}

impl<R: Read + Drop> Input<R> {
    pub fn new(reader: R) -> Input<R>
        ensures reader { result.reader ≡ reader }
        ensures fine { IsOk result.result }
    {
        Input {
            reader,
            result: Ok(()),
        }
    }

    // As many bytes as `buf` has, or those that are left; none after a failure.
    pub fn fill(&mut self, buf: &mut [u8]) -> usize
        ensures bound { result ≤ length buf.new }
        ensures bytes { OnOk self.new.result (Consumes (R.remaining self.old.reader) (R.remaining self.new.reader) (take result buf.new)) }
        ensures end { OnOk self.new.result (result < length buf.new → IsAtEnd (R.remaining self.new.reader)) }
        ensures failed { OnErr self.new.result (result ≡ 0) }
        ensures kept { OnErr self.old.result (self.new ≡ self.old) }
    {
        if self.result.is_err() {
            return 0;
        }
        match read_full(&mut self.reader, buf) {
            Ok(n) => n,
            Err(e) => {
                self.result = Err(e);
                0
            }
        }
    }

    pub fn end(self) -> io::Result<()>
        ensures { result ≡ self.result }
    {
        self.result
    }
}

// A writer that keeps its first failure: nothing is written after it.
#[derive(Drop)]
pub struct Output<W: Write + Drop> {
    pub writer: W,
    pub result: io::Result<()>,
}

impl<W: Write + Drop> Output<W> {
    pub fn new(writer: W) -> Output<W>
        ensures writer { result.writer ≡ writer }
        ensures fine { IsOk result.result }
    {
        Output {
            writer,
            result: Ok(()),
        }
    }

    pub fn put(&mut self, s: &[u8])
        ensures bytes { OnOk self.new.result (Appends (W.contents self.old.writer) (W.contents self.new.writer) s.now) }
        ensures kept { OnErr self.old.result (self.new ≡ self.old) }
    {
        if self.result.is_ok() {
            self.result = self.writer.write_all(s);
        }
    }

    // What `write!` and `writeln!` call. They answer nothing here, since the failure is kept.
    pub fn write_fmt<D: Display + Drop>(&mut self, text: D)
        ensures bytes { OnOk self.new.result (IfSome (D.output text) (Appends (W.contents self.old.writer) (W.contents self.new.writer))) }
        ensures kept { OnErr self.old.result (self.new ≡ self.old) }
    {
        if self.result.is_ok() {
            self.result = self.writer.write_fmt(text);
        }
    }

    pub fn decimal(&mut self, n: u64)
        ensures bytes { OnOk self.new.result (Appends (W.contents self.old.writer) (W.contents self.new.writer) (decimal n)) }
        ensures kept { OnErr self.old.result (self.new ≡ self.old) }
    {
        write!(self, "{n}");
    }

    pub fn hex(&mut self, n: u32)
        ensures bytes { OnOk self.new.result (Appends (W.contents self.old.writer) (W.contents self.new.writer) (eight_digits n)) }
        ensures kept { OnErr self.old.result (self.new ≡ self.old) }
    {
        write!(self, "{n:08x}");
    }

    pub fn end(self) -> io::Result<()>
        ensures { result ≡ self.result }
    {
        self.result
    }
}
