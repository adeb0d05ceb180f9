// A script run, line by line. Nothing can be said of what is read and written, so `run_lines` and `run_script` promise no more than to end; what the lines of a text are is
// promised by `split_line`, which `run_script` calls for each.
ghost use Rattle.std.specs.Prelude.{◌≡◌, ◌≤◌, length, drop};
ghost use Rattle.script.specs.Script.{part_at, end_at, next_at};

use std::alloc::{AllocError, Global};
use std::io;
use std::io::{BufRead, BufReader, BufWriter, Read, Write};

// A program that is given a script, a line at a time.
pub trait Program {
    // The most bytes of its script that `run_script` reads: what stands behind them is not read.
    const SCRIPT: usize = 65536;

    // Does what a line says, and prints what that gives. Under `run_script` a write fails where memory is missing, and for no other reason.
    fn run<W: Write>(&mut self, line: &[u8], out: &mut W) -> io::Result<()>;
}

// Where the first such byte stands, or where the text ends.
fn find(text: &[u8], byte: u8) -> usize
    ensures { (result ≡ end_at byte text.now 0) × (result ≤ length text.now) }
{
    text.iter().position(|b| *b == byte).unwrap_or(text.len())
}

// A text up to the first such byte, and what stands behind that byte: all of the text, and nothing, where there is none.
pub fn split_part(text: &[u8], byte: u8) -> (&[u8], &[u8])
    ensures part { result.0.now ≡ part_at byte text.now 0 }
    ensures rest { result.1.now ≡ drop (next_at byte text.now 0) text.now }
{
    let end = find(text, byte);
    let next = (end + 1).min(text.len());
    (&text[..end], &text[next..])
}

// The first line of a text, without its end, and what stands behind it.
pub fn split_line(text: &[u8]) -> (&[u8], &[u8])
    ensures line { result.0.now ≡ part_at 10 text.now 0 }
    ensures rest { result.1.now ≡ drop (next_at 10 text.now 0) text.now }
{
    split_part(text, b'\n')
}

// Reads until the buffer is full, the input ends or a read fails: how many bytes stand at its start then.
fn read_full<R: Read>(input: &mut R, buffer: &mut [u8]) -> usize
    ensures { result ≤ length buffer.new }
{
    let mut size = 0;
    while size < buffer.len() {
        match input.read(&mut buffer[size..]) {
            Ok(n) if 0 < n => size += n,
            _ => break,
        }
    }
    size
}

// The bytes of an input, up to so many.
fn read_script<R: Read>(alloc: Global, input: &mut R, most: usize) -> Result<Vec<u8>, AllocError> {
    let mut script = vec![in alloc; 0; most]?;
    let size = read_full(input, &mut script);
    script.truncate(size);
    Ok(script)
}

// Does what a line says, and writes at once what that prints, also where memory is missing then. A write that fails is passed over.
fn run_line<R: Print, P: Program>(
    rt: &R,
    program: &mut P,
    line: &[u8],
    printed: &mut Vec<u8>,
) -> io::Result<()> {
    printed.clear();
    let done = program.run(line, printed);
    let _ = io::writer(rt).write_all(printed);
    done
}

// Gives a program the lines of standard input, each without its end, as they are read, up to the input's end. What is printed stands in a buffer until that is full or the run ends.
// The error is that of a read, of the program, of the last write, or of memory that is missing; it ends the run. (Any other write fails in the program.)
pub fn run_lines<R: AllocGlobal + Input + Print, P: Program>(
    rt: &R,
    program: &mut P,
) -> io::Result<()> {
    let alloc = rt.alloc();
    let mut out = BufWriter::new(alloc, io::writer(rt))?;
    for line in BufReader::new(alloc, rt.reader())?.split(alloc, b'\n') {
        program.run(line?.as_slice(), &mut out)?;
    }
    out.flush()
}

// Gives a program the lines of standard input, each without its end, once all of it is read, up to the most bytes of a script. A read that fails ends the input. The error is
// memory that is missing; no other ends a program.
pub fn run_script<R: AllocGlobal + Input + Print, P: Program>(
    rt: &R,
    program: &mut P,
) -> io::Result<()> {
    let alloc = rt.alloc();
    let script = read_script(alloc, &mut rt.reader(), P::SCRIPT)?;
    let mut printed = Vec::new(alloc);
    let mut rest = script.as_slice();
    while !rest.is_empty() {
        let (line, behind) = split_line(rest);
        run_line(rt, program, line, &mut printed)?;
        rest = behind;
    }
    Ok(())
}

#[cfg(test)]
mod tests {
    use super::{Program, run_lines};
    use std::alloc::{Alloc, Allocator, Global};
    use std::fmt::Display;
    use std::io;
    use std::io::{BufRead, ErrorKind, Input, Lines, Write};
    use std::string::String;

    // A host whose standard input is a text, and whose standard output takes all that is written, or nothing.
    #[derive(Drop)]
    struct Host<'a> {
        rt: &'a HostRuntime,
        text: &'a [u8],
        is_full: bool,
    }

    impl Alloc for Host<'_> {
        type A = Global;

        fn alloc(&self) -> Global {
            self.rt.alloc()
        }
    }

    impl<'a> Input for Host<'a> {
        type Reader = &'a [u8];

        fn read_line<A: Allocator + Clone>(&self, buf: &mut String<A>) -> io::Result<usize> {
            self.reader().read_line(buf)
        }

        fn lines<A: Allocator>(&self, alloc: A) -> Lines<&'a [u8], A> {
            self.reader().lines(alloc)
        }

        fn reader(&self) -> &'a [u8] {
            self.text
        }
    }

    impl Print for Host<'_> {
        fn print<D: Display + Drop>(&self, _value: D) -> io::Result<()> {
            self.write_all(&[])
        }

        fn println<D: Display + Drop>(&self, _value: D) -> io::Result<()> {
            self.write_all(b"\n")
        }

        fn write_all(&self, _bytes: &[u8]) -> io::Result<()> {
            if self.is_full {
                return Err(io::Error::from(ErrorKind::StorageFull));
            }
            Ok(())
        }
    }

    // Counts its lines and their bytes, and prints each line.
    #[derive(Default, Drop)]
    struct Counted {
        lines: usize,
        bytes: usize,
    }

    impl Program for Counted {
        fn run<W: Write>(&mut self, line: &[u8], out: &mut W) -> io::Result<()> {
            self.lines = self.lines.saturating_add(1);
            self.bytes = self.bytes.saturating_add(line.len());
            out.write_all(line)
        }
    }

    // Runs over more than `run_script` reads: a line that is longer than that, an empty one, and one without its end.
    fn count_long(rt: &HostRuntime) -> io::Result<Counted> {
        let mut text = vec![in rt.alloc(); b'a'; 70000]?;
        text.extend_from_slice(b"\n\nlast")?;
        let host = Host {
            rt,
            text: &text,
            is_full: false,
        };
        let mut counted = Counted::default();
        run_lines(&host, &mut counted)?;
        Ok(counted)
    }

    #[test]
    fn reads_to_the_end_of_the_input(rt: HostRuntime) {
        match count_long(&rt) {
            Ok(counted) => {
                assert_eq!(rt; counted.lines, 3);
                assert_eq!(rt; counted.bytes, 70004);
            }
            Err(_) => assert!(rt; false, "no memory, or a read or write that fails"),
        }
    }

    #[test]
    fn a_write_that_fails_is_its_error(rt: HostRuntime) {
        let host = Host {
            rt: &rt,
            text: b"a\nb\n",
            is_full: true,
        };
        assert!(rt;
            run_lines(&host, &mut Counted::default()).is_err(),
            "no error"
        );
    }
}
