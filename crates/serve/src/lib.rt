// A store at an input and an output: the lines of the input are answered one by one, and what is printed for a line is written as soon as it is answered.
#![tactic(auto)]

ghost use Rattle.std.specs.Prelude.{◌≡◌, List, ℕ, ◌<◌, ◌≤◌, length, take, OnOk, IfOk, OnErr};
ghost use Rattle.std.specs.Io.KnownBytes.{Appends, Consumes, IsAtEnd};
ghost use Rattle.serve.specs.Input.{answering, next_session, finished, printed_last, Serves, Demands};
ghost use Rattle.serve.specs.Private.Turns.{Feeds, Begins, Turn, Reads, ReadsPart, Runs, Opens};

use cache::SealedState;
use console::Line;
use std::io::{ErrorKind, Read, Result, Write};
use std::marker::Model;

// The store that document 01's `desk` opens, and the bytes that it lends for answers.
#[derive(Clone, Copy)]
pub struct Desk {}

impl Desk {
    pub const CELLS: usize = 4096;

    pub const MEMORY: usize = 256;

    pub const SLOTS: usize = 4;

    pub const SLOT_BYTES: usize = 64;

    pub const ANSWER: usize = 65536;
}

// The bytes of a line that are held: one more than a line may have, so that a longer one is seen to be too long.
const HELD: usize = Line::BYTES + 1;

// The bytes for the text of a line, which hold what any line prints: of an answer in `Desk::ANSWER` bytes, 3 for each byte of its values (12 for a value, with its
// space), 2 for each row, which has 4 bytes or more, and 33 besides: at most 3 * 65,528 + 2 * 16,382 + 33. No other line has 64.
const PRINTED: usize = 4 * Desk::ANSWER;

// The most bytes of a read.
const PIECE: usize = 65536;

// A store with its memories, the bytes that are held of the next line, and what it lends for answers. In a clause it is a session. It owns its arrays: a call
// that is lent five `&mut` fields of a struct of borrows gets no generated proof. There is no heap: `held` says how many bytes of `line` are a line's.
// The bytes for the text of a line are no field: no session has them, so what `answer_held` promises of them could not be said. They are lent as `out`, beside the
// output that they are written to.
#[derive(Drop)]
struct Server {
    state: SealedState,
    cells: [i32; Desk::CELLS],
    memory: [u8; Desk::MEMORY],
    answer: [u8; Desk::ANSWER],
    line: [u8; HELD],
    held: usize,
}

impl Model for Server {
    ghost use Rattle.serve.specs.Input.{Session};
    ghost use Rattle.serve.specs.Private.Served.{session, Fits};

    ghost Value = { Session };

    ghost view = { session };

    ghost invariant = { Fits };
}

impl Server {
    // Opens the store of document 01.
    fn open() -> Server
        ensures { Opens result }
    {
        let mut cells = lists::filled(0);
        let mut memory = lists::filled(0);
        let opened = SealedState::open(&mut cells, &mut memory, Desk::SLOTS, Desk::SLOT_BYTES);
        Server {
            state: opened.state,
            cells,
            memory,
            answer: lists::filled(0),
            line: lists::filled(0),
            held: 0,
        }
    }

    // Answers the line that is held: how many bytes are printed for it, which are at the start of `out`.
    fn answer_held(&mut self, out: &mut [u8; PRINTED]) -> usize
        ensures session { self.new ≡ next_session (answering self.old) }
        ensures text { take result out.new ≡ (answering self.old).text }
        ensures within { result ≤ length out.new }
    {
        let line = &self.line[..self.held];
        let size = console::respond(
            &mut self.state,
            &mut self.cells,
            &mut self.memory,
            &mut self.answer,
            line,
            out,
        );
        self.held = 0;
        size
    }

    // The same, and writes what is printed: the text at the start of `out`, which stands there whether it could be written or not, and whatever the output is.
    fn answer_line<W: Write>(&mut self, out: &mut [u8; PRINTED], output: &mut W) -> Result<()>
        ensures session { self.new ≡ next_session (answering self.old) }
        ensures text { Begins (answering self.old).text out.new }
        ensures printed { OnOk result (Appends (W.contents output.old) (W.contents output.new) (answering self.old).text) }
    {
        let size = self.answer_held(out);
        output.write_all(&out[..size])
    }

    // Gathers the line on, and answers it if it ends: how many bytes of the piece are used up. An error, too, leaves the session after some of its bytes, and what is printed for them
    // at the start of `out`.
    fn answer_next<W: Write>(
        &mut self,
        piece: &[u8],
        out: &mut [u8; PRINTED],
        output: &mut W,
    ) -> Result<usize>
        requires { 0 < length piece.now }
        ensures used { IfOk result (λ n. (0 < n) × (n ≤ length piece.now)) }
        ensures feeds { IfOk result (λ n. Feeds self.old (take n piece.now) self.new (W.contents output.old) (W.contents output.new)) }
        ensures reads { OnErr result (ReadsPart self.old piece.now self.new) }
        ensures turn { Turn self.old piece.now self.new out.new }
    {
        let held = self.held;
        let gathered = console::gather(piece, 0, &mut self.line, held);
        self.held = gathered.held;
        if gathered.ended {
            self.answer_line(out, output)?;
        }
        Ok(gathered.next)
    }

    // Answers the lines that end in a piece of the input, and holds what is left of it. A `while`, since only a turn tells how many bytes it uses up.
    fn answer_piece<W: Write>(
        &mut self,
        piece: &[u8],
        out: &mut [u8; PRINTED],
        output: &mut W,
    ) -> Result<()>
        ensures feeds { OnOk result (Feeds self.old piece.now self.new (W.contents output.old) (W.contents output.new)) }
        ensures reads { OnErr result (ReadsPart self.old piece.now self.new) }
    {
        let mut rest = piece;
        while !rest.is_empty() {
            let next = self.answer_next(rest, out, output)?;
            rest = &rest[next..];
        }
        Ok(())
    }

    // Answers the lines of an input until it ends. A loop must end, so this one has a last turn, which no run lives to see; where the input goes on past it, that is an error.
    fn answer_all<R: Read, W: Write>(
        &mut self,
        piece: &mut [u8; PIECE],
        out: &mut [u8; PRINTED],
        input: &mut R,
        output: &mut W,
    ) -> Result<()>
        ensures feeds { OnOk result ((bytes : List ℕ) × Consumes (R.remaining input.old) (R.remaining input.new) bytes × IsAtEnd (R.remaining input.new) × Feeds self.old bytes self.new (W.contents output.old) (W.contents output.new)) }
        ensures reads { OnErr result (Reads self.old self.new) }
    {
        for _ in 0..u64::MAX {
            let got = read_some(input, piece)?;
            if got == 0 {
                return Ok(());
            }
            self.answer_piece(&piece[..got], out, output)?;
        }
        Err(ErrorKind::Other.into())
    }

    // Answers a last line that no newline ends, if it has a byte.
    fn answer_last<W: Write>(&mut self, out: &mut [u8; PRINTED], output: &mut W) -> Result<()>
        ensures session { self.new ≡ finished self.old }
        ensures text { Begins (printed_last self.old) out.new }
        ensures printed { OnOk result (Appends (W.contents output.old) (W.contents output.new) (printed_last self.old)) }
    {
        if self.held > 0 {
            self.answer_line(out, output)?;
        }
        Ok(())
    }

    // Answers the lines of an input, a last one that no newline ends among them.
    fn answer_input<R: Read, W: Write>(&mut self, input: &mut R, output: &mut W) -> Result<()>
        ensures { OnOk result ((bytes : List ℕ) × Consumes (R.remaining input.old) (R.remaining input.new) bytes × IsAtEnd (R.remaining input.new) × Runs self.old bytes self.new (W.contents output.old) (W.contents output.new)) }
    {
        let mut piece = [0; PIECE];
        let mut out = lists::filled(0);
        self.answer_all(&mut piece, &mut out, input, output)?;
        self.answer_last(&mut out, output)
    }
}

// Reads a piece of the input: how many bytes there are, none at its end alone.
fn read_some<R: Read>(input: &mut R, piece: &mut [u8; PIECE]) -> Result<usize>
    ensures within { IfOk result (λ n. n ≤ length piece.new) }
    ensures bytes { IfOk result (λ n. Consumes (R.remaining input.old) (R.remaining input.new) (take n piece.new)) }
    ensures end { IfOk result (λ n. n ≡ 0 → IsAtEnd (R.remaining input.new)) }
{
    input.read(piece)
}

// Opens a store, and answers the lines of an input until it ends: an error where it can't be read, or what is printed can't be written.
pub fn serve<R: Read, W: Write>(input: &mut R, output: &mut W) -> Result<()>
    ensures { OnOk result (Serves (R.remaining input.old) (R.remaining input.new) (W.contents output.old) (W.contents output.new)) }
{
    let mut server = Server::open();
    server.answer_input(input, output)
}

// All claims of specs/Input hold. A theorem is proved only where a contract names it: this function is there to name them, and does nothing.
pub fn claims_hold()
    ensures { Demands }
{}
