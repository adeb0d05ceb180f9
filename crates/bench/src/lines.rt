// A line of a script read.
use std::alloc::{AllocError, Global};

// A call: with the slots of an opening, a text, a statement's number and its values, or a row's number.
#[derive(Drop)]
pub enum Call {
    Open(usize),
    Add(Vec<u8>),
    Ask(usize, Vec<i32>),
    Update(usize, Vec<i32>),
    Flush,
    Propose(usize, Vec<i32>),
    Commit,
    Withdraw,
    Show(usize),
    Sound,
    Nothing,
}

// How calls are made: by value; in place; in place on a state that is held to be sound.
#[derive(Clone, Copy)]
pub enum Way {
    ByValue,
    InPlace,
    Held,
}

// A call for the list, and how many values stand behind its number, also where it has no use for them; the way to call; the list emptied; so many calls made of it; the time;
// or anything else.
#[derive(Drop)]
pub enum Line {
    Call(Call, usize),
    Way(Way),
    Empty,
    Run(usize),
    Check(usize),
    Keep(usize),
    Time,
    Comment,
}

impl Line {
    // Reads a line, and of its values no more than `room`. Its number is the first token, whatever that is: 0 where it is none.
    pub fn read(alloc: Global, line: &[u8], room: usize) -> Result<Self, AllocError> {
        let [letter, text @ ..] = line else {
            return Ok(Line::Comment);
        };
        if *letter == b'A' {
            let statement = Vec::from_slice(alloc, text.get(1..).unwrap_or(&[]))?;
            return Ok(Line::Call(Call::Add(statement), 0));
        }
        let (n, values) = script::counted(alloc, text, room)?;
        let size = values.len();
        let call = match *letter {
            b'O' => Call::Open(n),
            b'Q' => Call::Ask(n, values),
            b'U' => Call::Update(n, values),
            b'F' => Call::Flush,
            b'P' => Call::Propose(n, values),
            b'M' => Call::Commit,
            b'B' => Call::Withdraw,
            b'W' => Call::Show(n),
            b'S' => Call::Sound,
            b'N' => Call::Nothing,
            other => return Ok(Line::without_call(other, n)),
        };
        Ok(Line::Call(call, size))
    }

    // A line that is no call.
    fn without_call(letter: u8, n: usize) -> Self {
        match letter {
            b'V' => Line::Way(Way::ByValue),
            b'I' => Line::Way(Way::InPlace),
            b'H' => Line::Way(Way::Held),
            b'L' => Line::Empty,
            b'R' => Line::Run(n),
            b'C' => Line::Check(n),
            b'K' => Line::Keep(n),
            b'T' => Line::Time,
            _ => Line::Comment,
        }
    }
}
