// The tokens of a statement text.
#![tactic(auto)]

ghost use Rattle.std.specs.Prelude.{◌≡◌, ℕ, Bool, true, false, ◌+◌, ◌-◌, ◌*◌, ◌≤◌, ◌<◌, min, pos, neg_ℤ, length, get_or, drop};
ghost use Rattle.lists.specs.Lists.{all, take_while};
ghost use Rattle.meaning.specs.Tokens.{is_word_byte, folded_byte, decimal, constant as constant_token, word as word_token, negative};
ghost use Rattle.token.specs.Tokens.{kind_of, token_at};
ghost use Rattle.token.specs.Private.Parts.{signed, is_number, name_of, keyword_or_name_of, sign_of, read_at};

// What a token is.
#[derive(Clone, Copy, PartialEq, Eq)]
pub enum Kind {
    // No token is left.
    End,
    // It belongs to no sentence.
    Other,
    // The name's bytes, in either case, stand from `start` up to `next`.
    Name,
    // A constant within 32 bits, and one outside.
    Constant(i32),
    Big,
    // ? , ( ) and, of a dotted column, .
    Mark,
    Comma,
    Open,
    Close,
    Dot,
    // The operators: = <> < <= > >=
    Eq,
    Ne,
    Lt,
    Le,
    Gt,
    Ge,
    // The keywords.
    Table,
    Rows,
    Select,
    From,
    Where,
    Insert,
    Into,
    Values,
    Update,
    Set,
    Delete,
    And,
    Or,
    Not,
    // Keywords of later requests.
    Ring,
    Is,
    Null,
}

// A token: its kind, where it starts, and where the text goes on after it.
#[derive(Clone, Copy)]
pub struct Token {
    pub kind: Kind,
    pub start: usize,
    pub next: usize,
}

// ---- bytes

fn is_word_byte(b: u8) -> bool
    ensures { result ≡ is_word_byte b }
{
    b.is_ascii_alphanumeric() || b == b'_'
}

// A capital letter as a small one, and any other byte as it is: names are the same in either case.
pub fn folded(b: u8) -> u8
    ensures { result ≡ folded_byte b }
{
    b.to_ascii_lowercase()
}

// The end of the run of bytes that pass, from `at` on.
fn run_end<F: Fn(u8) -> bool>(text: &[u8], at: usize, passes: F) -> usize
    ghost test: { ℕ → Bool }
    requires inside { at ≤ length text.now }
    requires callable { F.IsAlwaysCallable passes }
    requires told { (b : ℕ) (r : Bool) → F.post passes b r → r ≡ test b }
    ensures { (result ≡ at + length (take_while test (drop at text.now))) × (result ≤ length text.now) }
{
    let rest = &text[at..];
    at + rest.iter().position(|b| !passes(*b)).unwrap_or(rest.len())
}

// ---- constants

// The value of digits, or 4294967295 where it is larger.
fn digits(text: &[u8]) -> u32
    ensures { result ≡ min (decimal text.now) 4294967295 }
{
    text.iter().fold(
        0,
        |n: u32, b| n
            .saturating_mul(10)
            .saturating_add(u32::from(b.saturating_sub(b'0'))),
    )
}

// The constant with a minus or none before digits of the value n. The least that is taken is -2147483648.
fn constant(minus: bool, n: u32) -> Kind
    ensures { result ≡ kind_of (constant_token (signed minus n)) }
{
    let value = if minus { -i64::from(n) } else { i64::from(n) };
    match i32::try_from(value) {
        Ok(value) => Kind::Constant(value),
        Err(_) => Kind::Big,
    }
}

// ---- words

// A word: one byte or more, all of them letters, digits or underscores.
#[derive(Clone, Copy)]
struct Word<'a> {
    bytes: &'a [u8],
    ghost some: { 0 < length bytes.now },
    ghost of_word: { all is_word_byte bytes.now ≡ true },
}

impl Word<'_> {
    // A name, if the word begins with a letter.
    fn name(&self) -> Kind
        ensures { result ≡ kind_of (name_of self.now.bytes.now) }
    {
        if self.bytes[0].is_ascii_alphabetic() {
            Kind::Name
        } else {
            Kind::Other
        }
    }

    // What a word is that is not of digits: a keyword, or a name.
    fn keyword_or_name(&self) -> Kind
        ensures { result ≡ kind_of (keyword_or_name_of self.now.bytes.now) }
    {
        let otherwise = self.name();
        match self.bytes {
            b"TABLE" => Kind::Table,
            b"ROWS" => Kind::Rows,
            b"SELECT" => Kind::Select,
            b"FROM" => Kind::From,
            b"WHERE" => Kind::Where,
            b"INSERT" => Kind::Insert,
            b"INTO" => Kind::Into,
            b"VALUES" => Kind::Values,
            b"UPDATE" => Kind::Update,
            b"SET" => Kind::Set,
            b"DELETE" => Kind::Delete,
            b"AND" => Kind::And,
            b"OR" => Kind::Or,
            b"NOT" => Kind::Not,
            b"RING" => Kind::Ring,
            b"IS" => Kind::Is,
            b"NULL" => Kind::Null,
            _ => otherwise,
        }
    }

    // A constant, a keyword, a name, or nothing.
    fn kind(&self) -> Kind
        ensures { result ≡ kind_of (word_token self.now.bytes.now) }
    {
        if is_number(self.bytes) {
            constant(false, digits(self.bytes))
        } else {
            self.keyword_or_name()
        }
    }
}

// Whether a word is digits, one or more.
fn is_number(word: &[u8]) -> bool
    ensures { result ≡ is_number word.now }
{
    !word.is_empty() && word.iter().all(|b| b.is_ascii_digit())
}

// The word right after a minus.
fn negative(word: &[u8]) -> Kind
    ensures { result ≡ kind_of (negative word.now) }
{
    if is_number(word) {
        constant(true, digits(word))
    } else {
        Kind::Other
    }
}

// ---- signs

// The sign at the front, the longest that fits, and its length.
fn sign(text: &[u8]) -> (Kind, usize)
    requires { 0 < length text.now }
    ensures { result ≡ sign_of (get_or text.now 0 0) (get_or text.now 1 0) }
{
    match text {
        [b'<', b'>', ..] => (Kind::Ne, 2),
        [b'<', b'=', ..] => (Kind::Le, 2),
        [b'>', b'=', ..] => (Kind::Ge, 2),
        [b'=', ..] => (Kind::Eq, 1),
        [b'<', ..] => (Kind::Lt, 1),
        [b'>', ..] => (Kind::Gt, 1),
        [b'?', ..] => (Kind::Mark, 1),
        [b',', ..] => (Kind::Comma, 1),
        [b'(', ..] => (Kind::Open, 1),
        [b')', ..] => (Kind::Close, 1),
        [b'.', ..] => (Kind::Dot, 1),
        _ => (Kind::Other, 1),
    }
}

// ---- the first token

// The first token from `at` on.
pub fn next(text: &[u8], at: usize) -> Token
    ensures { result ≡ token_at text.now at }
{
    let len = text.len();
    let start = run_end(text, at.min(len), |b| b == b' ');
    if start == len {
        return Token {
            kind: Kind::End,
            start: len,
            next: len,
        };
    }
    token_here(text, start)
}

// The token at a byte that is no space.
fn token_here(text: &[u8], start: usize) -> Token
    requires { start < length text.now }
    ensures { result ≡ read_at text.now start }
{
    let b = text[start];
    if is_word_byte(b) {
        let next = run_end(text, start, is_word_byte);
        return Token {
            kind: Word {
                bytes: &text[start..next],
            }
            .kind(),
            start,
            next,
        };
    }
    if b == b'-' {
        let next = run_end(text, start + 1, is_word_byte);
        return Token {
            kind: negative(&text[start + 1..next]),
            start,
            next,
        };
    }
    let (kind, size) = sign(&text[start..]);
    Token {
        kind,
        start,
        next: start + size,
    }
}
