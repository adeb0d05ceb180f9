// What says a number to the lines that are printed: a number itself, any of the 256, or a value that stands for one.
ghost use Rattle.std.specs.Prelude.{◌≡◌, ℕ};
ghost use Rattle.statement.specs.Refusals.{number_of as refusal_number};
ghost use Rattle.answer.specs.Refusal.{number_of as missing_number};
ghost use Rattle.cache.specs.Given.{kind_number, source_number};

use answer::NoRow;
use cache::{Kind, Source};
use table::Refusal;

// `number`: the papers' number of a refusal, of a kind, or of where an answer is from (0 where it is new).
pub trait Numbered {
    ghost number: { Self → ℕ };

    fn to_number(self) -> u8
        ensures { result ≡ number self };
}

impl Numbered for u8 {
    ghost number = { λ n. n };

    fn to_number(self) -> u8 {
        self // any of the 256
    }
}

impl Numbered for Refusal {
    ghost number = { refusal_number };

    fn to_number(self) -> u8 {
        self.number()
    }
}

impl Numbered for NoRow {
    ghost number = { missing_number };

    fn to_number(self) -> u8 {
        self.number()
    }
}

impl Numbered for Kind {
    ghost number = { kind_number };

    fn to_number(self) -> u8 {
        match self {
            Kind::Table => 1,
            Kind::Query => 2,
            Kind::Update => 3,
        }
    }
}

impl Numbered for Source {
    ghost number = { source_number };

    fn to_number(self) -> u8 {
        match self {
            Source::New => 0,
            Source::Cached => 1,
        }
    }
}
