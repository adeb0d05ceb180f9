// The stored scripts of data/, each given to a store of its own: what is printed for them is held to what an independent store printed (tests/store-scripts).
// Where a script is not there, that is printed; where it can't be read, or a write fails, that is passed over, and the next script follows.
#![tactic(auto)]

use std::{fs, str};

const SCRIPTS: u8 = 24;

// The two digits of a number below 100, and `.desk` behind them. (An array: this program uses no heap.)
fn path(n: u8) -> [u8; 7] {
    [
        b'0' + n / 10 % 10,
        b'0' + n % 10,
        b'.',
        b'd',
        b'e',
        b's',
        b'k',
    ]
}

fn replay(rt: &HostRuntime, n: u8) {
    let _ = println!(rt; "-- {n:02}");
    match fs::open(rt, str::from_utf8(&path(n)).unwrap_or("")) {
        Ok(mut script) => {
            let _ = serve::serve(&mut script, &mut rt.stdout());
        }
        Err(_) => {
            let _ = println!(rt; "missing");
        }
    }
}

fn main(rt: HostRuntime) {
    for n in 1..=SCRIPTS {
        replay(&rt, n);
    }
}
