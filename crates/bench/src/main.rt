// Runs lists of calls on the store, as often as a script says, and prints what they gave in sum: the driver behind `bench/run`. A script is lines of standard input, and
// a line's first letter says what it is (`bench/README.md`). A call, for the list: `O slots` opens, `A text` adds, `Q n v ..` asks, `U n v ..` updates, `F` flushes,
// `P n v ..` proposes an update, `M` commits (makes it), `B` withdraws (takes it back), `W n` shows row n of the last answer, `S` tests the state, `N` does nothing. `L`
// empties the list. `R n` makes n calls, round the list, each on the state that the last one left; `K n` makes each of n calls on the state that was there before; `C n` is
// `R n` with a checksum of the answers. `T` prints the processor time used. `V` makes the calls that follow by value, `I` in place, `H` in place on a state that is held to be
// sound; each of the three is a store of its own, and the first is called before any such line. Other lines are comments. This program runs on a host and may use the heap.
#![tactic(auto)]

mod calls; // the three ways to call
mod counters; // what is counted
mod lines; // a line read
mod list; // the list of calls
mod store; // the calls, made and counted

use cache::{SealedState, State};
use calls::{ByValue, Calls};
use counters::Counters;
use lines::{Line, Way};
use list::List;
use script::Program;
use std::alloc::{AllocError, Global};
use std::io;
use std::io::Write;
use std::time::CpuClock;
use store::Store;

// The clock, a store for each way to call, the way that is taken, and the list.
#[derive(Drop)]
struct Bench<'a, R> {
    rt: &'a R,
    alloc: Global,
    by_value: Store<ByValue>,
    in_place: Store<State>,
    held: Store<SealedState>,
    way: Way,
    list: List,
}

impl<'a, R: CpuClock> Bench<'a, R> {
    fn new(rt: &'a R, alloc: Global) -> Result<Self, AllocError> {
        Ok(Bench {
            rt,
            alloc,
            by_value: Store::new(alloc)?,
            in_place: Store::new(alloc)?,
            held: Store::new(alloc)?,
            way: Way::ByValue,
            list: List::new(alloc),
        })
    }

    // The processor time used, in microseconds.
    fn micros(&self) -> u64 {
        let time = self.rt.process_cpu_time().unwrap_or_default();
        u64::try_from(time.as_micros()).unwrap_or(0)
    }

    // So many calls, round the list, each on the state that the last one left.
    fn run_calls(&mut self, turns: usize, counters: Counters) -> Counters {
        match self.way {
            Way::ByValue => self.by_value.run(self.list.calls(), turns, counters),
            Way::InPlace => self.in_place.run(self.list.calls(), turns, counters),
            Way::Held => self.held.run(self.list.calls(), turns, counters),
        }
    }

    // .. each on the state that is there now.
    fn keep(&mut self, turns: usize) -> Result<Counters, AllocError> {
        match self.way {
            Way::ByValue => self.by_value.keep(self.list.calls(), turns),
            Way::InPlace => self.in_place.keep(self.list.calls(), turns),
            Way::Held => self.held.keep(self.list.calls(), turns),
        }
    }

    // Prints what calls gave. An empty list makes none.
    fn print<W: Write>(&self, counters: Counters, out: &mut W) -> io::Result<()> {
        if self.list.calls().is_empty() {
            return Ok(());
        }
        writeln!(out, "{counters}")
    }
}

impl<R: CpuClock> Program for Bench<'_, R> {
    // As many as a store has of cache memory at most.
    const SCRIPT: usize = State::MEMORY;

    fn run<W: Write>(&mut self, line: &[u8], out: &mut W) -> io::Result<()> {
        match Line::read(self.alloc, line, self.list.room())? {
            Line::Call(call, values) => self.list.add(call, values)?,
            Line::Empty => self.list.clear(),
            Line::Time => writeln!(out, "time {}", self.micros())?,
            Line::Run(turns) => {
                let counters = self.run_calls(turns, Counters::default());
                self.print(counters, out)?;
            }
            Line::Check(turns) => {
                let counters = self.run_calls(turns, Counters::with_sum());
                self.print(counters, out)?;
            }
            Line::Keep(turns) => {
                let counters = self.keep(turns)?;
                self.print(counters, out)?;
            }
            Line::Way(way) => self.way = way,
            Line::Comment => {}
        }
        Ok(())
    }
}

fn main(rt: HostRuntime) -> io::Result<()> {
    script::run_script(&rt, &mut Bench::new(&rt, rt.alloc())?)
}
