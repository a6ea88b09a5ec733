// frame: DF1 frames for the laptop. `frame write` takes data on standard input and writes their frame to standard output, `frame read` takes a frame and writes its data.
// The room is fixed, as there is no heap; the argument, what is read and what is made are slices of it.
#![tactic(auto)]

use df1::{Direction, LONGEST_FRAME};
use streams::{arg, is_given, read_full};

fn usage(rt: &impl Eprint) {
    let _ = eprintln!(rt; "usage: frame write | frame read");
}

// Standard input through the writer or the reader; the line `refused n` for a call that was. One byte more than the longest frame tells a longer one, and longer data too.
fn run(rt: &(impl Input + Print + Eprint), direction: Direction) {
    let mut input = [0u8; LONGEST_FRAME + 1];
    let mut out = [0u8; LONGEST_FRAME];
    let got = read_full(&mut rt.reader(), &mut input);
    match direction.call(&input[..got], &mut out) {
        Ok(n) => {
            let _ = rt.write_all(&out[..n]);
        }
        Err(why) => {
            let _ = eprintln!(rt; "refused {}", u16::from(why));
        }
    }
}

fn main(rt: HostRuntime) {
    let mut word = [0u8; 5];
    if is_given(&rt, 2) {
        usage(&rt);
        return;
    }
    match arg(&rt, 1, &mut word) {
        Some(b"write") => run(&rt, Direction::Write),
        Some(b"read") => run(&rt, Direction::Read),
        _ => usage(&rt),
    }
}
