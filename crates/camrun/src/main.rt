// camrun: the report of a trace, from standard input to standard output.
#![tactic(auto)]

ghost use Rattle.std.specs.Prelude.{◌≡◌, ◌+◌, length};
ghost use Rattle.trace.specs.Sizes.{largest_trace, largest_report};

use streams::read_full;

// Room for the largest whole trace and one byte more, which tells a longer input. A const parameter couldn't say that the size is the theorem's.
fn trace_space() -> [u8; trace::LARGEST_TRACE + 1]
    ensures { largest_trace + 1 ≡ length result }
{
    [0; trace::LARGEST_TRACE + 1]
}

// Room for the longest report.
fn report_space() -> [u8; trace::LARGEST_REPORT]
    ensures { largest_report ≡ length result }
{
    [0; trace::LARGEST_REPORT]
}

// The room is fixed, as there is no heap; what is read and what is written are slices of it.
fn main(rt: HostRuntime) {
    let mut input = trace_space();
    let mut out = report_space();
    let got = read_full(&mut rt.reader(), &mut input);
    let n = trace::report(&input[..got], &mut out);
    let _ = rt.write_all(&out[..n]);
}
