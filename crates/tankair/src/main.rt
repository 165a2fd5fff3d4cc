// Reads a recording from standard input and writes its report (01, part 8): little-endian f32 pairs, at most 16,384
// bytes, fs 3,000, hint 0.
#![tactic(auto)]

use std::io;
use std::io::Write;

fn main(rt: HostRuntime) -> io::Result<()> {
    let mut bytes = [0u8; format::INPUT];
    let came = format::read_recording(&mut rt.stdin(), &mut bytes, format::INPUT);
    let mut out = [0u8; report::ROOM];
    let length = report::report_read(&bytes, came, &mut out);
    rt.stdout().write_all(&out[..length])
}
