// The program: "reads a ticket on standard input", checks it and prints its lines.
#![tactic(auto)]

ghost use Rattle.std.specs.Prelude.{◌≤◌, length, IfOk};

use limits::{REPORT_BYTES, TICKET_BYTES};
use std::io;
use std::io::{Read, Write};

// Reads until the buffer is full or the input ends: how many bytes. The loop counts what each read gave, so no range stands for it.
fn read_input<R: Read>(input: &mut R, buf: &mut [u8]) -> io::Result<usize>
    ensures { IfOk result (λ n. n ≤ length buf.old) }
{
    let mut done = 0;
    while done < buf.len() {
        match input.read(&mut buf[done..])? {
            0 => break,
            more => done += more,
        }
    }
    Ok(done)
}

fn main(rt: HostRuntime) -> io::Result<()> {
    // One byte more than a ticket may have, so that a longer one is seen to be too long.
    let mut ticket = [0u8; TICKET_BYTES + 1];
    match read_input(&mut rt.stdin(), &mut ticket) {
        Ok(n) => {
            let mut out = [0u8; REPORT_BYTES];
            let k = lines::report(&ticket[..n], &mut out);
            rt.stdout().write_all(&out[..k])
        }
        // No verdict: what was read need not be the whole ticket.
        Err(_) => eprintln!(rt; "nuldwich-verdict: standard input cannot be read"),
    }
}
