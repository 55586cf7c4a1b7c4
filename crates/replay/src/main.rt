// Reads cases from standard input, a line each, and writes their answers to standard output.
#![tactic(auto)]

mod angles;
mod calls;
mod desks;
mod forces;
mod session;
mod velocities;

use replay_words::Tables;
use session::Session;
use std::io::{Read, Stdin};

// As many bytes as are there; none at the end of the input, and where it cannot be read.
fn read_some<'a>(from: &mut Stdin, chunk: &'a mut [u8]) -> &'a [u8] {
    match from.read(chunk) {
        Ok(n) => &chunk[..n],
        Err(_) => &[],
    }
}

// A proved loop has to end, and nothing says that the input does: the turns are as many as no run uses up.
fn serve(from: &mut Stdin, chunk: &mut [u8], tables: &mut Tables, session: &mut Session) {
    for _ in 0..u64::MAX {
        let bytes = read_some(from, chunk);
        if bytes.is_empty() {
            break;
        }
        session.hear_all(bytes, tables);
    }
    session.finish();
}

fn main(rt: HostRuntime) {
    let mut from = rt.stdin();
    let mut chunk: [u8; 65536] = replay_words::filled(0);
    let mut tables = Tables::new();
    let mut session = Session::new();
    serve(&mut from, &mut chunk, &mut tables, &mut session);
}
