// The program's memory: the line that is heard, the words of its case and of its answer, and the answers that are not written yet.
ghost use Rattle.std.specs.Prelude.{◌≤◌};

use crate::calls;
use replay_words::{Answer, Tables, filled};

// The number of standard output.
const STDOUT: i32 = 1;

// The largest case has 8,192 words, 139,266 bytes; its line is kept with one byte more, so that a longer one is no case by its length. The largest answer
// has 16 words more and a newline, 139,539 bytes: two fit into what is written at once.
#[derive(Drop)]
pub(crate) struct Session {
    line: [u8; 139267],
    heard: usize,
    words: [u64; 8192],
    answer: Answer,
    out: [u8; 279078],
    pending: usize,
    ghost line_held: { heard ≤ 139267 },
    ghost out_held: { pending ≤ 279078 },
}

impl Session {
    pub(crate) fn new() -> Self {
        Session {
            line: filled(0),
            heard: 0,
            words: filled(0),
            answer: Answer::new(),
            out: filled(0),
            pending: 0,
        }
    }

    fn write_pending(&mut self) {
        io::write_all(STDOUT, &self.out[..self.pending]);
        self.pending = 0;
    }

    // Room for one more answer: what is pending is written where there is none.
    fn make_room(&mut self) {
        if self.pending >= 139539 {
            self.write_pending();
        }
    }

    fn put_no_case(&mut self) {
        self.pending = replay_words::print_no_case(&mut self.out, self.pending);
    }

    // The answer to the line, which is whole and without its newline.
    fn answer_line(&mut self, tables: &mut Tables) {
        let Some(line) = replay_words::parse(&self.line[..self.heard], &mut self.words) else {
            self.put_no_case();
            return;
        };
        match calls::answer(
            line.call,
            &self.words[..line.count],
            tables,
            &mut self.answer,
        ) {
            Some(()) => {
                self.pending = replay_words::print(
                    &mut self.out,
                    self.pending,
                    line.call,
                    self.answer.words(),
                );
            }
            None => self.put_no_case(),
        }
    }

    // One byte more: at a newline the line is answered, and the next begins.
    fn hear(&mut self, b: u8, tables: &mut Tables) {
        if b == 10 {
            self.make_room();
            self.answer_line(tables);
            self.heard = 0;
        } else if self.heard < 139267 {
            self.line[self.heard] = b;
            self.heard += 1;
        }
    }

    pub(crate) fn hear_all(&mut self, bytes: &[u8], tables: &mut Tables) {
        for b in bytes {
            self.hear(*b, tables);
        }
    }

    // What is pending at the end of the input. A line without its newline is no case.
    pub(crate) fn finish(&mut self) {
        self.make_room();
        if self.heard > 0 {
            self.put_no_case();
        }
        self.write_pending();
    }
}
