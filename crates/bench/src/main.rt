// A part on a bench: reads a form a line from the standard input, does it to the part, and prints what the part answers.
#![tactic(auto)]

use bench_script::{Form, Said, out_line, parse, said_line};
use flash::Flash;
use flash_kinds::{PageRecord, WordFlash};
use loader::Running;
use part::Identity;
use runs::{Event, do_event};
use std::alloc::{AllocError, Global};
use std::io;
use std::io::{BufRead, BufReader, Write};

// A buffer that suffices for every answer.
const ROOM: usize = 518;

// A part, and what is printed for the line at hand.
struct Bench<F: Flash> {
    heap: Global,
    part: Running<F>,
    text: Vec<u8>,
}

impl<F: Flash> Bench<F> {
    // Adds a line to what is printed.
    fn add(&mut self, line: Vec<u8>) -> Result<(), AllocError> {
        self.text.extend_from_slice(line.as_slice())?;
        self.text.push(b'\n')?;
        Ok(())
    }

    // Prints what is no answer's bytes.
    fn print(&mut self, said: Said) -> Result<(), AllocError> {
        let line = said_line(self.heap, said)?;
        self.add(line)
    }

    // Prints what an event was answered with.
    fn print_answer(&mut self, said: &runs::Said) -> Result<(), AllocError> {
        match said {
            runs::Said::Nothing | runs::Said::SmallBuffer | runs::Said::Silent => Ok(()),
            runs::Said::Accepted => self.print(Said::Taken),
            runs::Said::Resting => self.print(Said::Idle),
            runs::Said::Ongoing => self.print(Said::Going),
            runs::Said::Bytes(bytes) | runs::Said::BytesAndTicket(bytes) => {
                let line = out_line(self.heap, bytes.as_slice())?;
                self.add(line)
            }
            runs::Said::Fault(report) => self.print(Said::Fault { report: *report }),
        }
    }

    // Gives bytes to the part, one after the other.
    fn receive(&mut self, bytes: &[u8]) -> Result<(), AllocError> {
        for &byte in bytes {
            let row = do_event(self.heap, &mut self.part, Event::Byte { byte, room: ROOM })?;
            self.print_answer(&row.said)?;
        }
        Ok(())
    }

    // Calls work until there is an answer, at most so often, and prints the answer of the last call.
    fn work(&mut self, calls: u32) -> Result<(), AllocError> {
        for left in (0..calls).rev() {
            let row = do_event(self.heap, &mut self.part, Event::Work { room: ROOM })?;
            match row.said {
                runs::Said::Resting | runs::Said::Ongoing if left > 0 => {}
                said => return self.print_answer(&said),
            }
        }
        Ok(())
    }

    // Spends the ticket, if it is out, and prints whether it was.
    fn reset(&mut self) -> Result<(), AllocError> {
        if self.part.reset() {
            self.print(Said::Reset)
        } else {
            self.print(Said::NoTicket)
        }
    }

    // Does what a line asks for.
    fn respond(&mut self, line: &[u8]) -> Result<(), AllocError> {
        match parse(self.heap, line)? {
            Some(Form::In { bytes }) => self.receive(bytes.as_slice()),
            Some(Form::Work { calls }) => self.work(calls),
            Some(Form::Reset) => self.reset(),
            Some(Form::Fault) => {
                let report = self.part.fault();
                self.print(Said::Fault { report })
            }
            None => self.print(Said::BadLine),
        }
    }

    // Answers line after line.
    fn serve(&mut self, rt: HostRuntime) -> io::Result<()> {
        let mut out = rt.stdout();
        for line in BufReader::new(self.heap, rt.stdin())?.split(self.heap, b'\n') {
            self.respond(line?.as_slice())?;
            out.write_all(self.text.as_slice())?;
            self.text.clear();
        }
        Ok(())
    }
}

fn main(rt: HostRuntime) -> io::Result<()> {
    let mut words = [0xFFFF_FFFFu32; 2048];
    let mut records = [PageRecord {
        made: 0,
        allowed: 3,
    }; 16];
    let identity = Identity {
        uid: [0; 12],
        version: 0,
        device: 0,
        package: 0,
        sram: 0,
    };
    let flash = WordFlash::new(&mut words, &mut records, [0xAA, 0, 0, 0], 3);
    let mut bench = Bench {
        heap: rt.alloc(),
        part: Running::start(flash, identity),
        text: Vec::new(rt.alloc()),
    };
    let served = bench.serve(rt);
    let Bench {
        heap: _,
        part,
        text: _,
    } = bench;
    part.off().give_up();
    served
}
