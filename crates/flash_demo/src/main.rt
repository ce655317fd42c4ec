// One run over any flash, printed for a word flash and for a pair flash: the two texts are the same.
#![tactic(auto)]

use flash::{Flash, FlashFault, erase_range};
use flash_kinds::{PageRecord, PairFlash, WordFlash, laws_hold};
use std::io;

const NEW: PageRecord = PageRecord {
    made: 0,
    allowed: 2,
};

const HALF_WORN: PageRecord = PageRecord {
    made: 3,
    allowed: 5,
};

fn main(rt: HostRuntime) -> io::Result<()> {
    laws_hold();
    let mut words = [0xFFFF_FFFFu32; 1024];
    let mut records = [NEW; 8];
    println!(rt; "word flash")?;
    run(
        &rt,
        &mut WordFlash::new(&mut words, &mut records, [0xAA, 0, 0, 0], 1),
    )?;
    let mut low = [0xFFFFu16; 1024];
    let mut high = [0xFFFFu16; 1024];
    let mut low_records = [HALF_WORN; 8];
    let mut high_records = [PageRecord {
        made: 0,
        allowed: 9,
    }; 8];
    println!(rt; "pair flash")?;
    run(
        &rt,
        &mut PairFlash::new(
            &mut low,
            &mut high,
            &mut low_records,
            &mut high_records,
            [0xAA, 0, 0, 0],
            1,
        ),
    )
}

// Does with a flash what a demonstration shows, one thing after another.
fn run(rt: &impl Print, flash: &mut impl Flash) -> io::Result<()> {
    println!(rt; "pages: {}", flash.pages())?;
    let mut demo = Demo { rt, flash };
    demo.first_words()?;
    demo.wear()?;
    demo.ranges()?;
    demo.options()
}

// A flash, and where to print what it answers.
#[derive(Drop)]
struct Demo<'a, P, F> {
    rt: &'a P,
    flash: &'a mut F,
}

impl<P: Print, F: Flash> Demo<'_, P, F> {
    // Words are written once, and read back.
    fn first_words(&mut self) -> io::Result<()> {
        self.show_word(0)?;
        self.program(0, 0x1122_3344)?;
        self.show_word(0)?;
        self.program(0, 0x1122_3344)?;
        self.program(0, 0)?;
        self.show_word(0)?;
        self.program(1023, 0)?;
        self.show_word(1023)?;
        self.program(1024, 0)?;
        self.show_word(1024)
    }

    // A page is erased until it is worn.
    fn wear(&mut self) -> io::Result<()> {
        self.show_left(0)?;
        self.erase(0)?;
        self.show_word(0)?;
        self.show_word(1023)?;
        self.show_left(0)?;
        self.program(0, 5)?;
        self.erase(0)?;
        self.show_left(0)?;
        self.program(0, 6)?;
        self.erase(0)?;
        self.show_word(0)?;
        self.erase(8)?;
        self.show_left(8)
    }

    // Ranges of pages: one that is served, one that passes the end, one that meets a worn page, an empty one.
    fn ranges(&mut self) -> io::Result<()> {
        self.erase_range(5, 3)?;
        self.erase_range(6, 3)?;
        self.erase_range(4, 4)?;
        self.erase_range(9, 0)?;
        self.show_word(1023)
    }

    // The option writes are used up.
    fn options(&mut self) -> io::Result<()> {
        self.show_option(0)?;
        self.write_options([1, 2, 3, 0xFFFF_FFFF])?;
        self.show_option(0)?;
        self.show_option(3)?;
        self.show_option(4)?;
        self.write_options([0xAA, 0, 0, 0])?;
        self.show_option(0)
    }

    fn program(&mut self, i: u32, value: u32) -> io::Result<()> {
        print!(self.rt; "program word {i} with {value:08X}: ")?;
        let answer = self.flash.program(i, value);
        self.show_done(answer)
    }

    fn erase(&mut self, page: u32) -> io::Result<()> {
        print!(self.rt; "erase page {page}: ")?;
        let answer = self.flash.erase(page);
        self.show_done(answer)
    }

    fn erase_range(&mut self, first: u32, count: u32) -> io::Result<()> {
        let erased = erase_range(self.flash, first, count);
        print!(self.rt;
            "erase {count} pages from {first}: {} erased, ",
            erased.done
        )?;
        match erased.refused {
            Some(fault) => println!(self.rt; "refused, {fault}"),
            None => println!(self.rt; "none refused"),
        }
    }

    fn write_options(&mut self, words: [u32; 4]) -> io::Result<()> {
        println!(self.rt; "option writes left: {}", self.flash.option_writes_left())?;
        print!(self.rt; "write the option words: ")?;
        let answer = self.flash.write_options(words);
        self.show_done(answer)
    }

    fn show_word(&self, i: u32) -> io::Result<()> {
        print!(self.rt; "word {i}: ")?;
        self.show(self.flash.word(i), |word| println!(self.rt; "{word:08X}"))
    }

    fn show_option(&self, i: u32) -> io::Result<()> {
        print!(self.rt; "option word {i}: ")?;
        self.show(
            self.flash.option_word(i),
            |word| println!(self.rt; "{word:08X}"),
        )
    }

    fn show_left(&self, page: u32) -> io::Result<()> {
        print!(self.rt; "erases left of page {page}: ")?;
        self.show(
            self.flash.erases_left(page),
            |left| println!(self.rt; "{left}"),
        )
    }

    fn show_done(&self, answer: Result<(), FlashFault>) -> io::Result<()> {
        self.show(answer, |()| println!(self.rt; "done"))
    }

    // Prints what was answered, in its own way, or why the flash refused.
    fn show<T: Drop, S: FnOnce(T) -> io::Result<()>>(
        &self,
        answer: Result<T, FlashFault>,
        print: S,
    ) -> io::Result<()>
        requires { S.IsAlwaysCallable print }
    {
        match answer {
            Ok(value) => print(value),
            Err(fault) => println!(self.rt; "refused, {fault}"),
        }
    }
}
