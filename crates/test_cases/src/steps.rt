// The lines of a case.
use crate::book::{Book, Line};
use crate::devices::Push;
use crate::looks::{Look, look_at, look_of, shown};
use crate::node::{all_placed, bytes_of};
use crate::word::{Word, program_arguments};
use crate::world::World;
use repo_names::read_segment;
use std::alloc::{AllocError, Global};
use std::mem::replace;

#[derive(Clone, Copy)]
enum Verb {
    Put,
    Edit,
    Empty,
    At,
    Adds,
    May,
    Drops,
    Needs,
    Note,
    Config,
    Server,
    Cuts,
    Turn,
    Clock,
    Worker,
    Held,
    Fail,
    Run,
    Again,
    Well,
    Is,
    Settled,
    Mark,
}

const VERBS: &[(&str, Verb)] = &[
    ("put", Verb::Put),
    ("edit", Verb::Edit),
    ("empty", Verb::Empty),
    ("at", Verb::At),
    ("adds", Verb::Adds),
    ("may", Verb::May),
    ("drops", Verb::Drops),
    ("needs", Verb::Needs),
    ("note", Verb::Note),
    ("config", Verb::Config),
    ("server", Verb::Server),
    ("cuts", Verb::Cuts),
    ("turn", Verb::Turn),
    ("clock", Verb::Clock),
    ("worker", Verb::Worker),
    ("held", Verb::Held),
    ("fail", Verb::Fail),
    ("run", Verb::Run),
    ("again", Verb::Again),
    ("well", Verb::Well),
    ("is", Verb::Is),
    ("settled", Verb::Settled),
    ("left", Verb::Mark),
];

fn verb_of(word: &str) -> Option<Verb> {
    for (name, verb) in VERBS {
        if *name == word {
            return Some(*verb);
        }
    }
    None
}

/// The words of a line, with what its names represent.
pub(crate) fn arguments_in(
    book: &Book,
    alloc: Global,
    line: &Line,
) -> Result<Vec<Word>, AllocError> {
    program_arguments(alloc, &book.filled(&line.text)?)
}

/// Does what the line says.
pub(crate) fn step(book: &Book, world: &mut World, line: &Line) -> Result<(), AllocError> {
    let words = arguments_in(book, world.alloc, line)?;
    let known = book.filled(&line.known)?;
    match words.as_slice() {
        [unless, path, verb, rest @ ..] if unless.bare() == "unless" => {
            if world.has(path.bare()) {
                return Ok(());
            }
            act(book, world, verb.bare(), rest, &known)
        }
        [verb, rest @ ..] => act(book, world, verb.bare(), rest, &known),
        [] => Ok(()),
    }
}

fn act(
    book: &Book,
    world: &mut World,
    verb: &str,
    words: &[Word],
    known: &str,
) -> Result<(), AllocError> {
    let Some(verb) = verb_of(verb) else {
        return world.tell_of("no such line", verb);
    };
    match verb {
        Verb::Put => world.put(book, words, known),
        Verb::Edit => world.edit(book, words, known),
        Verb::Empty => world.empty(),
        Verb::At => world.written(words),
        Verb::Adds => world.adds(book, words, known),
        Verb::May => world.may(book, words, known),
        Verb::Drops => world.drops(words),
        Verb::Needs => world.needs(words),
        Verb::Note => world.note(book, words),
        Verb::Config | Verb::Server => world.give(book, verb, words, known),
        Verb::Cuts => world.cut(words),
        Verb::Turn => world.turn(book, words, known),
        Verb::Clock => world.tell_time(words),
        Verb::Worker => {
            world.around.worker = true;
            Ok(())
        }
        Verb::Held => world.hold(words),
        Verb::Fail => world.fail(words),
        Verb::Run => world.run(words, known),
        Verb::Again => world.again(),
        Verb::Well => world.verify(words, known),
        Verb::Is => world.is(book, words, known),
        Verb::Settled => world.settled(words),
        Verb::Mark => Ok(()),
    }
}

impl World {
    /// Notes what is wrong with a name.
    pub(crate) fn tell_of(&mut self, what: &str, name: &str) -> Result<(), AllocError> {
        let mut text = String::from_str(self.alloc, what)?;
        text.push_str(": ")?;
        text.push_str(name)?;
        self.tell(&text)
    }

    fn put(&mut self, book: &Book, words: &[Word], known: &str) -> Result<(), AllocError> {
        self.check()?;
        self.repo = None;
        self.spool = None;
        self.pg = None;
        self.adds(book, words, known)
    }

    // The data folder alone is made anew, the repository stays.
    fn edit(&mut self, book: &Book, words: &[Word], known: &str) -> Result<(), AllocError> {
        self.check()?;
        self.pg = None;
        self.adds(book, words, known)
    }

    // Nothing is in the data folder any more.
    fn empty(&mut self) -> Result<(), AllocError> {
        self.check()?;
        self.pg = None;
        self.wanted.retain(|path, _| !path.starts_with("pg/"));
        Ok(())
    }

    // These files were written at this second.
    fn written(&mut self, words: &[Word]) -> Result<(), AllocError> {
        let Some((second, paths)) = words.split_first() else {
            return Ok(());
        };
        for path in paths {
            let path = String::from_str(self.alloc, path.bare())?;
            self.times.insert(path, second.number())?;
        }
        Ok(())
    }

    // The next commands begin at this second.
    fn tell_time(&mut self, words: &[Word]) -> Result<(), AllocError> {
        self.around.seconds = Vec::new(self.alloc);
        for word in words {
            self.around.seconds.push(word.number())?;
        }
        Ok(())
    }

    fn adds(&mut self, book: &Book, words: &[Word], known: &str) -> Result<(), AllocError> {
        let all = all_placed(self.alloc, book, words, known)?;
        self.want(all)
    }

    fn may(&mut self, book: &Book, words: &[Word], known: &str) -> Result<(), AllocError> {
        let all = all_placed(self.alloc, book, words, known)?;
        self.allow(all)
    }

    fn drops(&mut self, words: &[Word]) -> Result<(), AllocError> {
        for word in words {
            if self.wanted.remove(word.bare()).is_none() {
                self.tell_of("not there", word.bare())?;
            }
        }
        Ok(())
    }

    // Where the first path is there, the others are.
    fn needs(&mut self, words: &[Word]) -> Result<(), AllocError> {
        let first = match words.first() {
            Some(word) => self.has(word.bare()),
            None => false,
        };
        if first && !words.iter().all(|word| self.has(word.bare())) {
            return self.tell("not all of these are there");
        }
        Ok(())
    }

    // Notes how many of these are there.
    fn note(&mut self, book: &Book, words: &[Word]) -> Result<(), AllocError> {
        let all = all_placed(self.alloc, book, words, "")?;
        let mut count = 0u64;
        for one in &all {
            if self.has(&one.path) {
                count = count.saturating_add(1);
            }
        }
        self.noted = count;
        Ok(())
    }

    fn give(
        &mut self,
        book: &Book,
        verb: Verb,
        words: &[Word],
        known: &str,
    ) -> Result<(), AllocError> {
        let bytes = bytes_of(self.alloc, book, words, known)?;
        match verb {
            Verb::Config => self.around.config = Some(bytes),
            _ => self.around.server = bytes,
        }
        Ok(())
    }

    fn cut(&mut self, words: &[Word]) -> Result<(), AllocError> {
        for word in words {
            self.around.cuts.push(word.number().min(4096) as u32)?;
        }
        Ok(())
    }

    // Other processes push this in their next step, or nothing.
    fn turn(&mut self, book: &Book, words: &[Word], known: &str) -> Result<(), AllocError> {
        let push = match words {
            [before, segment, rest @ ..] => {
                let bytes = bytes_of(self.alloc, book, rest, known)?;
                match (read_segment(&before.bytes), read_segment(&segment.bytes)) {
                    (Some(before), Some(segment)) => Some(Push {
                        before,
                        segment,
                        bytes,
                    }),
                    _ => return self.tell_of("no segment", segment.bare()),
                }
            }
            _ => None,
        };
        self.around.turns.push(push)?;
        Ok(())
    }

    fn hold(&mut self, words: &[Word]) -> Result<(), AllocError> {
        for word in words {
            self.around
                .held
                .push(String::from_str(self.alloc, word.bare())?)?;
        }
        Ok(())
    }

    fn fail(&mut self, words: &[Word]) -> Result<(), AllocError> {
        let Some((device, numbers)) = words.split_first() else {
            return Ok(());
        };
        for number in numbers {
            self.fail_at(device.bare(), number.number())?;
        }
        Ok(())
    }

    /// Runs the program with the arguments after the status.
    pub(crate) fn start(&mut self, words: &[Word]) -> Result<(), AllocError> {
        self.check()?;
        let mut asked = Vec::new(self.alloc);
        for word in words.iter().skip(1) {
            match str::from_utf8(&word.bytes) {
                Ok(text) => asked.push(String::from_str(self.alloc, text)?)?,
                Err(_) => self.tell("a word isn't UTF-8")?,
            }
        }
        self.go(asked)
    }

    // Runs the last command again: its answer is the same.
    fn again(&mut self) -> Result<(), AllocError> {
        self.check()?;
        let (status, known) = match &self.ran {
            Some(ran) => (ran.status, ran.out.text.to_vec(self.alloc)?),
            None => (0, Vec::new(self.alloc)),
        };
        let asked = replace(&mut self.asked, Vec::new(self.alloc));
        self.go(asked)?;
        match &self.ran {
            Some(ran) if ran.status == status && ran.out.text == known => Ok(()),
            _ => self.tell("again it answers otherwise"),
        }
    }

    fn run(&mut self, words: &[Word], known: &str) -> Result<(), AllocError> {
        self.start(words)?;
        self.verify(words, known)
    }

    // As much of a text as the output takes.
    fn fitting<'a>(&self, known: &'a str) -> &'a [u8] {
        let bytes = known.as_bytes();
        match self.around.width {
            Some(width) if width < bytes.len() => &bytes[..width],
            _ => bytes,
        }
    }

    /// Checks that the last command ended with this status and wrote this.
    pub(crate) fn verify(&mut self, words: &[Word], known: &str) -> Result<(), AllocError> {
        let want = match words.first() {
            Some(word) => word.number(),
            None => 0,
        };
        let Some(ran) = &self.ran else {
            return self.tell("nothing was run");
        };
        let mut text = String::new(self.alloc);
        if u64::from(ran.status) != want {
            write!(text, "status {} in place of {}", ran.status, want)?;
        } else if ran.out.text.as_slice() != self.fitting(known) {
            text.push_str("it wrote ")?;
            shown(&ran.out.text, &mut text)?;
        } else if !ran.locks.taken().is_empty() {
            text.push_str("a lock is held")?;
        }
        self.tell(&text)
    }

    // Checks what a device reports.
    fn is(&mut self, book: &Book, words: &[Word], known: &str) -> Result<(), AllocError> {
        let Some((what, rest)) = words.split_first() else {
            return Ok(());
        };
        let (Some(kind), Some(ran)) = (look_of(what.bare()), &self.ran) else {
            return self.tell_of("nothing to look at", what.bare());
        };
        let want = bytes_of(self.alloc, book, rest, known)?;
        let found = look_at(self.alloc, self, ran, kind)?;
        let well = match kind {
            Look::SentLast => found.ends_with(&want),
            _ => found == want,
        };
        if well {
            return Ok(());
        }
        let mut text = String::new(self.alloc);
        write!(text, "{} is ", what.bare())?;
        shown(&found, &mut text)?;
        self.tell(&text)
    }
}
