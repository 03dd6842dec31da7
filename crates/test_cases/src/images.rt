// What crashes leave of the repository.
use crate::book::{Book, Section};
use crate::case::{Part, lines_of};
use crate::case_loop::{begin, play_part, trial_of};
use crate::steps::arguments_in;
use crate::word::Word;
use crate::world::World;
use memory_devices::MemDisk;
use std::alloc::{AllocError, Global};

/// Which of all that a crash may leave: the first value that each name keeps, the last, or that and other bytes at each
/// unsynced name.
#[derive(Clone, Copy)]
enum Image {
    First,
    Last,
    Torn,
}

const IMAGES: &[Image] = &[Image::First, Image::Last, Image::Torn];

/// What is wrong where the command is stopped at each of its moments, or at a quarter, a half and three quarters of
/// them.
pub(crate) fn play_stops(
    alloc: Global,
    book: &Book,
    case: &Section,
    quarters: bool,
) -> Result<String, AllocError> {
    let mut world = World::new(alloc);
    stops_in(book, &mut world, case, quarters)
}

fn stops_in(
    book: &Book,
    world: &mut World,
    case: &Section,
    quarters: bool,
) -> Result<String, AllocError> {
    try_once(book, world, case)?;
    let wrong = match &world.repo {
        Some(repo) => stops_of(world.alloc, book, case, repo, quarters)?,
        None => String::new(world.alloc),
    };
    if wrong.is_empty() {
        return Ok(world.take_wrong());
    }
    Ok(wrong)
}

fn try_once(book: &Book, world: &mut World, case: &Section) -> Result<(), AllocError> {
    begin(book, world, case)?;
    let trial = trial_of(world.alloc, book, case)?;
    world.start(&trial.words)?;
    world.verify(&trial.words, &trial.known)
}

// What is wrong first, at these moments of what the command did to the repository.
fn stops_of(
    alloc: Global,
    book: &Book,
    case: &Section,
    repo: &MemDisk,
    quarters: bool,
) -> Result<String, AllocError> {
    for moment in moments(alloc, repo.moment(), quarters)? {
        let wrong = play_images(alloc, book, case, repo, moment)?;
        if !wrong.is_empty() {
            return format!(in alloc; "stopped at {moment}: {wrong}");
        }
    }
    Ok(String::new(alloc))
}

fn moments(alloc: Global, last: u64, quarters: bool) -> Result<Vec<u64>, AllocError> {
    let mut all = Vec::new(alloc);
    if quarters {
        all.push(last / 4)?;
        all.push(last / 2)?;
        all.push(last / 4 * 3)?;
        return Ok(all);
    }
    for moment in 0..=last {
        all.push(moment)?;
    }
    Ok(all)
}

/// What is wrong where the program continues with what a crash at that moment leaves.
pub(crate) fn play_images(
    alloc: Global,
    book: &Book,
    case: &Section,
    repo: &MemDisk,
    moment: u64,
) -> Result<String, AllocError> {
    let lines = lines_of(alloc, case, Part::Left)?;
    let Some(first) = lines.first() else {
        return Ok(String::new(alloc));
    };
    let names = arguments_in(book, alloc, first)?;
    for image in IMAGES {
        let left = left_of(alloc, repo, moment, *image, &names)?;
        let wrong = play_image(alloc, book, case, left)?;
        if !wrong.is_empty() {
            return Ok(wrong);
        }
    }
    Ok(String::new(alloc))
}

// What is wrong where the program continues with that repository; nothing where there is none.
fn play_image(
    alloc: Global,
    book: &Book,
    case: &Section,
    left: Option<MemDisk>,
) -> Result<String, AllocError> {
    if left.is_none() {
        return Ok(String::new(alloc));
    }
    let mut world = World::new(alloc);
    image_in(book, &mut world, case, left)
}

fn image_in(
    book: &Book,
    world: &mut World,
    case: &Section,
    left: Option<MemDisk>,
) -> Result<String, AllocError> {
    begin(book, world, case)?;
    world.repo = left;
    go_on(book, world, case)
}

fn go_on(book: &Book, world: &mut World, case: &Section) -> Result<String, AllocError> {
    world.make()?;
    world.open = true;
    play_part(book, world, case, Part::Left)?;
    world.check()?;
    Ok(world.take_wrong())
}

// A new disk that holds what a crash at the moment leaves; none where no name is unsynced and other bytes are asked
// for.
fn left_of(
    alloc: Global,
    repo: &MemDisk,
    moment: u64,
    image: Image,
    names: &[Word],
) -> Result<Option<MemDisk>, AllocError> {
    let mut choice = Vec::new(alloc);
    let mut torn = Vec::new(alloc);
    match image {
        Image::First => add_first(alloc, names, &mut choice)?,
        Image::Last => {}
        Image::Torn => {
            add_torn(alloc, repo, moment, &mut torn)?;
            if torn.is_empty() {
                return Ok(None);
            }
        }
    }
    match repo.image(alloc, moment, &choice, &torn) {
        Ok(names) => Ok(Some(MemDisk::new(alloc, names, Vec::new(alloc))?)),
        Err(_) => Ok(None),
    }
}

fn add_first(
    alloc: Global,
    names: &[Word],
    choice: &mut Vec<(String, u32)>,
) -> Result<(), AllocError> {
    for word in names {
        if let Some(name) = word.bare().strip_prefix("repo/") {
            choice.push((String::from_str(alloc, name)?, 0))?;
        }
    }
    Ok(())
}

fn add_torn(
    alloc: Global,
    repo: &MemDisk,
    moment: u64,
    torn: &mut Vec<(String, Vec<u8>)>,
) -> Result<(), AllocError> {
    for name in repo.unsynced(alloc, moment)? {
        torn.push((name, b"torn".to_vec(alloc)?))?;
    }
    Ok(())
}

impl World {
    /// Checks that a crash can leave nothing but what the repository holds: at no name any bytes, and one value at each
    /// of these.
    pub(crate) fn settled(&mut self, words: &[Word]) -> Result<(), AllocError> {
        let mut wrong = String::new(self.alloc);
        if let Some(repo) = &self.repo {
            if !repo.unsynced(self.alloc, repo.moment())?.is_empty() {
                wrong.push_str("a name is loose")?;
            }
            for word in words {
                let name = word.bare().strip_prefix("repo/").unwrap_or("");
                if !is_settled(self.alloc, repo, name)? {
                    write!(wrong, "{name} isn't settled")?;
                }
            }
        }
        self.tell(&wrong)
    }
}

// Whether a crash leaves what the name holds.
fn is_settled(alloc: Global, repo: &MemDisk, name: &str) -> Result<bool, AllocError> {
    let kept = repo.kept(alloc, repo.moment(), name)?;
    match kept.as_slice() {
        [Some(bytes)] => Ok(repo.bytes(name) == Some(bytes.as_slice())),
        [None] => Ok(repo.bytes(name).is_none()),
        _ => Ok(false),
    }
}
