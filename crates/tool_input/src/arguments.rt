// The words of a command line: which command they name, which of them is a file, and the name and the numbers among them.
//
// What is wrong with them goes to standard error, `err`.
ghost use Rattle.tool_input.specs.Counts.{IsPrefixLen};

use shelf::limits;
use std::env::FillError;
use std::io;
use std::rt::Env;
use std::str::FromStr;

// Which argument PAGE, WANTED, the name to find, or the number of what is named is, of a command that takes one.
pub const INPUT_PLACE: u8 = 2;

// Which one the name is, behind such a number.
pub const NAME_PLACE: u8 = INPUT_PLACE + 1;

// Which ones the size of a piece, the page code meant and PAGE are, of the command that takes all three.
pub const SIZE_PLACE: u8 = INPUT_PLACE;

pub const CODE_PLACE: u8 = SIZE_PLACE + 1;

pub const PAGE_PLACE: u8 = CODE_PLACE + 1;

// One byte more than the longest name.
pub const NAME_ROOM: usize = limits::MOST_TEXT as usize + 1;

#[derive(Clone, Copy)]
pub enum Page {
    Configuration,
    Status,
    Thresholds,
    Descriptors,
}

#[derive(Clone, Copy)]
pub enum Act {
    Control,
    Thresholds,
}

// Whose name is set.
#[derive(Clone, Copy)]
pub enum Named {
    Element,
    Overall,
}

#[derive(Clone, Copy)]
pub enum Command {
    Show,
    Check,
    Page(Page),
    Settings,
    Build,
    Apply(Act),
    Pieces,
    Read,
    Find,
    Set(Named),
}

// A word that names no command.
#[derive(Clone, Copy)]
pub struct UnknownCommand;

impl FromStr for Command {
    type Err = UnknownCommand;

    fn from_str(word: &str) -> Result<Command, UnknownCommand> {
        let command = match word {
            "show" => Command::Show,
            "check" => Command::Check,
            "configuration" => Command::Page(Page::Configuration),
            "status" => Command::Page(Page::Status),
            "thresholds" => Command::Page(Page::Thresholds),
            "descriptors" => Command::Page(Page::Descriptors),
            "settings" => Command::Settings,
            "build-control" => Command::Build,
            "apply-control" => Command::Apply(Act::Control),
            "apply-thresholds" => Command::Apply(Act::Thresholds),
            "apply-pieces" => Command::Pieces,
            "read-descriptors" => Command::Read,
            "find-name" => Command::Find,
            "set-name" => Command::Set(Named::Element),
            "set-overall-name" => Command::Set(Named::Overall),
            _ => return Err(UnknownCommand),
        };
        Ok(command)
    }
}

// The command that the first argument names, if there is one. A word that is too long for the buffer names none.
pub fn first_given(rt: &impl Env) -> Result<Option<Command>, UnknownCommand> {
    let mut word = [0u8; 20];
    match rt.arg(1, &mut word) {
        Ok(n) => Ok(Some(command_of(&word[..n])?)),
        Err(FillError::NotPresent) => Ok(None),
        Err(FillError::TooLong) => Err(UnknownCommand),
    }
}

fn command_of(word: &[u8]) -> Result<Command, UnknownCommand> {
    match str::from_utf8(word) {
        Ok(word) => word.parse(),
        Err(_) => Err(UnknownCommand),
    }
}

// How many arguments the program was started with, its own name among them.
pub fn count(rt: &impl Env) -> usize {
    (0..usize::MAX).take_while(|n| is_given(rt, *n)).count()
}

fn is_given(rt: &impl Env, place: usize) -> bool {
    let mut nothing = [0u8; 0];
    match rt.arg(place, &mut nothing) {
        Ok(_) | Err(FillError::TooLong) => true,
        Err(FillError::NotPresent) => false,
    }
}

// Which argument FILE is. The program is argument 0, its command argument 1.
pub fn file_place(command: Command) -> u8 {
    match command {
        Command::Show | Command::Check | Command::Page(_) | Command::Settings => 2,
        Command::Build | Command::Apply(_) | Command::Read | Command::Find => INPUT_PLACE + 1,
        Command::Set(_) => NAME_PLACE + 1,
        Command::Pieces => PAGE_PLACE + 1,
    }
}

// How many bytes of the name stand at the start of the buffer. A longer one than the longest fills it, and no element has or takes that
// either: what follows of it changes no answer.
pub fn name(rt: &impl Env, place: u8, buffer: &mut [u8]) -> usize
    ensures { IsPrefixLen result buffer.new }
{
    rt.arg(place as usize, buffer).unwrap_or(buffer.len())
}

// The number that decimal digits tell. More of them than the buffer has room for tell none.
pub fn number(rt: &impl Env, place: u8) -> Option<u32> {
    let mut digits = [0u8; 20];
    match rt.arg(place as usize, &mut digits) {
        Ok(n) => told_by(&digits[..n]),
        Err(_) => None,
    }
}

fn told_by(digits: &[u8]) -> Option<u32> {
    if digits.is_empty() {
        return None;
    }
    digits.iter().try_fold(0, |told, digit| match digit {
        b'0'..=b'9' => Some(with_digit(told, *digit - b'0')),
        _ => None,
    })
}

// The number with one more digit behind it. One that is past every element, code and page anyway stays as it is.
fn with_digit(told: u32, digit: u8) -> u32 {
    if told < 100_000_000 {
        10 * told + u32::from(digit)
    } else {
        told
    }
}

pub fn say_no_number(err: &impl Print, named: Named) -> io::Result<()> {
    match named {
        Named::Element => say_wrong(err, "ELEMENT is not a number of up to 20 digits"),
        Named::Overall => say_wrong(err, "TYPE is not a number of up to 20 digits"),
    }
}

pub fn say_wrong_number(err: &impl Print) -> io::Result<()> {
    say_wrong(err, "wrong number of arguments")
}

pub fn say_wrong(err: &impl Print, what: &str) -> io::Result<()> {
    err.println(what)?;
    say_usage(err)
}

const USAGE: &str =
    "usage: shelfctl [show FILE | check FILE | configuration [FILE] | status [FILE] | thresholds [FILE] |
                 descriptors [FILE] | settings [FILE] | build-control WANTED [FILE] |
                 apply-control PAGE [FILE] | apply-thresholds PAGE [FILE] | apply-pieces SIZE CODE PAGE [FILE] |
                 read-descriptors PAGE [FILE] | find-name NAME [FILE] | set-name ELEMENT NAME [FILE] |
                 set-overall-name TYPE NAME [FILE]]";

pub fn say_usage(err: &impl Print) -> io::Result<()> {
    err.println(USAGE)
}
