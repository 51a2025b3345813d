// Shows what a shelf block holds, writes its pages, builds, applies or reads a page for it, finds or sets a name in it, or says why it
// cannot: a built-in block, or one that is read from a file. It writes no file.
//
// Every answer goes to standard output, a refusal too. What keeps a file from being read goes to standard error.
#![tactic(auto)]

mod answer;
mod applying;
mod building;
mod full_speed;
mod naming;
mod pages;
mod pieces;

use std::io;
use std::rt::{Env, Files};
use tool_input::arguments::{Act, Command};
use tool_input::{arguments, files};
use tool_shelf::{builtin, settings};

fn main(rt: HostRuntime) -> io::Result<()> {
    let err = rt.stderr();
    match arguments::first_given(&rt) {
        Ok(None) => show_builtin(&rt),
        Ok(Some(command)) => run(&rt, &err, command),
        Err(_) => arguments::say_wrong(&err, "unknown command"),
    }
}

fn show_builtin(rt: &impl Print) -> io::Result<()> {
    let shelf = builtin::shelf();
    tell_contents(rt, &shelf)?;
    pages::tell_all(rt, &shelf)?;
    full_speed::show(rt)
}

fn run<R: Env + Files + Print>(rt: &R, err: &impl Print, command: Command) -> io::Result<()> {
    let place = arguments::file_place(command);
    let given = arguments::count(rt);
    if given == place as usize {
        without_file(rt, err, command)
    } else if given == place as usize + 1 {
        on_named_file(rt, err, command, place)
    } else {
        arguments::say_wrong_number(err)
    }
}

fn without_file<R: Env + Files + Print>(
    rt: &R,
    err: &impl Print,
    command: Command,
) -> io::Result<()> {
    match command {
        Command::Show | Command::Check => arguments::say_wrong_number(err),
        Command::Page(_)
        | Command::Settings
        | Command::Build
        | Command::Apply(_)
        | Command::Pieces
        | Command::Read
        | Command::Find
        | Command::Set(_) => {
            let mut shelf = builtin::shelf();
            tell(rt, err, command, &mut shelf)
        }
    }
}

fn on_named_file<R: Env + Files + Print>(
    rt: &R,
    err: &impl Print,
    command: Command,
    place: u8,
) -> io::Result<()> {
    let mut block = [0u8; files::BLOCK_ROOM];
    with_file(rt, err, place, "FILE", &mut block, |shelf| {
        tell(rt, err, command, shelf)
    })
}

// Acts on what the file has that an argument names, if it could be read.
fn with_file<R: Env + Files, F: FnOnce(&mut [u8]) -> io::Result<()>>(
    rt: &R,
    err: &impl Print,
    argument: u8,
    name: &str,
    buffer: &mut [u8],
    act: F,
) -> io::Result<()>
    requires { F.IsAlwaysCallable act }
{
    match files::load(rt, err, argument, name, buffer)? {
        Some(n) => act(&mut buffer[..n]),
        None => Ok(()),
    }
}

fn tell<R: Env + Files + Print>(
    rt: &R,
    err: &impl Print,
    command: Command,
    shelf: &mut [u8],
) -> io::Result<()> {
    match command {
        Command::Show => tell_contents(rt, shelf),
        Command::Check => {
            tell_checked(rt, shelf)?;
            Ok(())
        }
        Command::Page(page) => pages::tell(rt, None, page, shelf),
        Command::Settings => tell_settings(rt, shelf),
        Command::Build => build(rt, err, shelf),
        Command::Apply(act) => apply(rt, err, act, shelf),
        Command::Pieces => pieces::tell(rt, err, shelf),
        Command::Read => read(rt, err, shelf),
        Command::Find => naming::tell_found(rt, shelf),
        Command::Set(named) => naming::tell_set(rt, err, named, shelf),
    }
}

fn tell_contents(rt: &impl Print, shelf: &[u8]) -> io::Result<()> {
    if tell_checked(rt, shelf)? {
        tool_show::contents(rt, shelf)?;
    }
    Ok(())
}

// Answers whether the block is a shelf, after saying so.
fn tell_checked(rt: &impl Print, shelf: &[u8]) -> io::Result<bool> {
    let answer = ses::check(shelf);
    answer::tell(rt, answer, "shelf: well formed\n")
}

// In the form of a wanted list, or the refusal.
fn tell_settings(rt: &impl Print, shelf: &[u8]) -> io::Result<()> {
    let answer = ses::check(shelf);
    if answer::tell(rt, answer, "")? {
        settings::show(rt, shelf)?;
    }
    Ok(())
}

fn build<R: Env + Files + Print>(rt: &R, err: &impl Print, shelf: &[u8]) -> io::Result<()> {
    let mut wanted = [0u8; files::WANTED_ROOM];
    with_file(
        rt,
        err,
        arguments::INPUT_PLACE,
        "WANTED",
        &mut wanted,
        |wanted| { building::tell(rt, shelf, wanted) },
    )
}

fn apply<R: Env + Files + Print>(
    rt: &R,
    err: &impl Print,
    act: Act,
    shelf: &mut [u8],
) -> io::Result<()> {
    let mut page = [0u8; files::PAGE_ROOM];
    with_file(rt, err, arguments::INPUT_PLACE, "PAGE", &mut page, |page| {
        let answer = applying::apply(act, shelf, page);
        applying::tell(rt, shelf, answer)
    })
}

fn read<R: Env + Files + Print>(rt: &R, err: &impl Print, shelf: &[u8]) -> io::Result<()> {
    let mut page = [0u8; files::PAGE_ROOM];
    with_file(rt, err, arguments::INPUT_PLACE, "PAGE", &mut page, |page| {
        naming::tell_page(rt, shelf, page)
    })
}
