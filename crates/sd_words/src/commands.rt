ghost use Rattle.std.specs.Prelude.{◌≡◌, IfOk, [], false, true};
ghost use Rattle.clap.specs.Words.{app_of, rule_of};
ghost use Rattle.sd_words.specs.Arguments.{declared, file as file_rule, option as option_rule, flag as flag_rule, with_files as files_before, of_name, running, stepping};

use clap::{Arg, ArgAction, Command};
use std::alloc::{AllocError, Global};

/// A file that has to be named, at its place.
fn file<'a>(alloc: Global, name: &'a str) -> Arg<'a>
    ensures rule { rule_of result ≡ file_rule name.entry.now }
    ensures own { result.global ≡ false }
{
    Arg::new(alloc, name).required(true)
}

/// An option that has one text, behind its long name.
fn option<'a>(alloc: Global, name: &'a str) -> Arg<'a>
    ensures rule { rule_of result ≡ option_rule name.entry.now }
    ensures own { result.global ≡ false }
{
    Arg::new(alloc, name).long(name)
}

/// A flag, which is its long name alone.
fn flag<'a>(alloc: Global, name: &'a str) -> Arg<'a>
    ensures rule { rule_of result ≡ flag_rule name.entry.now }
    ensures own { result.global ≡ false }
{
    Arg::new(alloc, name).long(name).action(ArgAction::SetTrue)
}

/// A command of this name with the files that every command has.
pub fn with_files<'a>(alloc: Global, name: &'a str) -> Result<Command<'a>, AllocError>
    ensures { IfOk result (λ command. app_of command ≡ of_name name.entry.now (files_before [])) }
{
    let command = Command::new(alloc, name)
        .arg(file(alloc, "source"))?
        .arg(file(alloc, "arrays"))?
        .arg(option(alloc, "chain"))?;
    Ok(command)
}

/// The command `run`.
pub fn run<'a>(alloc: Global) -> Result<Command<'a>, AllocError>
    ensures { IfOk result (λ command. app_of command ≡ declared running) }
{
    let command = with_files(alloc, "run")?
        .arg(option(alloc, "workers"))?
        .arg(option(alloc, "turns"))?;
    Ok(command)
}

/// The command `step`.
pub fn step<'a>(alloc: Global) -> Result<Command<'a>, AllocError>
    ensures { IfOk result (λ command. app_of command ≡ declared stepping) }
{
    let command = with_files(alloc, "step")?
        .arg(file(alloc, "picks"))?
        .arg(option(alloc, "turns"))?
        .arg(flag(alloc, "trace"))?;
    Ok(command)
}
