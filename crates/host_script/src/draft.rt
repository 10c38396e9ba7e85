//! A script that is being read, and what one line adds to it.
ghost use Rattle.std.specs.Prelude.{◌≡◌, ℕ, ◌+◌, ◌-◌, ◌≤◌, length, None, OnOk, if◌then◌else◌};
ghost use Rattle.std.specs.Str.{IsUtf8, is_utf8};
ghost use Rattle.host_script.specs.Faults.{Gives};
ghost use Rattle.host_script.specs.Words.{lines_of};
ghost use Rattle.host_script.specs.Names.{named};
ghost use Rattle.host_script.specs.Commands.{no_lines, cells_of, with_isolate, with_named, with_context, with_call, with_wait};
ghost use Rattle.host_script.specs.HostText.{is_skipped, unless_bad, with_text, with_command, with_line};
ghost use Rattle.host_script.specs.Steps.{Goes};

use crate::commands::{CommandWord, command_of};
use crate::fault::at;
use crate::lines::Lines;
use crate::names::{Named, Names};
use crate::text::{Text, is_utf8, read_text};
use crate::words::{next_word, skip_blanks};
use crate::{Command, HostFault, HostKind, HostScript, IsolateDecl, What};
use ivm_text::{Bytes, CloneWhole, Items, Units};
use std::alloc::Global;

// The script so far, and the names that it has given.
#[derive(Drop)]
pub(crate) struct Draft {
    pub(crate) script: HostScript,
    pub(crate) names: Names,
}

// A blank line, or one that begins with `#`.
fn is_skipped(line: &[u8]) -> bool
    ensures { result ≡ is_skipped line.now }
{
    let rest = skip_blanks(line);
    rest.is_empty() || rest.starts_with(b"#")
}

// Whether a line is UTF-8, else its fault.
fn check_utf8(line: &[u8], number: u32) -> Result<(), HostFault>
    ensures { result ≡ (if is_utf8 line.now then Ok tt else Err (HostFault.At number HostKind.BadUtf8)) }
{
    if !is_utf8(line) {
        return Err(at(number, HostKind::BadUtf8));
    }
    Ok(())
}

// A fault of a text's own lines, where there is one.
fn check_lines(bad: Option<u32>) -> Result<(), HostFault>
    ensures { result ≡ unless_bad bad tt }
{
    match bad {
        Some(line) => Err(at(line, HostKind::BadUtf8)),
        None => Ok(()),
    }
}

impl Draft {
    // The script of no lines.
    pub(crate) fn new(alloc: Global) -> Draft
        ensures { result ≡ no_lines }
    {
        Draft {
            script: HostScript {
                isolates: Items::new(alloc),
                commands: Items::new(alloc),
            },
            names: Names::new(alloc),
        }
    }

    // The cells that the isolates may have together.
    pub(crate) fn cells(&self) -> u64
        requires { length self.now.script.isolates ≤ 64 }
        ensures { result ≡ cells_of self.now.script }
    {
        self.script
            .isolates
            .as_slice()
            .iter()
            .map(|decl| decl.limit as u64)
            .sum()
    }

    // Adds an isolate with this limit in cells.
    pub(crate) fn add_isolate(
        &mut self,
        alloc: Global,
        name: Units,
        limit: u32,
    ) -> Result<(), HostFault>
        requires { named name self.old.names ≡ None }
        ensures { Gives (λ _. self.new) result (Ok (with_isolate self.old name limit)) }
    {
        let isolate = self.script.isolates.len();
        self.names
            .enter(name.clone_whole(alloc)?, Named::Isolate(isolate))?;
        self.script.isolates.push(IsolateDecl { name, limit })?;
        self.script.commands.push(Command {
            label: None,
            what: What::Declare,
        })?;
        Ok(())
    }

    // Adds a call, under a label that stands for it.
    fn add_named(
        &mut self,
        alloc: Global,
        label: Units,
        what: What,
        meaning: Named,
    ) -> Result<(), HostFault>
        requires { named label self.old.names ≡ None }
        ensures { Gives (λ _. self.new) result (Ok (with_named self.old label what meaning)) }
    {
        self.names.enter(label.clone_whole(alloc)?, meaning)?;
        self.script.commands.push(Command {
            label: Some(label),
            what,
        })?;
        Ok(())
    }

    // Adds a call that makes a context.
    pub(crate) fn add_context(
        &mut self,
        alloc: Global,
        label: Units,
        isolate: u32,
    ) -> Result<(), HostFault>
        requires { named label self.old.names ≡ None }
        ensures { Gives (λ _. self.new) result (Ok (with_context self.old label isolate)) }
    {
        let number = self.script.commands.len();
        self.add_named(
            alloc,
            label,
            What::Context { isolate },
            Named::Context(number),
        )
    }

    // Adds any other call.
    pub(crate) fn add_call(
        &mut self,
        alloc: Global,
        label: Units,
        what: What,
    ) -> Result<(), HostFault>
        requires { named label self.old.names ≡ None }
        ensures { Gives (λ _. self.new) result (Ok (with_call self.old label what)) }
    {
        let number = self.script.commands.len();
        self.add_named(alloc, label, what, Named::Call(number))
    }

    // Adds a `wait`.
    pub(crate) fn add_wait(&mut self, target: Option<u32>) -> Result<(), HostFault>
        ensures { Gives (λ _. self.new) result (Ok (with_wait self.old target)) }
    {
        self.script.commands.push(Command {
            label: None,
            what: What::Wait(target),
        })?;
        Ok(())
    }

    // Adds a command with its text.
    fn add_with_text(
        &mut self,
        alloc: Global,
        command: CommandWord,
        number: u32,
        words: &[u8],
        text: Text,
    ) -> Result<(), HostFault>
        requires { IsUtf8 words.now }
        ensures { (taken : ℕ) → Gives (λ _. (self.new, taken)) result (with_text command number self.old words.now text taken) }
    {
        match text {
            Text::Missing => self.add_command(alloc, command, number, words, None),
            Text::Open => Err(at(number, HostKind::OpenText)),
            Text::Given { text, bad } => {
                self.add_command(alloc, command, number, words, Some(text))?;
                check_lines(bad)
            }
        }
    }

    // Adds the command of a line, and reads the lines after it that belong to its text.
    #[tactic(auto, using(crate::proofs::WordLemmas::parts_utf8), unfolding(crate::specs::HostText::with_command))]
    fn command(
        &mut self,
        alloc: Global,
        command: CommandWord,
        line: &[u8],
        lines: &mut Lines<'_>,
    ) -> Result<(), HostFault>
        requires within { lines.old.number + length lines.old.rest.now ≤ 4194304 }

        ensures gives { Gives (λ _. (self.new, lines.new.number - lines.old.number)) result
            (with_command command lines.old.number self.old line.now (lines_of lines.old.rest.now)) }
        ensures goes { OnOk result (Goes lines.old.number lines.old.rest.now lines.new.number lines.new.rest.now) }
    {
        let number = lines.number;
        let (_, rest) = next_word(line);
        let (words, text) = read_text(alloc, command.can_have_text(), rest, lines)?;
        if !is_utf8(line) {
            return Err(at(number, HostKind::BadUtf8));
        }
        self.add_with_text(alloc, command, number, words, text)
    }

    // What a line adds, with the lines after it that belong to its text.
    pub(crate) fn line(
        &mut self,
        alloc: Global,
        line: &[u8],
        lines: &mut Lines<'_>,
    ) -> Result<(), HostFault>
        requires within { lines.old.number + length lines.old.rest.now ≤ 4194304 }

        ensures gives { Gives (λ _. (self.new, lines.new.number - lines.old.number)) result
            (with_line lines.old.number self.old line.now (lines_of lines.old.rest.now)) }
        ensures goes { OnOk result (Goes lines.old.number lines.old.rest.now lines.new.number lines.new.rest.now) }
    {
        let number = lines.number;
        if is_skipped(line) {
            return check_utf8(line, number);
        }
        let (word, _) = next_word(line);
        match command_of(word) {
            Some(command) => self.command(alloc, command, line, lines),
            None => {
                check_utf8(line, number)?;
                Err(at(number, HostKind::UnknownCommand))
            }
        }
    }
}
