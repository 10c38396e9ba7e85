//! The commands, each in one function.
ghost use Rattle.std.specs.Prelude.{◌≡◌, ◌≤◌, IfOk};
ghost use Rattle.std.specs.Option.{option_copied};
ghost use Rattle.std.specs.Str.{IsUtf8};
ghost use Rattle.ivm_text.specs.Text.{units_of};
ghost use Rattle.host_script.specs.Faults.{Gives};
ghost use Rattle.host_script.specs.Commands.{limit_of, budget_of, isolate_line, context_line, eval_line, get_line, set_line, dispose_line, wait_line};
ghost use Rattle.host_script.specs.HostText.{command_of, can_have_text, command_line};

use crate::draft::Draft;
use crate::fault::at;
use crate::literal::literal;
use crate::options::{given_to, number_between, words_with};
use crate::words::words_of;
use crate::{HostArgument, HostFault, HostKind, What};
use ivm_text::{Bytes, Copy, Items, NoMemory, TextFault, Units, Want};
use std::alloc::Global;

const MOST_ISOLATES: u32 = 64;

const MOST_CELLS: u64 = 16_000_000;

const LEAST_LIMIT: u32 = 1_000;

const MOST_LIMIT: u32 = 4_000_000;

const USUAL_LIMIT: u32 = 1_000_000;

const LEAST_BUDGET: u32 = 1;

const MOST_BUDGET: u32 = 100_000_000;

const USUAL_BUDGET: u32 = 1_000_000;

// The word that a command begins with.
#[derive(Clone, Copy, Debug, PartialEq, Eq)]
pub(crate) enum CommandWord {
    Isolate,
    Context,
    Eval,
    Get,
    Set,
    Dispose,
    Wait,
}

impl CommandWord {
    pub(crate) fn can_have_text(self) -> bool
        ensures { result ≡ can_have_text self }
    {
        match self {
            CommandWord::Eval | CommandWord::Set => true,
            CommandWord::Isolate
            | CommandWord::Context
            | CommandWord::Get
            | CommandWord::Dispose
            | CommandWord::Wait => false,
        }
    }
}

// The command that a word is.
#[tactic(auto, unfolding(crate::specs::HostText::command_of))]
pub(crate) fn command_of(word: &[u8]) -> Option<CommandWord>
    ensures { result ≡ command_of word.now }
{
    if word == b"isolate".as_slice() {
        return Some(CommandWord::Isolate);
    }
    if word == b"context".as_slice() {
        return Some(CommandWord::Context);
    }
    if word == b"eval".as_slice() {
        return Some(CommandWord::Eval);
    }
    if word == b"get".as_slice() {
        return Some(CommandWord::Get);
    }
    if word == b"set".as_slice() {
        return Some(CommandWord::Set);
    }
    if word == b"dispose".as_slice() {
        return Some(CommandWord::Dispose);
    }
    if word == b"wait".as_slice() {
        return Some(CommandWord::Wait);
    }
    None
}

// The key that a word is.
fn key_of(alloc: Global, word: &[u8]) -> Result<Units, NoMemory>
    requires { IsUtf8 word.now }
    ensures { IfOk result (λ key. key ≡ units_of word.now) }
{
    match Units::from_utf8(alloc, word) {
        Ok(key) => Ok(key),
        Err(TextFault::NoMemory) => Err(NoMemory),
        Err(TextFault::BadUtf8(_)) => unreachable!(),
    }
}

// The limit of an isolate in cells, by what its line gives.
fn limit_of(line: u32, given: Option<&[u8]>) -> Result<u32, HostFault>
    ensures gives { Gives (λ limit. limit) result (limit_of line (option_copied given.entry)) }
    ensures within { IfOk result (λ limit. limit ≤ 4000000) }
{
    match given {
        Some(value) => number_between(LEAST_LIMIT, MOST_LIMIT, line, value),
        None => Ok(USUAL_LIMIT),
    }
}

// The budget of a text in ticks, by what its line gives.
fn budget_of(line: u32, given: Option<&[u8]>) -> Result<u32, HostFault>
    ensures { Gives (λ budget. budget) result (budget_of line (option_copied given.entry)) }
{
    match given {
        Some(value) => number_between(LEAST_BUDGET, MOST_BUDGET, line, value),
        None => Ok(USUAL_BUDGET),
    }
}

impl Draft {
    // Adds a command, of which these words and this text stand behind its first word.
    #[tactic(auto, unfolding(crate::specs::HostText::command_line))]
    pub(crate) fn add_command(
        &mut self,
        alloc: Global,
        command: CommandWord,
        number: u32,
        words: &[u8],
        text: Option<Bytes>,
    ) -> Result<(), HostFault>
        requires { IsUtf8 words.now }
        ensures { Gives (λ _. self.new) result (command_line command number self.old words.now text) }
    {
        match command {
            CommandWord::Isolate => self.isolate(alloc, number, words, text),
            CommandWord::Context => self.context(alloc, number, words, text),
            CommandWord::Eval => self.eval(alloc, number, words, text),
            CommandWord::Get => self.get(alloc, number, words, text),
            CommandWord::Set => self.set(alloc, number, words, text),
            CommandWord::Dispose => self.dispose(alloc, number, words, text),
            CommandWord::Wait => self.wait(alloc, number, words, text),
        }
    }

    // `isolate NAME`, `isolate NAME limit=N`
    #[tactic(auto, unfolding(crate::specs::Commands::isolate_line))]
    fn isolate(
        &mut self,
        alloc: Global,
        number: u32,
        words: &[u8],
        text: Option<Bytes>,
    ) -> Result<(), HostFault>
        ensures { Gives (λ _. self.new) result (isolate_line number self.old words.now text) }
    {
        let words = words_of(words);
        let given = given_to(b"limit=", words.second);
        if words.count != words_with(1, given) || text.is_some() {
            return Err(at(number, HostKind::BadWords));
        }
        let name = self.names.new_name(alloc, number, words.first)?;
        let limit = limit_of(number, given)?;
        if self.script.isolates.len() >= MOST_ISOLATES {
            return Err(at(number, HostKind::TooManyIsolates));
        }
        if self.cells() > MOST_CELLS - limit as u64 {
            return Err(at(number, HostKind::TotalCells));
        }
        self.add_isolate(alloc, name, limit)
    }

    // `context LABEL ISOLATE`
    #[tactic(auto, unfolding(crate::specs::Commands::context_line))]
    fn context(
        &mut self,
        alloc: Global,
        number: u32,
        words: &[u8],
        text: Option<Bytes>,
    ) -> Result<(), HostFault>
        ensures { Gives (λ _. self.new) result (context_line number self.old words.now text) }
    {
        let words = words_of(words);
        if words.count != 2 || text.is_some() {
            return Err(at(number, HostKind::BadWords));
        }
        let label = self.names.new_name(alloc, number, words.first)?;
        let isolate = self.names.isolate(alloc, number, words.second)?;
        self.add_context(alloc, label, isolate)
    }

    // `eval LABEL CONTEXT TEXT`, `eval LABEL CONTEXT timeout=N TEXT`
    #[tactic(auto, unfolding(crate::specs::Commands::eval_line))]
    fn eval(
        &mut self,
        alloc: Global,
        number: u32,
        words: &[u8],
        text: Option<Bytes>,
    ) -> Result<(), HostFault>
        ensures { Gives (λ _. self.new) result (eval_line number self.old words.now text) }
    {
        let words = words_of(words);
        let Some(text) = text else {
            return Err(at(number, HostKind::BadWords));
        };
        let given = given_to(b"timeout=", words.third);
        if words.count != words_with(2, given) {
            return Err(at(number, HostKind::BadWords));
        }
        let label = self.names.new_name(alloc, number, words.first)?;
        let context = self.names.context(alloc, number, words.second)?;
        let budget = budget_of(number, given)?;
        let what = What::Eval {
            context,
            budget,
            want: Want::Value,
            text,
        };
        self.add_call(alloc, label, what)
    }

    // `get LABEL CONTEXT KEY`
    #[tactic(auto, unfolding(crate::specs::Commands::get_line))]
    fn get(
        &mut self,
        alloc: Global,
        number: u32,
        words: &[u8],
        text: Option<Bytes>,
    ) -> Result<(), HostFault>
        requires { IsUtf8 words.now }
        ensures { Gives (λ _. self.new) result (get_line number self.old words.now text) }
    {
        let words = words_of(words);
        if words.count != 3 || text.is_some() {
            return Err(at(number, HostKind::BadWords));
        }
        let label = self.names.new_name(alloc, number, words.first)?;
        let target = self.names.context(alloc, number, words.second)?;
        let key = key_of(alloc, words.third)?;
        let want = Want::Value;
        self.add_call(alloc, label, What::Get { target, key, want })
    }

    // `set LABEL CONTEXT KEY TEXT`
    #[tactic(auto, unfolding(crate::specs::Commands::set_line))]
    fn set(
        &mut self,
        alloc: Global,
        number: u32,
        words: &[u8],
        text: Option<Bytes>,
    ) -> Result<(), HostFault>
        requires { IsUtf8 words.now }
        ensures { Gives (λ _. self.new) result (set_line number self.old words.now text) }
    {
        let words = words_of(words);
        let Some(text) = text else {
            return Err(at(number, HostKind::BadWords));
        };
        if words.count != 3 {
            return Err(at(number, HostKind::BadWords));
        }
        let label = self.names.new_name(alloc, number, words.first)?;
        let target = self.names.context(alloc, number, words.second)?;
        let Some(root) = literal(text.as_slice()) else {
            return Err(at(number, HostKind::BadLiteral));
        };
        let key = key_of(alloc, words.third)?;
        let nodes = Items::new(alloc);
        let value = HostArgument::Literal(Copy { nodes, root });
        self.add_call(alloc, label, What::Set { target, key, value })
    }

    // `dispose LABEL ISOLATE`
    #[tactic(auto, unfolding(crate::specs::Commands::dispose_line))]
    fn dispose(
        &mut self,
        alloc: Global,
        number: u32,
        words: &[u8],
        text: Option<Bytes>,
    ) -> Result<(), HostFault>
        ensures { Gives (λ _. self.new) result (dispose_line number self.old words.now text) }
    {
        let words = words_of(words);
        if words.count != 2 || text.is_some() {
            return Err(at(number, HostKind::BadWords));
        }
        let label = self.names.new_name(alloc, number, words.first)?;
        let isolate = self.names.isolate(alloc, number, words.second)?;
        self.add_call(alloc, label, What::Dispose { isolate })
    }

    // `wait`, `wait LABEL`
    #[tactic(auto, unfolding(crate::specs::Commands::wait_line))]
    fn wait(
        &mut self,
        alloc: Global,
        number: u32,
        words: &[u8],
        text: Option<Bytes>,
    ) -> Result<(), HostFault>
        ensures { Gives (λ _. self.new) result (wait_line number self.old words.now text) }
    {
        let words = words_of(words);
        if words.count > 1 || text.is_some() {
            return Err(at(number, HostKind::BadWords));
        }
        if words.count == 0 {
            return self.add_wait(None);
        }
        let call = self.names.call(alloc, number, words.first)?;
        self.add_wait(Some(call))
    }
}
