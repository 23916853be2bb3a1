//! Answers a script about rules, line by line. The script is standard input, or the file that the one argument names.

#![tactic(auto)]

mod printed;

ghost use Rattle.std.specs.Prelude.{◌≡◌, ◌<◌, ◌++◌, Some, IfSome, IfOk, IfErr, OnOk, codes, decimal};
ghost use Rattle.std.specs.Fmt.{◌++?◌};
ghost use Rattle.std.specs.Io.KnownBytes.{Appends};
ghost use Rattle.ragtimuwen.specs.Printed.{spaced, not_generated};
ghost use Rattle.script.specs.Meaning.{meaning_of};
ghost use Rattle.ragtimuwen.specs.Solvable.{Solvable, Unsolvable};

use model::refusal::Refusal;
use printed::{Heading, Spaced, Ungenerated, Unread};
use rules::lists::{followers, rejecting_states, start_states};
use rules::{Free, Numbers, Rule};
use ruletext::ReadRule;
use ruletext::read::read;
use script::bytes::Source;
use script::lines::Lines;
use script::parse;
use script::parse::{Command, Fault, Setup, Text};
use sheet::sheet::calls::look;
use std::alloc::{AllocError, Global};
use std::io::{BufWriter, Read, Write};
use std::process::ExitCode;
use std::{env, fs, io};
use synthesis::solved::Found;
use synthesis::solving::solve;
use synthesis::state::State;
use synthesis::workspace::Workspace;

// No clause can say what a file holds, so what is written of one is not stated, nor what is written of a whole line.

// The bytes that a script writes or names.
fn load(rt: &HostRuntime, source: Source) -> io::Result<Vec<u8>> {
    match source {
        Source::Script(bytes) => Ok(bytes),
        Source::File(path) => match std::str::from_utf8(&path) {
            Ok(path) => fs::read(rt, path),
            Err(_) => Err(io::Error::from(io::ErrorKind::InvalidInput)),
        },
    }
}

// Whether a controller can be generated: the numbers and the capacity, the house rule, and the limit are looked at in this order.
#[tactic(auto, unfolding(model::specs::Sheet::look))]
fn generates(setup: &Setup) -> Result<Numbers, Refusal>
    ensures solvable { IfOk result (λ _. Solvable (meaning_of setup.now.house) setup.now.capacity setup.now.limit) }
    ensures numbers { IfOk result (λ n. (n.situations ≡ setup.now.situations) × (n.commands ≡ setup.now.commands)) }
    ensures refused { IfErr result (λ r. Unsolvable setup.now r) }
{
    look(
        &setup.house,
        setup.situations,
        setup.commands,
        setup.capacity,
    )?;
    if setup.limit > 14 {
        return Err(Refusal::OverLimit);
    }
    Ok(Numbers::of(&setup.house))
}

/// Writes answers.
#[derive(Drop)]
struct Answers<'a, W> {
    rt: &'a HostRuntime,
    heap: Global,
    out: &'a mut W,
    /// What solve works in, once a line has asked for it: what it holds does not matter to the next line, and its making takes longer than
    /// many a solve.
    workspace: Option<Workspace>,
}

impl<'a, W: Write> Answers<'a, W> {
    fn new(rt: &'a HostRuntime, out: &'a mut W) -> Answers<'a, W> {
        Answers {
            rt,
            heap: rt.alloc(),
            out,
            workspace: None,
        }
    }

    /// Answers a script, line by line.
    fn script(&mut self, script: &[u8]) -> io::Result<()> {
        for line in Lines::new(script) {
            self.line(line)?;
        }
        self.out.flush()
    }

    fn line(&mut self, line: &[u8]) -> io::Result<()> {
        match parse::read_line(self.heap, line) {
            Ok(Some(command)) => self.command(command),
            Ok(None) => Ok(()),
            Err(Fault::Line(reason)) => writeln!(self.out, "bad line: {reason}"),
            Err(Fault::Memory) => Err(io::Error::from(AllocError)),
        }
    }

    fn command(&mut self, command: Command) -> io::Result<()> {
        match command {
            Command::Show(rule) => self.show(&rule),
            Command::ShowText(text) => self.show_text(text),
            Command::Generate(setup) => self.generate(setup),
        }
    }

    // Writes the rule: a line of its numbers, its start states, its rejecting states, and then what follows each state.
    fn show<R: Rule>(&mut self, rule: &R) -> io::Result<()> {
        let heading = Heading(rule);
        writeln!(self.out, "{heading}")?;
        let starts = start_states(self.heap, rule)?;
        self.states("start", &starts)?;
        let rejecting = rejecting_states(self.heap, rule)?;
        self.states("rejecting", &rejecting)?;
        for state in 0..rule.states() {
            self.state(rule, state)?;
        }
        Ok(())
    }

    // A line of what the states are, and then the states.
    fn states(&mut self, name: &str, states: &[u8]) -> io::Result<()>
        ensures { OnOk result (IfSome (Some name.now ++? (spaced (λ n. Some (decimal n)) states.now ++? Some (codes "\n"))) (Appends (W.contents self.old.out.now) (W.contents self.new.out.now))) }
    {
        let states = Spaced(states);
        writeln!(self.out, "{name}{states}")
    }

    // What follows a state, under each command.
    fn state<R: Rule>(&mut self, rule: &R, state: u8) -> io::Result<()>
        requires { state < (R.Rule.meaning rule.now).states }
    {
        for command in 0..rule.commands() {
            self.followers(rule, state, command)?;
        }
        Ok(())
    }

    // What follows a state under a command, a line for each situation in which a state follows.
    fn followers<R: Rule>(&mut self, rule: &R, state: u8, command: u8) -> io::Result<()>
        requires known_state { state < (R.Rule.meaning rule.now).states }
        requires known_command { command < (R.Rule.meaning rule.now).commands }
    {
        for situation in 0..rule.situations() {
            let next = followers(self.heap, rule, state, command, situation)?;
            if !next.is_empty() {
                let next = Spaced(&next);
                writeln!(
                    self.out,
                    "{state} command {command} situation {situation}:{next}"
                )?;
            }
        }
        Ok(())
    }

    // Reads a rule text, and shows the rule or what is wrong with the text.
    fn show_text(&mut self, text: Text) -> io::Result<()> {
        let Ok(bytes) = load(self.rt, text.source) else {
            return writeln!(self.out, "bad line: the file cannot be read");
        };
        let mut rule = ReadRule::blank();
        match read(&bytes, text.situations, text.commands, &mut rule) {
            Ok(()) => self.show(&rule),
            Err(fault) => {
                let fault = Unread(fault);
                writeln!(self.out, "{fault}")
            }
        }
    }

    // Generates a controller for the house rule alone, and writes it or why there is none.
    fn generate(&mut self, setup: Setup) -> io::Result<()> {
        let numbers = match generates(&setup) {
            Ok(numbers) => numbers,
            Err(refusal) => return self.refuse(refusal),
        };
        let mut workspace = self.take_workspace()?;
        let added: [Free; 0] = [];
        let written = match solve(
            &setup.house,
            &added,
            setup.capacity as usize,
            setup.limit,
            &mut workspace,
        ) {
            Ok(found) => self.controller(found, &workspace.states, numbers),
            Err(unsolved) => self.refuse(Refusal::from(unsolved)),
        };
        self.workspace = Some(workspace);
        written
    }

    // The workspace of the lines before, or a new one.
    fn take_workspace(&mut self) -> Result<Workspace, AllocError> {
        match self.workspace.take() {
            Some(workspace) => Ok(workspace),
            None => Workspace::new(self.heap),
        }
    }

    fn refuse(&mut self, refusal: Refusal) -> io::Result<()>
        ensures { OnOk result (Appends (W.contents self.old.out.now) (W.contents self.new.out.now) (not_generated refusal ++ codes "\n")) }
    {
        let refusal = Ungenerated(refusal);
        writeln!(self.out, "{refusal}")
    }

    // The count and the number of states of a controller, and then its states: the number of each, its command, and its next state in
    // each situation.
    fn controller(&mut self, found: Found, states: &[State], numbers: Numbers) -> io::Result<()> {
        let Found { count, states: len } = found;
        writeln!(self.out, "count {count} states {len}")?;
        for (number, state) in states.iter().take(len).enumerate() {
            let command = state.command;
            let nexts = Spaced(&state.nexts[..numbers.situations as usize]);
            writeln!(self.out, "{number} command {command} next{nexts}")?;
        }
        Ok(())
    }
}

// No clause can say what arguments, files and standard input hold, so these functions have none.

// The one argument, if there is any.
fn script_path(rt: &HostRuntime) -> io::Result<Option<String>> {
    let mut args = env::args(rt)?;
    let _program = args.next();
    let path = args.next();
    match args.next() {
        None => Ok(path),
        Some(_) => Err(io::Error::from(io::ErrorKind::InvalidInput)),
    }
}

fn read_script(rt: &HostRuntime) -> io::Result<Vec<u8>> {
    if let Some(path) = script_path(rt)? {
        return fs::read(rt, path.as_str());
    }
    let mut script = Vec::new(rt.alloc());
    rt.stdin().read_to_end(&mut script)?;
    Ok(script)
}

// Reads the script and answers it.
fn run(rt: &HostRuntime) -> io::Result<()> {
    match read_script(rt) {
        Ok(script) => {
            let mut out = BufWriter::new(rt.alloc(), rt.stdout())?;
            Answers::new(rt, &mut out).script(&script)
        }
        Err(error) => {
            eprintln!(rt; "ragtimuwen: the script cannot be read: {error}")?;
            Err(error)
        }
    }
}

fn main(rt: HostRuntime) -> ExitCode {
    match run(&rt) {
        Ok(()) => ExitCode::SUCCESS,
        // That the script cannot be read has been told; of a failed write the status tells.
        Err(_error) => ExitCode::FAILURE,
    }
}
