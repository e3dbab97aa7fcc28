//! The command line. It is read here and not by `clap`, whose errors have several lines, and whose
//! exact contracts cover only simple commands.

ghost use Rattle.std.specs.Prelude.{
  ◌≡◌,
  ℕ,
  [],
  ◌∷◌,
  ◌++◌,
  ◌||◌,
  IfErr,
  IfOk,
  IsFalse,
  IsTrue,
  List,
  MatchResult,
  OnOk,
  codes,
  map,
  unwrap_or,
};
ghost use Rattle.std.specs.Option.{option_or};
ghost use Rattle.ip_commands.specs.CommandLine.{
  AreArguments,
  IsCommand,
  IsMisuse,
  IsMisuseOfCommand,
  IsMisuseOfOperands,
  IsOperation,
  IsRequest,
  IsRequestWith,
  IsWordFault,
  asks_fail_empty,
  asks_skip_bad,
  families_asked,
  form_asked,
  is_dashed,
  is_known,
  question_asked,
  repeats_input,
};
ghost use Rattle.ip_commands.specs.Request.{files_of};

use crate::fault::{Fault, Misuse};
use crate::request::{Combination, Diff, Families, Form, Request, Sources};
use ip_sets::Operation;
use std::alloc::Allocator;
use std::convert::AsStr;
use std::net::IpAddr;

/// The words of a command line, with its options apart.
#[derive(Drop)]
pub struct Arguments<'a, A: Allocator> {
    // The words that are not options.
    operands: Vec<&'a str, A>,
    options: Options,
    // Whether `--` came. No word after it is an option.
    is_ended: bool,
}

// What the options ask for.
#[derive(Clone, Copy)]
struct Options {
    form: Form,
    families: Families,
    question: Option<Question>,
    // Whether an empty result is a failure.
    fail_empty: bool,
    // Whether bad lines are passed over.
    skip_bad: bool,
}

// What is asked about the program itself.
#[derive(Clone, Copy)]
enum Question {
    Help,
    Version,
}

impl<'a, A: Allocator> Arguments<'a, A> {
    /// Returns the arguments of the words after the program's name.
    ///
    /// A word that begins with a dash is an option, and may be anywhere. But `-` is an operand, and
    /// so is each word after `--`. Of options that exclude each other, the last one counts.
    ///
    /// The error is the first option that is unknown, or a failed allocation.
    pub fn new<S: AsStr>(alloc: A, words: &'a [S]) -> Result<Self, Fault<'a>>
        ensures arguments { IfOk result (AreArguments (map S.text words.now)) }
        ensures fault { IfErr result (IsWordFault (map S.text words.now)) }
    {
        let mut arguments = Arguments {
            operands: Vec::new(alloc),
            options: Options {
                form: Form::Blocks,
                families: Families::Both,
                question: None,
                fail_empty: false,
                skip_bad: false,
            },
            is_ended: false,
        };
        for word in words {
            arguments.add(word.as_str())?;
        }
        Ok(arguments)
    }

    // Adds the next word.
    fn add(&mut self, word: &'a str) -> Result<(), Fault<'a>>
        ensures arguments { (words : List (List ℕ)) → AreArguments words self.old
            → OnOk result (AreArguments (words ++ word.now ∷ []) self.new) }
        ensures fault { (before after : List (List ℕ)) → AreArguments before self.old
            → IfErr result (IsWordFault (before ++ word.now ∷ after)) }
    {
        if self.is_ended || !is_dashed(word) {
            self.operands.push(word)?;
            return Ok(());
        }
        if word == "--" {
            self.is_ended = true;
            return Ok(());
        }
        self.options = with_option(self.options, word)?;
        Ok(())
    }

    /// Returns what the arguments ask for, or the first thing that is wrong with the operands.
    /// `--help` and `--version` are answered whatever the operands are.
    pub fn request(&self) -> Result<Request<'_>, Misuse<'_>>
        ensures { (words : List (List ℕ)) → AreArguments words self.now
            → MatchResult result (IsRequest words) (IsMisuse words) }
    {
        match self.options.question {
            Some(Question::Help) => Ok(Request::Help),
            Some(Question::Version) => Ok(Request::Version),
            None => command_of(self.options, &self.operands),
        }
    }
}

// Returns whether a word is an option or `--`: a dash and more.
fn is_dashed(word: &str) -> bool
    ensures { result ≡ is_dashed word.now }
{
    matches!(word.as_bytes(), [b'-', _, ..])
}

// Returns the options with one more.
fn with_option<'a>(options: Options, word: &'a str) -> Result<Options, Misuse<'a>>
    ensures form { IfOk result (λ new. new.form ≡ unwrap_or (form_asked word.now) options.form) }
    ensures families { IfOk result (λ new.
        new.families ≡ unwrap_or (families_asked word.now) options.families) }
    ensures question { IfOk result (λ new.
        new.question ≡ option_or (question_asked word.now) options.question) }
    ensures fail_empty { IfOk result (λ new.
        new.fail_empty ≡ (options.fail_empty || asks_fail_empty word.now)) }
    ensures skip_bad { IfOk result (λ new.
        new.skip_bad ≡ (options.skip_bad || asks_skip_bad word.now)) }
    ensures known { IfOk result (λ new. IsTrue (is_known word.now)) }
    ensures unknown { IfErr result (λ misuse. IsFalse (is_known word.now)
        × (misuse ≡ Misuse.UnknownOption word.entry)) }
{
    let mut options = options;
    match word {
        "--blocks" => options.form = Form::Blocks,
        "--ranges" => options.form = Form::Ranges,
        "-4" => options.families = Families::V4,
        "-6" => options.families = Families::V6,
        "-h" => options.question = Some(Question::Help),
        "--help" => options.question = Some(Question::Help),
        "--version" => options.question = Some(Question::Version),
        "--fail-empty" => options.fail_empty = true,
        "--skip-bad" => options.skip_bad = true,
        _ => return Err(Misuse::UnknownOption(word)),
    }
    Ok(options)
}

// Returns what a command and the words after it ask for. Standard input can be read only once.
fn command_of<'a>(options: Options, operands: &'a [&'a str]) -> Result<Request<'a>, Misuse<'a>>
    ensures { MatchResult result
        (IsCommand options (map (λ word. word.now) operands.now))
        (IsMisuseOfCommand options (map (λ word. word.now) operands.now)) }
{
    let request = request_of(options, operands)?;
    if rereads_input(request) {
        return Err(Misuse::RepeatedInput);
    }
    Ok(request)
}

// Returns whether a request reads standard input more than once.
fn rereads_input(request: Request<'_>) -> bool
    ensures { result ≡ repeats_input (files_of request.entry) }
{
    match request {
        Request::Help => false,
        Request::Version => false,
        Request::Combine(combination) => repeats_input(combination.sources.files),
        Request::Count { sources, .. } => repeats_input(sources.files),
        Request::Has { sources, .. } => repeats_input(sources.files),
        Request::Diff(diff) => repeats_input(&[diff.old, diff.new]),
        Request::Check { files } => repeats_input(files),
    }
}

// Returns whether standard input is among the files more than once.
fn repeats_input(files: &[&str]) -> bool
    ensures { result ≡ repeats_input (map (λ name. name.now) files.now) }
{
    files.iter().filter(|file| **file == "-").count() > 1
}

// Returns what a command and the words after it ask for, however often it reads standard input.
fn request_of<'a>(options: Options, operands: &'a [&'a str]) -> Result<Request<'a>, Misuse<'a>>
    ensures { MatchResult result
        (IsRequestWith options (map (λ word. word.now) operands.now))
        (IsMisuseOfOperands (map (λ word. word.now) operands.now)) }
{
    let [command, words @ ..] = operands else {
        return Err(Misuse::NoCommand);
    };
    match *command {
        "union" => combination(options, Operation::Union, words),
        "common" => combination(options, Operation::Common, words),
        "except" => except(options, words),
        "odd" => combination(options, Operation::Odd, words),
        "at-least" => at_least(options, words),
        "complement" => combination(options, Operation::Complement, words),
        "count" => count(options, words),
        "has" => has(options, words),
        "diff" => diff(options, words),
        "check" => check(options, words),
        _ => Err(Misuse::UnknownCommand(*command)),
    }
}

// Returns what an operation on some files asks for.
fn combination<'a>(
    options: Options,
    operation: Operation,
    files: &'a [&'a str],
) -> Result<Request<'a>, Misuse<'a>>
    ensures request { (operands : List (List ℕ))
        → IsOperation operands operation (map (λ name. name.now) files.now)
        → IfOk result (IsRequestWith options operands) }
    ensures misuse { IfErr result (λ misuse. (misuse ≡ Misuse.MissingFile)
        × (files.now ≡ [])) }
{
    if files.is_empty() {
        return Err(Misuse::MissingFile);
    }
    Ok(Request::Combine(Combination {
        operation,
        form: options.form,
        families: options.families,
        fail_empty: options.fail_empty,
        sources: Sources {
            files,
            skip_bad: options.skip_bad,
        },
    }))
}

// Returns what `except` and the words after it ask for.
fn except<'a>(options: Options, files: &'a [&'a str]) -> Result<Request<'a>, Misuse<'a>>
    ensures request { IfOk result (IsRequestWith options
        (codes "except" ∷ map (λ name. name.now) files.now)) }
    ensures misuse { IfErr result (IsMisuseOfOperands
        (codes "except" ∷ map (λ name. name.now) files.now)) }
{
    if files.len() < 2 {
        return Err(Misuse::MissingFile);
    }
    combination(options, Operation::Except, files)
}

// Returns what `at-least` and the words after it ask for.
fn at_least<'a>(options: Options, words: &'a [&'a str]) -> Result<Request<'a>, Misuse<'a>>
    ensures request { IfOk result (IsRequestWith options
        (codes "at-least" ∷ map (λ word. word.now) words.now)) }
    ensures misuse { IfErr result (IsMisuseOfOperands
        (codes "at-least" ∷ map (λ word. word.now) words.now)) }
{
    let [number, files @ ..] = words else {
        return Err(Misuse::MissingNumber);
    };
    if files.is_empty() {
        return Err(Misuse::MissingFile);
    }
    match number.parse::<usize>() {
        Ok(count) => combination(options, Operation::AtLeast(count), files),
        Err(_) => Err(Misuse::NoNumber(*number)),
    }
}

// Returns what `count` and the words after it ask for.
fn count<'a>(options: Options, files: &'a [&'a str]) -> Result<Request<'a>, Misuse<'a>>
    ensures request { IfOk result (IsRequestWith options
        (codes "count" ∷ map (λ name. name.now) files.now)) }
    ensures misuse { IfErr result (IsMisuseOfOperands
        (codes "count" ∷ map (λ name. name.now) files.now)) }
{
    if files.is_empty() {
        return Err(Misuse::MissingFile);
    }
    Ok(Request::Count {
        families: options.families,
        sources: Sources {
            files,
            skip_bad: options.skip_bad,
        },
    })
}

// Returns what `has` and the words after it ask for.
fn has<'a>(options: Options, words: &'a [&'a str]) -> Result<Request<'a>, Misuse<'a>>
    ensures request { IfOk result (IsRequestWith options
        (codes "has" ∷ map (λ word. word.now) words.now)) }
    ensures misuse { IfErr result (IsMisuseOfOperands
        (codes "has" ∷ map (λ word. word.now) words.now)) }
{
    let [text, files @ ..] = words else {
        return Err(Misuse::MissingAddress);
    };
    if files.is_empty() {
        return Err(Misuse::MissingFile);
    }
    match text.parse::<IpAddr>() {
        Ok(address) => Ok(Request::Has {
            address,
            sources: Sources {
                files,
                skip_bad: options.skip_bad,
            },
        }),
        Err(_) => Err(Misuse::NoAddress(*text)),
    }
}

// Returns what `check` and the words after it ask for.
fn check<'a>(options: Options, files: &'a [&'a str]) -> Result<Request<'a>, Misuse<'a>>
    ensures request { IfOk result (IsRequestWith options
        (codes "check" ∷ map (λ name. name.now) files.now)) }
    ensures misuse { IfErr result (IsMisuseOfOperands
        (codes "check" ∷ map (λ name. name.now) files.now)) }
{
    if files.is_empty() {
        return Err(Misuse::MissingFile);
    }
    Ok(Request::Check { files })
}

// Returns what `diff` and the words after it ask for.
fn diff<'a>(options: Options, words: &'a [&'a str]) -> Result<Request<'a>, Misuse<'a>>
    ensures request { IfOk result (IsRequestWith options
        (codes "diff" ∷ map (λ word. word.now) words.now)) }
    ensures misuse { IfErr result (IsMisuseOfOperands
        (codes "diff" ∷ map (λ word. word.now) words.now)) }
{
    let [old, new, others @ ..] = words else {
        return Err(Misuse::MissingFile);
    };
    if let [extra, ..] = others {
        return Err(Misuse::ExtraWord(*extra));
    }
    Ok(Request::Diff(Diff {
        form: options.form,
        families: options.families,
        old: *old,
        new: *new,
        skip_bad: options.skip_bad,
    }))
}
