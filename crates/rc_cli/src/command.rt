//! The words that are listed.

ghost use Rattle.std.specs.Prelude.{◌≡◌, ◌≤◌, IfSome, length, map};
ghost use Rattle.std.specs.List.{list_all};
ghost use Rattle.std.specs.Option.{option_copied};
ghost use Rattle.std.specs.String.{string_bytes};
ghost use Rattle.rc_cli.specs.Command.{is_file_word as is_file_word_of, is_script_word as is_script_word_of, number_up_to as number_up_to_of, request_for as request_for_of, extract_of, verify_of, session_of, request_of, spef_word, script_word, task_seen};

use itoa::Buffer;
use std::marker::Model;

/// How many workers there may be.
const MOST_WORKERS: u32 = 64;

/// How many LEF files there may be.
const MOST_LEFS: usize = 64;

/// What is done with a design.
#[derive(Clone, Copy, Debug, PartialEq, Eq)]
pub enum Task<'a> {
    /// Its extraction is written.
    Extract,
    /// It is compared with the SPEF file of this name.
    Verify(&'a str),
    /// The commands of the script of this name are carried out. `-` is the standard input.
    Session(&'a str),
}

/// What the words of a command line ask for, by the names of its files.
#[derive(Debug, Drop)]
pub struct Request<'a> {
    task: Task<'a>,
    workers: u32,
    rules: &'a str,
    def: &'a str,
    lefs: &'a [String],
}

impl<'a> Model for Request<'a> {
    ghost use Rattle.std.specs.Prelude.{◌≤◌, length, map};
    ghost use Rattle.std.specs.String.{string_bytes};
    ghost use Rattle.rc_cli.specs.Command.{Request, task_seen};

    ghost Value = { Request };

    ghost view = { λ request. record {
      task = task_seen request.task;
      workers = request.workers;
      inputs = record { rules = request.rules.now; def = request.def.now; lefs = map string_bytes request.lefs.now };
    } };

    ghost invariant = { λ request. (1 ≤ request.workers) × (request.workers ≤ 64)
        × (1 ≤ length request.lefs.now) × (length request.lefs.now ≤ 64) };
}

/// Whether a word may name a file: it isn't empty and doesn't begin with a dash.
fn is_file_word(word: &str) -> bool
    ensures { result ≡ is_file_word_of word.now }
{
    let bytes = word.as_bytes();
    !bytes.is_empty() && bytes[0] != b'-'
}

/// Whether a word may name a script: it may name a file, or it is a dash.
fn is_script_word(word: &str) -> bool
    ensures { result ≡ is_script_word_of word.now }
{
    is_file_word(word) || word == "-"
}

/// Whether each of these words may name a file.
fn are_file_words(words: &[String]) -> bool
    ensures { result ≡ list_all is_file_word_of (map string_bytes words.now) }
{
    match words {
        [] => true,
        [first, others @ ..] => is_file_word(first.as_str()) && are_file_words(others),
    }
}

/// The number from 1 to `most` whose plain decimal a word is. None comes exactly where there is no such number.
fn number_up_to(most: u32, word: &str) -> Option<u32>
    requires { most ≤ 64 }
    ensures is { result ≡ number_up_to_of most word.now }
    ensures range { IfSome result (λ number. (1 ≤ number) × (number ≤ most)) }
{
    for below in 0..most {
        if Buffer::new().format(below + 1) == word {
            return Some(below + 1);
        }
    }
    None
}

/// The request for a task by the words `W RULES DEF LEF..`. None comes exactly where they haven't that form.
fn request_for<'a>(task: Task<'a>, workers: &str, files: &'a [String]) -> Option<Request<'a>>
    ensures { result ≡ request_for_of (task_seen task.entry) workers.now (map string_bytes files.now) }
{
    let workers = number_up_to(MOST_WORKERS, workers)?;
    let [rules, def, lefs @ ..] = files else {
        return None;
    };
    if lefs.is_empty() || lefs.len() > MOST_LEFS || !are_file_words(files) {
        return None;
    }
    Some(Request {
        task,
        workers,
        rules: rules.as_str(),
        def: def.as_str(),
        lefs,
    })
}

/// `W RULES DEF LEF..`
fn extract(words: &[String]) -> Option<Request<'_>>
    ensures { result ≡ extract_of (map string_bytes words.now) }
{
    let [workers, files @ ..] = words else {
        return None;
    };
    request_for(Task::Extract, workers.as_str(), files)
}

/// `W SPEF RULES DEF LEF..`
fn verify(words: &[String]) -> Option<Request<'_>>
    ensures { result ≡ verify_of (map string_bytes words.now) }
{
    let [workers, spef, files @ ..] = words else {
        return None;
    };
    if !is_file_word(spef.as_str()) {
        return None;
    }
    request_for(Task::Verify(spef.as_str()), workers.as_str(), files)
}

/// `W SCRIPT RULES DEF LEF..`
fn session(words: &[String]) -> Option<Request<'_>>
    ensures { result ≡ session_of (map string_bytes words.now) }
{
    let [workers, script, files @ ..] = words else {
        return None;
    };
    if !is_script_word(script.as_str()) {
        return None;
    }
    request_for(Task::Session(script.as_str()), workers.as_str(), files)
}

impl<'a> Request<'a> {
    /// What the words ask for. None comes exactly where they have no listed form.
    #[tactic(auto, unfolding(crate::specs::Command::request_of))]
    pub fn from_words(words: &'a [String]) -> Option<Request<'a>>
        ensures { result ≡ request_of (map string_bytes words.now) }
    {
        let [command, words @ ..] = words else {
            return None;
        };
        match command.as_str() {
            "extract" => extract(words),
            "verify" => verify(words),
            "session" => session(words),
            _ => None,
        }
    }

    /// What is done with the extraction.
    pub fn task(&self) -> Task<'a>
        ensures { task_seen result ≡ self.now.task }
    {
        self.task
    }

    /// How many workers there are.
    pub fn workers(&self) -> u32
        ensures is { result ≡ self.now.workers }
        ensures range { (1 ≤ result) × (result ≤ 64) }
    {
        self.workers
    }

    /// The name of the rule file.
    pub fn rules(&self) -> &'a str
        ensures { result.now ≡ self.now.inputs.rules }
    {
        self.rules
    }

    /// The name of the DEF file.
    pub fn def(&self) -> &'a str
        ensures { result.now ≡ self.now.inputs.def }
    {
        self.def
    }

    /// The names of the LEF files, in order.
    pub fn lefs(&self) -> &'a [String]
        ensures are { map string_bytes result.now ≡ self.now.inputs.lefs }
        ensures some { 1 ≤ length result.now }
        ensures few { length result.now ≤ 64 }
    {
        self.lefs
    }

    /// The name of the SPEF file that the extraction is compared with. None comes exactly where it isn't compared.
    pub fn spef(&self) -> Option<&'a str>
        ensures { option_copied result ≡ spef_word self.now.task }
    {
        match self.task {
            Task::Verify(spef) => Some(spef),
            Task::Extract | Task::Session(_) => None,
        }
    }

    /// The name of the script of a session. None comes exactly where the words ask for no session.
    pub fn script(&self) -> Option<&'a str>
        ensures { option_copied result ≡ script_word self.now.task }
    {
        match self.task {
            Task::Session(script) => Some(script),
            Task::Extract | Task::Verify(_) => None,
        }
    }
}
