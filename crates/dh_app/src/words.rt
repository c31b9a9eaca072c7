//! The words that the program is called with, and the job that they name.

ghost use Rattle.std.specs.Prelude.{◌≡◌, ◌<◌, [], ◌∷◌, length};
ghost use Rattle.dh_app.specs.Asking.{argument_word};
ghost use Rattle.dh_app.specs.Words as words;
ghost use Rattle.dh_app.specs.Words.{job_of, is_file_word, words_seen};

/// What a call of the program is to do. A file goes by the position of its word, from 0.
#[derive(Clone, Copy, PartialEq, Eq)]
pub enum Job {
    /// Check the program of a file.
    Check {
        /// The program's file.
        file: u32,
    },
    /// Compile the program of a file, and write the Verilog text of its net.
    Lower {
        /// The program's file.
        file: u32,
    },
    /// Run the program of a file from the memories of another by the checked semantics, and report.
    Interpret {
        /// The program's file.
        file: u32,
        /// The file of the memories.
        data_: u32,
        /// The most logical steps that the run may take.
        steps: u64,
        /// Whether the program may spend any ports, of which the run then tells.
        unchecked: bool,
    },
    /// Compile the program of a file, run its net from the memories of another, and report.
    Simulate {
        /// The program's file.
        file: u32,
        /// The file of the memories.
        data_: u32,
        /// The most clocks that the run may take.
        clocks: u64,
    },
}

/// The most steps or clocks that a run may be given.
const MOST_STEPS: u64 = 1_000_000_000_000;

/// The steps that a run is given where the words do not say.
const USUAL_STEPS: u64 = 1_000_000;

/// The clocks that the run of a net is given where the words do not say.
const USUAL_CLOCKS: u64 = 10_000_000;

impl Job {
    ghost use Rattle.dh_app.specs.Words.{job_of, words_seen};

    /// The job that a list of words names, or None where they name none.
    pub fn of(words: &[String]) -> Option<Job>
        ensures { result ≡ job_of (words_seen words.now) }
    {
        match words {
            [command, file] => over_file(command.as_str(), file.as_str()),
            [command, file, data_, options @ ..] => {
                over_data(command.as_str(), file.as_str(), data_.as_str(), options)
            }
            _ => None,
        }
    }
}

/// The word at a position.
pub fn word(words: &[String], position: u32) -> &str
    requires { position < length words.now }
    ensures { result.now ≡ argument_word (words_seen words.now) position }
{
    words[position as usize].as_str()
}

/// The job of two words.
fn over_file(command: &str, file: &str) -> Option<Job>
    ensures { result ≡ job_of (command.now ∷ (file.now ∷ [])) }
{
    if !is_file_word(file) {
        None
    } else if command == "check" {
        Some(Job::Check { file: 1 })
    } else if command == "lower" {
        Some(Job::Lower { file: 1 })
    } else {
        None
    }
}

/// The job of three words with options behind them.
fn over_data(command: &str, file: &str, data_: &str, options: &[String]) -> Option<Job>
    ensures { result ≡ job_of (command.now ∷ (file.now ∷ (data_.now ∷ words_seen options.now))) }
{
    if !is_file_word(file) || !is_file_word(data_) {
        None
    } else if command == "simulate" {
        simulate_with(options)
    } else if command == "interpret" {
        interpret_with(options)
    } else {
        None
    }
}

/// The job of `simulate` with these options: `--clocks N`, at most once.
fn simulate_with(options: &[String]) -> Option<Job>
    ensures { result ≡ words.simulate_with (words_seen options.now) }
{
    match options {
        [] => simulate_for(Some(USUAL_CLOCKS)),
        [a, b] => clocks_alone(a.as_str(), b.as_str()),
        _ => None,
    }
}

/// The job of `simulate` with two options.
fn clocks_alone(a: &str, b: &str) -> Option<Job>
    ensures { result ≡ words.simulate_with (a.now ∷ (b.now ∷ [])) }
{
    if a == "--clocks" {
        simulate_for(steps_of(b))
    } else {
        None
    }
}

/// The job of `simulate` for these clocks.
fn simulate_for(clocks: Option<u64>) -> Option<Job>
    ensures { result ≡ words.simulate_for clocks }
{
    let clocks = clocks?;
    Some(Job::Simulate {
        file: 1,
        data_: 2,
        clocks,
    })
}

/// The job of `interpret` with these options: `--steps N` and `--unchecked`, each at most once.
fn interpret_with(options: &[String]) -> Option<Job>
    ensures { result ≡ words.interpret_with (words_seen options.now) }
{
    match options {
        [] => interpret_for(false, Some(USUAL_STEPS)),
        [a] => unchecked_alone(a.as_str()),
        [a, b] => steps_alone(a.as_str(), b.as_str()),
        [a, b, c] => both_options(a.as_str(), b.as_str(), c.as_str()),
        _ => None,
    }
}

/// The job of `interpret` with one word of options.
fn unchecked_alone(a: &str) -> Option<Job>
    ensures { result ≡ words.interpret_with (a.now ∷ []) }
{
    if a == "--unchecked" {
        interpret_for(true, Some(USUAL_STEPS))
    } else {
        None
    }
}

/// The job of `interpret` with two words of options.
fn steps_alone(a: &str, b: &str) -> Option<Job>
    ensures { result ≡ words.interpret_with (a.now ∷ (b.now ∷ [])) }
{
    if a == "--steps" {
        interpret_for(false, steps_of(b))
    } else {
        None
    }
}

/// The job of `interpret` with three words of options.
fn both_options(a: &str, b: &str, c: &str) -> Option<Job>
    ensures { result ≡ words.interpret_with (a.now ∷ (b.now ∷ (c.now ∷ []))) }
{
    if a == "--unchecked" && b == "--steps" {
        interpret_for(true, steps_of(c))
    } else if a == "--steps" && c == "--unchecked" {
        interpret_for(true, steps_of(b))
    } else {
        None
    }
}

/// The job of `interpret` for these steps.
fn interpret_for(unchecked: bool, steps: Option<u64>) -> Option<Job>
    ensures { result ≡ words.interpret_for unchecked steps }
{
    let steps = steps?;
    Some(Job::Interpret {
        file: 1,
        data_: 2,
        steps,
        unchecked,
    })
}

/// The number of steps or clocks that a word writes: `0`, or decimal digits without a leading zero, up to
/// 1,000,000,000,000.
fn steps_of(word: &str) -> Option<u64>
    ensures { result ≡ words.steps_in_word word.now }
{
    if !is_plain(word) {
        return None;
    }
    let Ok(steps) = u64::from_str_radix(word, 10) else {
        return None;
    };
    if steps > MOST_STEPS {
        return None;
    }
    Some(steps)
}

/// Whether a word begins neither with `+` nor with `0` before further digits.
fn is_plain(word: &str) -> bool
    ensures { result ≡ words.is_plain_word word.now }
{
    match word.as_bytes() {
        [] => true,
        [first] => *first != b'+',
        [first, ..] => *first != b'+' && *first != b'0',
    }
}

/// Whether a word can name a file: it is not empty and does not begin with `-`.
fn is_file_word(word: &str) -> bool
    ensures { result ≡ is_file_word word.now }
{
    match word.as_bytes() {
        [] => false,
        [first, ..] => *first != b'-',
    }
}
